// The keys of a parameter file and of its zones.
ghost use Rattle.std.specs.Prelude.{◌≡◌, map};
ghost use Rattle.fb_params.specs.Keys.{key_of, front_keys, back_keys, zone_keys};

use fb_geometry::Layout;

// The kind of value that a key requires.
#[derive(Clone, Copy)]
pub enum Kind {
    // An integer.
    Number,
    // An array of integers.
    Numbers,
    // An array of arrays, each of this many integers.
    Rows(usize),
    // An array of tables.
    Tables,
}

// The numbers from `low` to `high` that are multiples of `multiple`.
#[derive(Clone, Copy)]
pub struct Range {
    // The least number.
    pub low: u64,
    // The greatest number.
    pub high: u64,
    // What each number is a multiple of.
    pub multiple: u64,
}

// A key: its name, the kind of its value, the range of each number in it, and whether it is
// required.
#[derive(Clone, Copy)]
pub struct Key {
    // Its name.
    pub name: &'static str,
    // The kind of its value.
    pub kind: Kind,
    // The range of each number in its value.
    pub range: Range,
    // Whether it is required.
    pub required: bool,
}

// A key with the range of its numbers, what they are multiples of, and whether it is required.
macro_rules! key {
    ($name:literal, $kind:expr, $low:literal, $high:literal, $multiple:literal, $required:literal) => {
        Key {
            name: $name,
            kind: $kind,
            range: Range {
                low: $low,
                high: $high,
                multiple: $multiple,
            },
            required: $required,
        }
    };
}

// A required key.
macro_rules! must {
    ($name:literal, $kind:expr, $low:literal..=$high:literal) => {
        key!($name, $kind, $low, $high, 1, true)
    };
    ($name:literal, $kind:expr, $low:literal..=$high:literal, $multiple:literal) => {
        key!($name, $kind, $low, $high, $multiple, true)
    };
}

// A key that may be left out.
macro_rules! may {
    ($name:literal, $kind:expr, $low:literal..=$high:literal) => {
        key!($name, $kind, $low, $high, 1, false)
    };
}

// The keys of a zone, of which this is the last: how many sectors are spare.
macro_rules! of_zone {
    ($spares:expr) => {
        [
            must!("first", Kind::Number, 0..=999_999),
            must!("last", Kind::Number, 0..=999_999),
            must!("sectors", Kind::Number, 1..=10_000),
            may!("track_skew", Kind::Number, 0..=10_000),
            may!("cylinder_skew", Kind::Number, 0..=10_000),
            $spares,
        ]
    };
}

static FRONT: [Key; 8] = [
    must!("version", Kind::Number, 1..=2),
    must!("rotation_ns", Kind::Number, 1..=1_000_000_000),
    must!("sector_bytes", Kind::Number, 16..=4096, 16),
    must!("heads", Kind::Number, 1..=64),
    must!("head_switch_ns", Kind::Number, 0..=1_000_000_000),
    must!("write_settle_ns", Kind::Number, 0..=1_000_000_000),
    must!("seek", Kind::Rows(2), 0..=1_000_000_000),
    must!("zone", Kind::Tables, 0..=0),
];

static BACK: [Key; 2] = [
    may!("defects", Kind::Rows(3), 0..=999_999),
    may!("latent", Kind::Numbers, 0..=1_000_000_000_000),
];

static BACK_WITH_GROWN: [Key; 3] = [
    may!("defects", Kind::Rows(3), 0..=999_999),
    may!("grown", Kind::Rows(3), 0..=999_999),
    may!("latent", Kind::Numbers, 0..=1_000_000_000_000),
];

static ZONE: [Key; 6] = of_zone!(may!("spares", Kind::Number, 0..=10_000));

static ZONE_WITH_CYLINDER_SPARES: [Key; 6] = of_zone!(may!(
    "cylinder_spares",
    Kind::Number,
    0..=640_000
));

// The keys of the file up to `zone`.
pub fn front_keys() -> &'static [Key]
    ensures { map key_of result.now ≡ front_keys }
{
    &FRONT
}

// The keys of the file after `zone`.
pub fn back_keys(layout: Layout) -> &'static [Key]
    ensures { map key_of result.now ≡ back_keys layout }
{
    match layout {
        Layout::PerTrack => &BACK,
        Layout::PerCylinder => &BACK_WITH_GROWN,
    }
}

// The keys of a zone.
pub fn zone_keys(layout: Layout) -> &'static [Key]
    ensures { map key_of result.now ≡ zone_keys layout }
{
    match layout {
        Layout::PerTrack => &ZONE,
        Layout::PerCylinder => &ZONE_WITH_CYLINDER_SPARES,
    }
}
