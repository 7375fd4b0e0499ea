// Why a parameter file is refused.
use fb_geometry::GeometryFault;
use fb_seek::SeekFault;
use fb_units::{KeyText, ReadError};

/// Why a parameter file is refused. Each kind of fault is looked for in the whole file before the
/// next one in this order.
#[derive(Drop)]
pub enum ParamsFault {
    /// The bytes aren't a TOML document.
    NotToml,
    /// A key that the format doesn't have. A key of a zone is named with `zone.` before it.
    UnknownKey(KeyText),
    /// A required key that is missing.
    MissingKey(KeyText),
    /// A key whose value is of a wrong kind: not an integer, or not an array of the right form.
    WrongKind(KeyText),
    /// A key with a number that is out of its range.
    OutOfRange(KeyText),
    /// The outline of the disk is impossible.
    Geometry(GeometryFault),
    /// The seek table is impossible.
    Seek(SeekFault),
    /// The first listed latent sector that isn't on the disk, by its LBN.
    LatentOutside(u64),
}

/// Why there are no parameters: the fault of the file, or out of memory.
pub type ParamsError = ReadError<ParamsFault>;
