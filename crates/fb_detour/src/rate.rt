// How fast blocks pass.
ghost use Rattle.std.specs.Prelude.{◌<◌};

use fb_units::Ns;

// How much passes on a track at most: one sector in each share of a rotation.
#[derive(Clone, Copy)]
pub struct Rate {
    // The most weight that is wanted of one sector.
    pub depth: u64,
    // The least length of a slot, in ns.
    pub share: Ns,
    pub ghost some: { 0 < share },
}
