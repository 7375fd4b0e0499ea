// A spill with its value, and the better of two.
ghost use Rattle.std.specs.Prelude.{◌≡◌, ◌⊎◌, true, false};
ghost use Rattle.fb_bgwrite.specs.Choosing.{IsNoWorseValued};
ghost use Rattle.fb_bgwrite.specs.Spilling.{IsNoLater};

use fb_units::{Ns, Track};

/// Where the head stays in a gap to write, and when it leaves for the request's first track.
#[derive(Clone, Copy)]
pub struct Spill {
    /// The track.
    pub track: Track,
    /// The instant at which the head leaves it, in nanoseconds.
    pub leave: Ns,
}

/// A spill, and how many sectors it writes.
#[derive(Clone, Copy)]
pub struct Valued {
    /// The spill.
    pub spill: Spill,
    /// The number of sectors that it writes, at least 1.
    pub value: u64,
}

// Whether the first spill comes no later in the order of ties: by cylinder, then by head, then by
// the instant at which the head leaves.
fn is_no_later(a: Spill, b: Spill) -> bool
    ensures yes { result ≡ true → IsNoLater a b }
    ensures no { result ≡ false → IsNoLater b a }
{
    a.track < b.track || a.track == b.track && a.leave <= b.leave
}

/// The spill of greater value; of two with the same value, the first in the order of ties.
pub fn better(a: Valued, b: Valued) -> Valued
    ensures either { (result ≡ a) ⊎ (result ≡ b) }
    ensures no_worse_a { IsNoWorseValued result a }
    ensures no_worse_b { IsNoWorseValued result b }
{
    if b.value < a.value || a.value == b.value && is_no_later(a.spill, b.spill) {
        a
    } else {
        b
    }
}
