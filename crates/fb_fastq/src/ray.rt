// The spots on one side of the arm.
ghost use Rattle.std.specs.Prelude.{◌≡◌, ◌≤◌, ◌^◌};
ghost use Rattle.std.specs.BTreeMap.{keys};
ghost use Rattle.std.specs.List.Sorted.{IsStrictlySortedBy};
ghost use Rattle.fb_fastq.specs.Joining.{order};
ghost use Rattle.fb_fastq.specs.Sides.{IsOn, AreThose, beyond};

use crate::lanes::{LANE, Lane};
use crate::side::Side;
use fb_units::{Ns, Request};
use std::collections::BTreeMap;
use std::collections::btree_map::Range;

/// The spots on one side of the arm from a start outwards: above those from the start on, and below
/// those before it.
#[derive(Clone, Copy)]
pub struct Ray {
    /// The side of the arm.
    pub side: Side,
    /// The spot at which they start, in ns along the lanes.
    pub start: Ns,
}

impl Ray {
    /// The requests that wait there, in order of their spots.
    pub fn those_of<'a>(
        &self,
        waiting: &'a BTreeMap<(u64, u64), Request>,
    ) -> Range<'a, (u64, u64), Request>
        ensures ordered { IsStrictlySortedBy order (keys waiting.now) }
        ensures those { AreThose (λ w. IsOn self.now.side self.now.start w.0.0) waiting.now.entries result }
    {
        match self.side {
            Side::Above => waiting.range((self.start, 0)..),
            Side::Below => waiting.range(..(self.start, 0)),
        }
    }

    /// The spots of the ray that are farther out than a lane.
    pub fn beyond(&self, lane: &Lane) -> Ray
        requires { lane.now.start ≤ 2 ^ 60 }
        ensures { result ≡ record { side = self.now.side; start = beyond self.now.side lane.now.start } }
    {
        let start = match self.side {
            Side::Above => lane.start + LANE,
            Side::Below => lane.start,
        };
        Ray {
            side: self.side,
            start,
        }
    }
}
