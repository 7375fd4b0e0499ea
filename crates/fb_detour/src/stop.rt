// A stop of the head on a track, on its way to the target.
ghost use Rattle.std.specs.Prelude.{◌≡◌, ◌*◌, ◌≤◌, ◌^◌};
ghost use Rattle.fb_geometry.specs.Shape.{IsTrackOf};
ghost use Rattle.fb_plan.specs.Ways.{AreOnDisk};
ghost use Rattle.fb_detour.specs.Bounds.{IsStop};

use fb_plan::Turning;
use fb_service::Disk;
use fb_units::{Ns, Track};
use fb_wanted::{Offer, TrackBlocks};

// What a track offers, the sum of its worth, and how its blocks pass from the arrival on.
#[derive(Clone, Copy)]
pub struct Stop<'a> {
    // The track on which the head stops.
    pub track: Track,
    // What the wanted blocks of the track offer.
    pub offers: &'a [Offer],
    // What these are worth together, in weight times sectors.
    pub weight: u64,
    // Where the platter stands as the head arrives; the arrival is `turning.from`, in ns.
    pub turning: Turning,
}

// The stop on a track with these blocks that begins at the instant `arrive`, in ns.
pub fn stop_at<'a>(disk: &Disk, blocks: &TrackBlocks<'a>, track: Track, arrive: Ns) -> Stop<'a>
    requires track { IsTrackOf disk.now.map track }
    requires on_disk { AreOnDisk disk.now blocks.now }
    requires early { arrive ≤ 9 * 10 ^ 18 }
    ensures stop { IsStop disk.now blocks.now result }
    ensures track { result.track ≡ track }
    ensures arrive { result.turning.from ≡ arrive }
{
    Stop {
        track,
        offers: blocks.offers(),
        weight: blocks.wanted_weight(),
        turning: Turning::new(disk, arrive),
    }
}
