// The blocks that plans may catch, looked up once.
ghost use Rattle.std.specs.Prelude.{◌≡◌, ◌*◌, ◌≤◌, ◌^◌};
ghost use Rattle.fb_service.specs.declared.disk.Disk.{Disk};
ghost use Rattle.fb_wanted.specs.States.{on_track};
ghost use Rattle.fb_plan.specs.Ways.{AreOnDisk};
ghost use Rattle.fb_plan.specs.Turns.{AreSides};

use crate::Turning;
use fb_rows::Dwell;
use fb_service::Disk;
use fb_units::Track;
use fb_wanted::{TrackBlocks, Wanted};

/// The registered blocks of a plan's two tracks, and where the platter stands.
#[derive(Drop)]
pub struct Sides<'a> {
    /// The blocks on the track of the early dwell.
    pub early: TrackBlocks<'a>,
    /// Where the platter stands at the begin of that dwell.
    pub turning: Turning,
    /// The blocks on the target.
    pub late: TrackBlocks<'a>,
}

/// The registered blocks of a track, wanted or not.
pub fn blocks_on(wanted: &Wanted, track: Track) -> TrackBlocks<'_>
    ensures its { result ≡ on_track track wanted.now }
    ensures on_disk { (disk : Disk) → AreOnDisk disk wanted.now → AreOnDisk disk result }
{
    wanted.on(track)
}

/// The blocks of a dwell's track and of the target, and where the platter stands at the begin of the
/// dwell.
pub fn sides_of<'a>(disk: &Disk, wanted: &'a Wanted, target: Track, dwell: Dwell) -> Sides<'a>
    requires blocks { AreOnDisk disk.now wanted.now }
    requires early { dwell.begin ≤ 9 * 10 ^ 18 }
    ensures sides { AreSides disk.now target wanted.now dwell result }
    ensures early { AreOnDisk disk.now result.early }
    ensures late { AreOnDisk disk.now result.late }
{
    Sides {
        early: blocks_on(wanted, dwell.track),
        turning: Turning::new(disk, dwell.begin),
        late: blocks_on(wanted, target),
    }
}
