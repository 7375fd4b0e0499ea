// Sectors of small disks, worked out by hand.
ghost use Rattle.fb_sectormap.specs.Worked.{SlipsOnTrack, HoldNothing, SlipsOnCylinder, CutBehindMoved};

/// Where some sectors of small disks are, and how a range is cut there, as worked out by hand.
///
/// With spares per track the sectors behind a bad slot slip on by one, and neither that slot nor
/// the last spare holds data; with spares per cylinder the sectors of later tracks slip on too. A
/// sector that has moved to a spare ends a block.
pub fn small_disks()
    ensures slip_on_track { SlipsOnTrack }
    ensures nothing { HoldNothing }
    ensures slip_on_cylinder { SlipsOnCylinder }
    ensures cut { CutBehindMoved }
{}
