// Places and passages of sectors.
ghost use Rattle.by_hand.specs.Passages.{SkewedTracks, SlippedTrack, MovedSector, PassagesOverTracks, PassagesOverDefects, Cuttings};

/// Where some sectors are, when they pass, and how ranges of them are cut.
///
/// With a skew the first sector of a track comes later in the turn, so that a read over two tracks
/// meets it as the head arrives. Sectors slip past a slot that was bad from the beginning. A sector
/// whose slot went bad later moves to a spare of its cylinder, and is a block of its own.
pub fn worked_passages()
    ensures skewed { SkewedTracks }
    ensures slipped { SlippedTrack }
    ensures moved { MovedSector }
    ensures over_tracks { PassagesOverTracks }
    ensures over_defects { PassagesOverDefects }
    ensures cut { Cuttings }
{}
