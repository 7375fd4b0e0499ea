// Foreground reports of small traces.
ghost use Rattle.by_hand.specs.Foreground.{FirstRead, ReadInTime, ReadTooLate, ReadOverTracks, ReadOverSkewedTracks, ReadOverSlip};
ghost use Rattle.by_hand.specs.Foreground.{ReadOverMoved, ReadOfUnevenSlots, ReadOfNothing};

/// What the foreground report of some small traces is.
///
/// A read waits for its sector; one that arrives as the sector begins doesn't wait, and one that
/// arrives a nanosecond later waits a rotation. A read over two tracks moves between them, and is
/// in time where the second one is skewed. It goes on behind a slot that was bad from the
/// beginning, and goes to the spare of one that went bad later, and back. Slots whose number
/// doesn't divide the rotation begin at rounded angles.
pub fn foreground_texts()
    ensures first { FirstRead }
    ensures in_time { ReadInTime }
    ensures too_late { ReadTooLate }
    ensures over_tracks { ReadOverTracks }
    ensures skewed { ReadOverSkewedTracks }
    ensures slip { ReadOverSlip }
    ensures moved { ReadOverMoved }
    ensures uneven { ReadOfUnevenSlots }
    ensures empty { ReadOfNothing }
{}
