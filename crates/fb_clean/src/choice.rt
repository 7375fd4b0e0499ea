// The choice of the segment to clean next.
ghost use Rattle.std.specs.Prelude.{◌≡◌, ◌<◌, ◌≤◌, ◌^◌, ℕ, None, Some, true, false, length, IfSome, IfNone, slice_get};
ghost use Rattle.fb_clean.specs.Segments.{LogSegment, first_best, waiting};
ghost use Rattle.fb_clean.specs.Numbers.{AreNumbered};
ghost use Rattle.fb_clean.specs.Ranks.{AreRanked};

use crate::segment::{Segment, number_of};
use std::collections::BTreeSet;

/// The index of the first segment, from one on, that is still to be chosen; as many as there are if
/// there is none.
pub fn next_waiting(segments: &[Segment], from: usize) -> usize
    requires { from ≤ length segments.now }
    ensures order { (from ≤ result) × (result ≤ length segments.now) }
    ensures passed { (i : ℕ) (s : LogSegment) → from ≤ i → i < result → slice_get segments.now i ≡ Some s → s.waits ≡ false }
    ensures here { (s : LogSegment) → slice_get segments.now result ≡ Some s → s.waits ≡ true }
{
    for next in from..segments.len() {
        if segments[next].waits() {
            return next;
        }
    }
    segments.len()
}

/// The index of the first segment with the greatest ratio of benefit to cost among those
/// still to be chosen, whose ranks are given; `first` is the first of them all.
///
/// `None` where no segment is left to choose.
pub fn best_waiting(segments: &[Segment], ranks: &BTreeSet<u128>, first: usize) -> Option<usize>
    requires numbered { (AreNumbered 1 segments.now) × (length segments.now < 2 ^ 32) }
    requires ranked { AreRanked segments.now ranks.now first }
    requires first { (first ≤ length segments.now) × ((s : LogSegment) → slice_get segments.now first ≡ Some s → s.waits ≡ true) }
    ensures some { IfSome result (λ i. slice_get segments.now i ≡ first_best (waiting segments.now)) }
    ensures within { IfSome result (λ i. i < length segments.now) }
    ensures none { IfNone result (first_best (waiting segments.now) ≡ None) }
{
    if first == segments.len() {
        return None;
    }
    // No ratio is greater than that of a segment without blocks.
    if segments[first].is_empty() {
        return Some(first);
    }
    match ranks.last() {
        Some(rank) => Some(number_of(*rank) as usize - 1),
        None => None,
    }
}
