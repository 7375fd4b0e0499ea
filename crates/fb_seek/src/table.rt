// The first fault of a seek table, and look-ups in one.
ghost use Rattle.std.specs.Prelude.{◌≡◌, ℕ, ◌+◌, ◌<◌, ◌≤◌, ◌^◌, length, IfNone, nat_lt};
ghost use Rattle.std.specs.List.{list_any, slice_index_or};
ghost use Rattle.fb_seek.specs.declared.point.SeekPoint.{SeekPoint};
ghost use Rattle.fb_seek.specs.Faults.{first_fault, fault_among, first_bad, stays_near, falls, is_bad_time, is_out_of_range, last_distance};

use crate::{SeekFault, SeekPoint};
use fb_units::Ns;

const MOST_POINTS: usize = 4096;

const MOST_CYLINDERS: u32 = 1_000_000;

// The longest time of a seek, a head switch or a settle.
const LONGEST: Ns = 1_000_000_000;

// The index of the first point whose distance is not above that of the point before it.
pub fn first_near(first: SeekPoint, points: &[SeekPoint]) -> Option<u32>
    requires { first.distance ≡ 1 }
    ensures value { result ≡ first_bad stays_near 1 first points.now }
    ensures few { IfNone result (length points.now + 1 < 2 ^ 32) }
{
    let mut before = first;
    for (index, point) in points.iter().enumerate() {
        if point.distance <= before.distance {
            return Some(index as u32 + 1);
        }
        before = *point;
    }
    None
}

// The index of the first point whose time is below that of the point before it.
pub fn first_falling(first: SeekPoint, points: &[SeekPoint]) -> Option<u32>
    requires { length points.now + 1 < 2 ^ 32 }
    ensures { result ≡ first_bad falls 1 first points.now }
{
    let mut before = first;
    for (index, point) in points.iter().enumerate() {
        if point.time < before.time {
            return Some(index as u32 + 1);
        }
        before = *point;
    }
    None
}

// The distance of the last point.
pub fn last_distance(first: SeekPoint, points: &[SeekPoint]) -> u32
    ensures { result ≡ last_distance first points.now }
{
    let mut last = first;
    for point in points {
        last = *point;
    }
    last.distance
}

// Whether a number of the mechanism is out of its range.
pub fn is_out_of_range(
    points: &[SeekPoint],
    cylinders: u32,
    head_switch: Ns,
    write_settle: Ns,
) -> bool
    ensures { result
        ≡ is_out_of_range (record { points = points.now; cylinders = cylinders; head_switch = head_switch; write_settle = write_settle }) }
{
    if points.len() > MOST_POINTS {
        return true;
    }
    if has_bad_time(points) {
        return true;
    }
    if head_switch > LONGEST {
        return true;
    }
    if write_settle > LONGEST {
        return true;
    }
    if cylinders == 0 {
        return true;
    }
    cylinders > MOST_CYLINDERS
}

fn has_bad_time(points: &[SeekPoint]) -> bool
    ensures { result ≡ list_any is_bad_time points.now }
{
    points.iter().any(|point| is_bad_time(point))
}

// Whether a point's time can't be that of a seek.
fn is_bad_time(point: &SeekPoint) -> bool
    ensures { result ≡ is_bad_time point.now }
{
    if point.time == 0 {
        return true;
    }
    point.time > LONGEST
}

// The first fault of a table, if it has one.
#[tactic(auto, unfolding(crate::specs::Faults::fault_from))]
pub fn fault_of(
    points: &[SeekPoint],
    cylinders: u32,
    head_switch: Ns,
    write_settle: Ns,
) -> Option<SeekFault>
    ensures { result
        ≡ first_fault (record { points = points.now; cylinders = cylinders; head_switch = head_switch; write_settle = write_settle }) }
{
    let Some((first, rest)) = points.split_first() else {
        return Some(SeekFault::NoPoints);
    };
    if first.distance != 1 {
        return Some(SeekFault::FirstNotOne);
    }
    if let Some(index) = first_near(*first, rest) {
        return Some(SeekFault::DistanceNotRising(index));
    }
    if let Some(index) = first_falling(*first, rest) {
        return Some(SeekFault::TimeFalls(index));
    }
    if last_distance(*first, rest) < cylinders.saturating_sub(1) {
        return Some(SeekFault::TooShort);
    }
    if is_out_of_range(points, cylinders, head_switch, write_settle) {
        return Some(SeekFault::OutOfRange);
    }
    None
}

// The index of the first point whose distance is not below this one; the number of points if there
// is none.
pub fn next_point(points: &[SeekPoint], distance: u32) -> usize
    requires { (k : ℕ) (d : SeekPoint) → k + 1 < length points.now
        → (slice_index_or points.now k d).distance < (slice_index_or points.now (k + 1) d).distance }
    ensures bound { result ≤ length points.now }
    ensures passed { (k : ℕ) (d : SeekPoint) → k < result → (slice_index_or points.now k d).distance < distance }
    ensures reached { (d : SeekPoint) → result < length points.now → distance ≤ (slice_index_or points.now result d).distance }
{
    points.partition_point(
        |point: &SeekPoint| -> bool
            ensures { result ≡ nat_lt point.now.distance distance }
        { point.distance < distance },
    )
}
