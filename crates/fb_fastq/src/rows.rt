// Requests that wait in a row for each cylinder.
ghost use Rattle.std.specs.Prelude.{◌≡◌, ◌⊎◌, ℕ, ◌<◌, ◌≤◌, ◌^◌, Some, true, length, slice_get, IfSome, IsSome, OnOk, OnErr};
ghost use Rattle.std.specs.List.{AllByRecursion};
ghost use Rattle.std.specs.List.Sorted.{IsStrictlySortedBy};
ghost use Rattle.std.specs.Ordering.{nat_cmp};
ghost use Rattle.std.specs.BTreeSet.{contains};
ghost use Rattle.fb_geometry.specs.Shape.{cylinders_of};
ghost use Rattle.fb_seek.specs.Positioning.{seek};
ghost use Rattle.fb_seek.specs.Rising.{SeeksRise};
ghost use Rattle.fb_service.specs.Approaching.{IsDeparture};
ghost use Rattle.fb_fastq.specs.declared.soonest.Candidate.{Candidate};
ghost use Rattle.fb_fastq.specs.Joining.{Waiting};
ghost use Rattle.fb_fastq.specs.Lanes.{IsAlong};
ghost use Rattle.fb_fastq.specs.Sides.{IsOn, AreThose};
ghost use Rattle.fb_fastq.specs.Candidates.{IsBefore};
ghost use Rattle.fb_fastq.specs.More.{IsMore};
ghost use Rattle.fb_fastq.specs.ByCylinder.{Row, all_of_rows, at_position, IsOnCylinder, AreRows, AreOccupied, IsArrival, IsPick};
ghost use Rattle.fb_fastq.specs.ByCylinder.{RulesOutAll, Numbers};

use crate::arrival::{Arrival, arrival_at};
use crate::side::Side;
use crate::soonest::Candidate;
use fb_service::{Departure, Disk};
use fb_units::{NoMemory, Ns, Request};
use std::alloc::Global;
use std::collections::BTreeSet;
use std::collections::btree_set::Range;

/// Where a request stands among the rows.
#[derive(Clone, Copy)]
pub struct Position {
    pub row: u32,
    pub index: usize,
}

/// The soonest request found so far.
#[derive(Clone, Copy)]
pub struct Pick {
    pub best: Candidate,
    /// Where it stands, if it is one of the rows'.
    pub position: Option<Position>,
}

// The sooner of what is picked and another; of two with the same wait, the one that joined first.
fn sooner(pick: Pick, next: Candidate, position: Position) -> Pick
    ensures one { (result ≡ pick) ⊎ ((result.best ≡ next) × (result.position ≡ Some position)) }
    ensures first { IsBefore result.best pick.best }
    ensures second { IsBefore result.best next }
{
    let best = pick.best;
    if next.wait < best.wait || (next.wait == best.wait && next.key.1 < best.key.1) {
        Pick {
            best: next,
            position: Some(position),
        }
    } else {
        pick
    }
}

// The soonest of what is picked and the requests of a cylinder at which the head arrives.
fn soonest_of_row(
    rows: &[Vec<((u64, u64), Request)>],
    disk: &Disk,
    from: &Departure,
    arrival: &Arrival,
    pick: Pick,
) -> Pick
    requires rows { AreRows 0 rows.now }
    requires spots { AllByRecursion (λ w. IsAlong disk.now w.1 w.0.0) (all_of_rows rows.now) }
    requires from { IsDeparture disk.now from.now }
    requires arrival { IsArrival disk.now from.now arrival.now }
    ensures pick { (limit : Candidate) → IsPick disk.now from.now.track from.now.instant rows.now limit pick
        → IsPick disk.now from.now.track from.now.instant rows.now limit result }
    ensures first { IsBefore result.best pick.best }
    ensures least { (row : Row) → slice_get rows.now arrival.now.cylinder ≡ Some row
        → RulesOutAll disk.now from.now.track from.now.instant result.best row.items }
{
    let number = arrival.cylinder as usize;
    if rows.len() <= number {
        return pick;
    }
    let row = rows[number].as_slice();
    let mut pick = pick;
    for index in 0..row.len() {
        let waiting = &row[index];
        if pick.best.wait < arrival.least_wait(disk, from, waiting) {
            continue;
        }
        let wait = arrival.wait(disk, from, waiting);
        let next = Candidate {
            key: waiting.0,
            wait,
        };
        let position = Position {
            row: arrival.cylinder,
            index,
        };
        pick = sooner(pick, next, position);
    }
    pick
}

// The cylinders of the disk on one side of the head whose rows have requests.
fn occupied_on<'a>(
    occupied: &'a BTreeSet<u32>,
    disk: &Disk,
    from: &Departure,
    side: Side,
) -> Range<'a, u32>
    requires from { IsDeparture disk.now from.now }
    ensures ordered { IsStrictlySortedBy nat_cmp occupied.now.keys }
    ensures those { AreThose (λ k. IsOn side from.now.track.cylinder k × (k < cylinders_of disk.now.map.zones)) occupied.now.keys result }
{
    let start = from.track.cylinder;
    match side {
        Side::Above => occupied.range(start..disk.map.geometry().cylinders()),
        Side::Below => occupied.range(..start),
    }
}

// The soonest of what is picked and the requests of the cylinders on one side of the head.
#[tactic(auto, using(crate::proofs::Outwards::fewer_rows))]
fn walk(
    rows: &[Vec<((u64, u64), Request)>],
    occupied: &BTreeSet<u32>,
    disk: &Disk,
    from: &Departure,
    side: Side,
    pick: Pick,
) -> Pick
    requires rows { AreRows 0 rows.now }
    requires spots { AllByRecursion (λ w. IsAlong disk.now w.1 w.0.0) (all_of_rows rows.now) }
    requires occupied { AreOccupied occupied.now rows.now }
    requires from { IsDeparture disk.now from.now }
    ensures pick { (limit : Candidate) → IsPick disk.now from.now.track from.now.instant rows.now limit pick
        → IsPick disk.now from.now.track from.now.instant rows.now limit result }
    ensures first { IsBefore result.best pick.best }
    ensures least { (i : ℕ) (row : Row) → slice_get rows.now i ≡ Some row → IsOn side from.now.track.cylinder i
        → RulesOutAll disk.now from.now.track from.now.instant result.best row.items }
{
    let mut pick = pick;
    let mut left = occupied_on(occupied, disk, from, side);
    disk.mechanism.seeks_rise();
    while let Some(cylinder) = side.next(&mut left) {
        let arrival = arrival_at(disk, from, *cylinder);
        if pick.best.wait < arrival.seek {
            return pick;
        }
        pick = soonest_of_row(rows, disk, from, &arrival, pick);
    }
    pick
}

// Whether the arm's way to the nearest other cylinder alone takes longer than this wait, in ns.
fn is_too_far(disk: &Disk, wait: Ns) -> bool
    ensures far { result ≡ true → wait < seek disk.now.mechanism 1 }
    ensures short { result ≡ true → seek disk.now.mechanism 1 ≤ 10 ^ 9 }
    ensures rise { SeeksRise disk.now.mechanism }
{
    disk.mechanism.seeks_rise();
    disk.map.geometry().cylinders() > 1 && wait < disk.mechanism.seek(1)
}

/// The soonest of the requests of all rows, and a limit.
///
/// Of two with the same wait it is the one that joined first.
pub fn soonest_in_rows(
    rows: &[Vec<((u64, u64), Request)>],
    occupied: &BTreeSet<u32>,
    disk: &Disk,
    from: &Departure,
    limit: Candidate,
) -> Pick
    requires rows { AreRows 0 rows.now }
    requires spots { AllByRecursion (λ w. IsAlong disk.now w.1 w.0.0) (all_of_rows rows.now) }
    requires occupied { AreOccupied occupied.now rows.now }
    requires from { IsDeparture disk.now from.now }
    ensures pick { IsPick disk.now from.now.track from.now.instant rows.now limit result }
    ensures least { RulesOutAll disk.now from.now.track from.now.instant result.best (all_of_rows rows.now) }
{
    let pick = Pick {
        best: limit,
        position: None,
    };
    let above = walk(rows, occupied, disk, from, Side::Above, pick);
    if is_too_far(disk, above.best.wait) {
        return above;
    }
    walk(rows, occupied, disk, from, Side::Below, above)
}

// Makes rows, up to this one.
//
// The only error is out of memory; there may be more rows then, but no request more or less.
fn reach(
    alloc: Global,
    rows: &mut Vec<Vec<((u64, u64), Request)>>,
    number: u32,
) -> Result<(), NoMemory>
    ensures same { all_of_rows rows.new.items ≡ all_of_rows rows.old.items }
    ensures rows { AreRows 0 rows.old.items → AreRows 0 rows.new.items }
    ensures long { OnOk result (number < length rows.new.items) }
    ensures occupied { (occupied : Numbers) → AreOccupied occupied rows.old.items → AreOccupied occupied rows.new.items }
{
    while rows.len() <= number as usize {
        rows.push(Vec::new(alloc))?;
    }
    Ok(())
}

// Notes that a row is to get a request, if it has none yet.
//
// The only error is out of memory, after which nothing has changed.
fn occupy(
    rows: &[Vec<((u64, u64), Request)>],
    occupied: &mut BTreeSet<u32>,
    number: u32,
) -> Result<(), NoMemory>
    requires there { number < length rows.now }
    requires occupied { AreOccupied occupied.old rows.now }
    ensures has { OnOk result (contains nat_cmp occupied.new number ≡ true) }
    ensures occupied { AreOccupied occupied.new rows.now }
    ensures err { OnErr result (occupied.new ≡ occupied.old) }
{
    if rows[number as usize].is_empty() {
        occupied.insert(number)?;
    }
    Ok(())
}

/// Adds a request to its cylinder's row, which is made if it isn't there.
///
/// The only error is out of memory, after which the same requests wait.
pub fn put(
    alloc: Global,
    rows: &mut Vec<Vec<((u64, u64), Request)>>,
    occupied: &mut BTreeSet<u32>,
    number: u32,
    waiting: ((u64, u64), Request),
) -> Result<(), NoMemory>
    requires on { IsOnCylinder number waiting.0.0 }
    requires occupied { AreOccupied occupied.old rows.old.items }
    ensures more { OnOk result (IsMore waiting (all_of_rows rows.old.items) (all_of_rows rows.new.items)) }
    ensures err { OnErr result (all_of_rows rows.new.items ≡ all_of_rows rows.old.items) }
    ensures rows { AreRows 0 rows.old.items → AreRows 0 rows.new.items }
    ensures occupied { AreOccupied occupied.new rows.new.items }
{
    reach(alloc, rows, number)?;
    occupy(rows.as_slice(), occupied, number)?;
    add_to(rows, number, waiting)
}

// Adds a request to a row.
//
// The only error is out of memory, after which the same requests wait.
#[tactic(auto, using(crate::proofs::OneMore::row_there, crate::proofs::OneMore::same_rows))]
fn add_to(
    rows: &mut Vec<Vec<((u64, u64), Request)>>,
    number: u32,
    waiting: ((u64, u64), Request),
) -> Result<(), NoMemory>
    requires there { number < length rows.old.items }
    requires on { IsOnCylinder number waiting.0.0 }
    ensures more { OnOk result (IsMore waiting (all_of_rows rows.old.items) (all_of_rows rows.new.items)) }
    ensures err { OnErr result (all_of_rows rows.new.items ≡ all_of_rows rows.old.items) }
    ensures rows { AreRows 0 rows.old.items → AreRows 0 rows.new.items }
    ensures occupied { (occupied : Numbers) → contains nat_cmp occupied number ≡ true → AreOccupied occupied rows.old.items
        → AreOccupied occupied rows.new.items }
{
    rows[number as usize].push(waiting)?;
    Ok(())
}

/// Takes out the request at a position.
pub fn take_from(rows: &mut Vec<Vec<((u64, u64), Request)>>, position: Position) -> Request
    requires there { IsSome (at_position rows.old.items position) }
    ensures value { IfSome (at_position rows.old.items position) (λ w. result ≡ w.1) }
    ensures less { IfSome (at_position rows.old.items position) (λ w. IsMore w (all_of_rows rows.new.items) (all_of_rows rows.old.items)) }
    ensures rows { AreRows 0 rows.old.items → AreRows 0 rows.new.items }
    ensures there { position.row < length rows.new.items }
    ensures occupied { (occupied : Numbers) → AreOccupied occupied rows.old.items → AreOccupied occupied rows.new.items }
{
    rows[position.row as usize].remove(position.index).1
}

/// Lets go of a row's memory if the row has no request, and of its number.
pub fn free_if_empty(
    alloc: Global,
    rows: &mut Vec<Vec<((u64, u64), Request)>>,
    occupied: &mut BTreeSet<u32>,
    number: u32,
)
    requires there { number < length rows.old.items }
    ensures same { all_of_rows rows.new.items ≡ all_of_rows rows.old.items }
    ensures rows { AreRows 0 rows.old.items → AreRows 0 rows.new.items }
    ensures occupied { AreOccupied occupied.old rows.old.items → AreOccupied occupied.new rows.new.items }
{
    let row = number as usize;
    if rows[row].is_empty() {
        rows[row] = Vec::new(alloc);
        occupied.remove(&number);
    }
}
