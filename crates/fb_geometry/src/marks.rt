// Marked positions of cylinders: bad slots, counted head by head in the order of the tracks' turns.
ghost use Rattle.std.specs.Prelude.{◌≡◌, ℕ, true, false, ◌+◌, ◌<◌, ◌≤◌, ◌^◌, ◌==◌, ◌-◌, IfNone, IfSome, IfOk, length, map};
ghost use Rattle.std.specs.List.{list_any};
ghost use Rattle.fb_geometry.specs.Slips.{IsAscending, rank, slipped, entry_of_sector, HoldsNone, HoldsSector};
ghost use Rattle.fb_geometry.specs.Marks.{AreInOrder, positions, marks_on, among_unmarked};

use fb_units::NoMemory;
use std::alloc::Global;
use std::marker::Model;

// A position of a cylinder: how many of its slots come before.
#[derive(Clone, Copy, PartialEq, Eq, PartialOrd, Ord)]
pub struct Mark {
    // The cylinder.
    pub cylinder: u32,
    // How many slots of the cylinder come before.
    pub position: u32,
}

// Marks in ascending order, without repetition.
#[derive(Drop)]
pub struct Marks {
    items: Vec<Mark>,
}

impl Model for Marks {
    ghost use Rattle.std.specs.Prelude.{List};
    ghost use Rattle.fb_geometry.specs.declared.marks.Mark.{Mark};
    ghost use Rattle.fb_geometry.specs.Marks.{AreInOrder};

    ghost Value = { List Mark };

    ghost view = { λ m. m.items.items };

    ghost invariant = { λ m. AreInOrder m.items.items };
}

impl Marks {
    // These marks, which are in order.
    pub fn of(items: Vec<Mark>) -> Marks
        requires { AreInOrder items.items }
        ensures { result ≡ items.items }
    {
        Marks { items }
    }

    // The marks of a cylinder.
    pub fn on(&self, cylinder: u32) -> &[Mark]
        ensures value { result.now ≡ marks_on cylinder self.now }
        ensures ascending { IsAscending (positions result.now) }
    {
        part(self.items.as_slice(), cylinder)
    }
}

// The marks of a cylinder among marks in order.
pub fn part(marks: &[Mark], cylinder: u32) -> &[Mark]
    requires { AreInOrder marks.now }
    ensures value { result.now ≡ marks_on cylinder marks.now }
    ensures ascending { IsAscending (positions result.now) }
{
    let (_, from) = marks.split_at(marks.partition_point(|mark| mark.cylinder < cylinder));
    let (on, _) = from.split_at(from.partition_point(|mark| mark.cylinder <= cylinder));
    on
}

// How many marks of a cylinder come before a position.
pub fn rank(marks: &[Mark], position: u32) -> u32
    requires ascending { IsAscending (positions marks.now) }
    ensures value { result ≡ rank position (positions marks.now) }
    ensures bound { result ≤ position }
{
    marks.partition_point(|mark| mark.position < position) as u32
}

// How many positions before this one are not marked.
pub fn unmarked_before(marks: &[Mark], position: u32) -> u32
    requires ascending { IsAscending (positions marks.now) }
    ensures { result ≡ position - rank position (positions marks.now) }
{
    position - rank(marks, position)
}

// How many positions, from this one on, come before the next marked one or before the end.
#[tactic(auto, using(crate::proofs::Marking::next_upto, crate::proofs::Marking::none_next))]
pub fn unmarked_from(marks: &[Mark], position: u32, end: u32) -> u32
    requires ascending { IsAscending (positions marks.now) }
    requires order { position ≤ end }
    ensures bound { position + result ≤ end }
    ensures free { (q : ℕ) → position ≤ q → q < position + result → list_any (λ other. other == q) (positions marks.now) ≡ false }
    ensures ends { position + result < end → list_any (λ other. other == position + result) (positions marks.now) ≡ true }
{
    let next = rank(marks, position) as usize;
    if next == marks.len() {
        return end - position;
    }
    marks[next].position.min(end) - position
}

// Whether a position of the cylinder is marked.
#[tactic(auto, using(crate::proofs::Marking::next_upto, crate::proofs::Marking::none_next, crate::proofs::Marking::next_mark))]
pub fn is_marked(marks: &[Mark], position: u32) -> bool
    requires ascending { IsAscending (positions marks.now) }
    ensures { result ≡ list_any (λ other. other == position) (positions marks.now) }
{
    let next = rank(marks, position) as usize;
    if next == marks.len() {
        return false;
    }
    marks[next].position == position
}

// The position of the `number`-th unmarked position, counted from 0: the number, and one more for
// each marked position that is passed over.
#[tactic(auto, using(crate::proofs::Marking::slipped_at, crate::proofs::Marking::position_at))]
pub fn slipped(marks: &[Mark], number: u32) -> u32
    requires ascending { IsAscending (positions marks.now) }
    requires fits { slipped number (positions marks.now) < 2 ^ 32 }
    ensures { result ≡ slipped number (positions marks.now) }
{
    let mut low: usize = 0;
    let mut high = marks.len();
    while low < high {
        let middle = low + (high - low) / 2;
        if marks[middle].position as usize <= number as usize + middle {
            low = middle + 1;
        } else {
            high = middle;
        }
    }
    number + low as u32
}

// The entry that holds a sector, if the first `sectors` entries hold the sectors in order, but each
// marked one of these has moved to the next free unmarked entry behind them.
pub fn entry_of_sector(marks: &[Mark], sectors: u32, sector: u32) -> u32
    requires ascending { IsAscending (positions marks.now) }
    requires fits { entry_of_sector (positions marks.now) sectors sector < 2 ^ 32 }
    ensures { result ≡ entry_of_sector (positions marks.now) sectors sector }
{
    if is_marked(marks, sector) {
        slipped(marks, unmarked_before(marks, sectors) + rank(marks, sector))
    } else {
        sector
    }
}

// The sector that an entry of such a list holds. None if it holds none.
#[tactic(auto, using(crate::proofs::Marking::fewer_unmarked, crate::proofs::Marking::few_spares))]
pub fn sector_of_entry(marks: &[Mark], sectors: u32, entry: u32) -> Option<u32>
    requires ascending { IsAscending (positions marks.now) }
    ensures none { IfNone result (HoldsNone (positions marks.now) sectors entry) }
    ensures some { IfSome result (HoldsSector (positions marks.now) sectors entry) }
{
    if is_marked(marks, entry) {
        return None;
    }
    if entry < sectors {
        return Some(entry);
    }
    let unmarked = unmarked_before(marks, entry);
    if unmarked >= sectors {
        return None;
    }
    let spare = unmarked - unmarked_before(marks, sectors);
    Some(marks[spare as usize].position)
}

// The same marks, each with its position counted among the positions that `marked` doesn't mark.
pub fn among_unmarked(alloc: Global, marked: &[Mark], marks: &[Mark]) -> Result<Vec<Mark>, NoMemory>
    requires { AreInOrder marked.now }
    ensures { IfOk result (λ unmarked. unmarked.items ≡ map (among_unmarked marked.now) marks.now) }
{
    let mut unmarked = Vec::with_capacity(alloc, marks.len())?;
    for mark in marks {
        unmarked.push(Mark {
            cylinder: mark.cylinder,
            position: unmarked_before(part(marked, mark.cylinder), mark.position),
        })?;
    }
    Ok(unmarked)
}
