// The greatest of numbers, of which ranges are asked for.
ghost use Rattle.std.specs.Prelude.{◌≡◌, ℕ, ◌⊎◌, ◌≤◌, ◌<◌, ◌/◌, ◌^◌, [], length, get_or, set, OnOk};

use crate::bands::add_bands;
use fb_units::NoMemory;
use std::alloc::Global;
use std::marker::Model;

/// How many numbers that stand side by side make a group. Group k has those from number 64 k to
/// 64 k + 63.
const GROUP: usize = 64;

/// Numbers, each with an index, and beside them the greatest of each group.
#[derive(Drop)]
pub struct Peaks {
    numbers: Vec<u64>,
    groups: Vec<u64>,
}

impl Model for Peaks {
    ghost use Rattle.std.specs.Prelude.{List, ℕ};
    ghost use Rattle.fb_wanted.specs.LookUp.{ArePeaks};

    ghost Value = { List ℕ };

    ghost view = { λ p. p.numbers.items };

    ghost invariant = { λ p. ArePeaks p.numbers.items p.groups.items };
}

/// The greatest of the numbers with indexes from `from` up to the end; 0 if there are none.
pub fn greatest_of(numbers: &[u64], from: usize, end: usize) -> u64
    ensures each { (i : ℕ) → from ≤ i → i < end → get_or numbers.now i 0 ≤ result }
    ensures least { (most : ℕ) → ((i : ℕ) → from ≤ i → i < end → get_or numbers.now i 0 ≤ most) → result ≤ most }
{
    let mut greatest: u64 = 0;
    for i in from..end.min(numbers.len()) {
        greatest = greatest.max(numbers[i]);
    }
    greatest
}

/// The greatest number of a group, which was `greatest` before one of them has changed from `was` to
/// `now`.
pub fn greatest_anew(numbers: &[u64], group: usize, greatest: u64, was: u64, now: u64) -> u64
    requires few { group < 2 ^ 32 }
    requires others { (i : ℕ) → i / 64 ≡ group → (get_or numbers.now i 0 ≤ greatest) ⊎ (get_or numbers.now i 0 ≤ now) }
    ensures each { (i : ℕ) → i / 64 ≡ group → get_or numbers.now i 0 ≤ result }
    ensures least { (most : ℕ) → now ≤ most → (was < greatest → greatest ≤ most)
        → ((i : ℕ) → i / 64 ≡ group → get_or numbers.now i 0 ≤ most) → result ≤ most }
{
    if now >= greatest {
        return now;
    }
    if was < greatest {
        return greatest;
    }
    let from = group * GROUP;
    greatest_of(numbers, from, from + GROUP)
}

// The first index from `from` up to the end at which a number other than 0 stands; the end if there
// is none.
fn first_of(numbers: &[u64], from: usize, end: usize) -> usize
    ensures before { (i : ℕ) → from ≤ i → i < result → get_or numbers.now i 0 ≡ 0 }
    ensures there { result < end → (from ≤ result) × (0 < get_or numbers.now result 0) }
    ensures last { result ≤ end }
{
    for i in from..end.min(numbers.len()) {
        if numbers[i] > 0 {
            return i;
        }
    }
    end
}

impl Peaks {
    /// Without any number.
    pub fn new(alloc: Global) -> Self
        ensures { result ≡ [] }
    {
        Peaks {
            numbers: Vec::new(alloc),
            groups: Vec::new(alloc),
        }
    }

    /// Makes room for all indexes up to this one, with the number 0. Numbers stay as they are, also
    /// out of memory.
    pub fn add_room(&mut self, index: u32) -> Result<(), NoMemory>
        ensures stay { (i : ℕ) → get_or self.new i 0 ≡ get_or self.old i 0 }
        ensures longer { length self.old ≤ length self.new }
        ensures there { OnOk result (index < length self.new) }
    {
        add_bands(&mut self.groups, index / GROUP as u32, 0)?;
        add_bands(&mut self.numbers, index, 0)
    }

    /// The number at an index.
    pub fn at(&self, index: u32) -> u64
        requires { index < length self.now }
        ensures { result ≡ get_or self.now index 0 }
    {
        self.numbers[index as usize]
    }

    /// Changes the number at an index.
    pub fn set(&mut self, index: u32, number: u64)
        requires { index < length self.old }
        ensures { self.new ≡ set self.old index number }
    {
        let group = index as usize / GROUP;
        let was = self.numbers[index as usize];
        let greatest = self.groups[group];
        self.numbers[index as usize] = number;
        self.groups[group] = greatest_anew(&self.numbers, group, greatest, was, number);
    }

    /// The greatest of the numbers with indexes from `from` up to the end; 0 if there are none.
    pub fn among(&self, from: u32, end: u32) -> u64
        ensures each { (i : ℕ) → from ≤ i → i < end → get_or self.now i 0 ≤ result }
        ensures least { (most : ℕ) → ((i : ℕ) → from ≤ i → i < end → get_or self.now i 0 ≤ most) → result ≤ most }
    {
        let first = (from as usize + GROUP - 1) / GROUP;
        let last = end as usize / GROUP;
        if first >= last {
            return greatest_of(&self.numbers, from as usize, end as usize);
        }
        let before = greatest_of(&self.numbers, from as usize, first * GROUP);
        let behind = greatest_of(&self.numbers, last * GROUP, end as usize);
        greatest_of(&self.groups, first, last)
            .max(before)
            .max(behind)
    }

    /// The first index from `from` on at which a number other than 0 stands, or one behind all
    /// numbers.
    pub fn next(&self, from: usize) -> usize
        requires few { from < 2 ^ 63 }
        ensures since { from ≤ result }
        ensures before { (i : ℕ) → from ≤ i → i < result → get_or self.now i 0 ≡ 0 }
        ensures there { result < length self.now → 0 < get_or self.now result 0 }
    {
        let first = from / GROUP + 1;
        let near = first_of(&self.numbers, from, first * GROUP);
        if near < first * GROUP {
            return near;
        }
        let last = (self.numbers.len() / GROUP + 1).max(first);
        let group = first_of(&self.groups, first, last);
        first_of(&self.numbers, group * GROUP, group * GROUP + GROUP)
    }
}
