// The sectors of puts, for the test whether a range shares one with them.
ghost use Rattle.std.specs.Prelude.{◌≡◌, ℕ, ◌+◌, ◌<◌, ◌≤◌, ◌^◌, List, [], ◌∷◌, ◌++◌, IfSome, IfNone, OnOk, Some, true, false};
ghost use Rattle.std.specs.List.{list_any};
ghost use Rattle.std.specs.Ordering.{nat_cmp};
ghost use Rattle.std.specs.BTreeMap.{get, ContainsKey};
ghost use Rattle.fb_puts.specs.Ranges.{share, AreApart};
ghost use Rattle.fb_puts.specs.Taken.{AreTaken, HasTaken, IsKnown, IsSure};
ghost use Rattle.fb_puts.specs.declared.range.SectorRange.{SectorRange};

use crate::range::SectorRange;
use fb_units::NoMemory;
use std::alloc::Global;
use std::collections::BTreeMap;

/// The sectors of the puts so far.
#[derive(Drop)]
pub enum Taken {
    /// The first sector of each put by its end.
    Known(BTreeMap<u64, u64>),
    /// They aren't kept: whether two puts share a sector is judged behind the last one.
    Unknown,
}

impl Taken {
    /// No sector, and those of later puts will be known.
    pub fn new(alloc: Global) -> Taken
        ensures none { HasTaken result [] }
        ensures known { IsKnown result }
    {
        Taken::Known(BTreeMap::new(alloc))
    }

    /// Whether the range shares a sector with one of these; no, if they aren't known.
    pub fn has(&self, range: SectorRange) -> bool
        requires some { 0 < range.count }
        requires fits { range.first + range.count < 2 ^ 63 }
        ensures { (ranges : List SectorRange) → HasTaken self.now ranges → IsSure self.now ranges range
            → result ≡ list_any (share range) ranges }
    {
        match self {
            Taken::Known(ends) => is_taken(ends, range),
            Taken::Unknown => false,
        }
    }

    /// Adds a range that shares a sector with none of these.
    pub fn add(&mut self, range: SectorRange) -> Result<(), NoMemory>
        requires some { 0 < range.count }
        requires fits { range.first + range.count < 2 ^ 63 }
        ensures taken { OnOk result ((ranges : List SectorRange) → HasTaken self.old ranges
            → (IsKnown self.old → list_any (share range) ranges ≡ false) → HasTaken self.new (ranges ++ range ∷ [])) }
        ensures known { OnOk result (IsKnown self.old → IsKnown self.new) }
    {
        match self {
            Taken::Known(ends) => {
                ends.insert(range.first + range.count, range.first)?;
            }
            Taken::Unknown => {}
        }
        Ok(())
    }
}

/// Whether no two of these ranges, each of which has a sector, share one.
pub fn are_apart(mut ranges: Vec<SectorRange>) -> bool
    ensures { result ≡ true → AreApart ranges.items }
{
    ranges.sort_unstable_by_key(|range| range.first);
    are_in_turn(&ranges)
}

// Whether each of these ranges ends before the next one begins.
fn are_in_turn(ranges: &[SectorRange]) -> bool
    ensures { result ≡ true → AreApart ranges.now }
{
    let mut last = SectorRange { first: 0, count: 0 };
    for range in ranges {
        if !last.ends_before(*range) {
            return false;
        }
        last = *range;
    }
    true
}

// Whether a range shares a sector with one of these, which are kept by their ends.
fn is_taken(ends: &BTreeMap<u64, u64>, range: SectorRange) -> bool
    requires some { 0 < range.count }
    requires fits { range.first + range.count < 2 ^ 63 }
    ensures { (ranges : List SectorRange) → AreTaken ends.now ranges → result ≡ list_any (share range) ranges }
{
    match first_ending_behind(ends, range.first) {
        Some(first) => first < range.first + range.count,
        None => false,
    }
}

// The first sector of the range that ends first of those that end behind this sector.
fn first_ending_behind(ends: &BTreeMap<u64, u64>, lbn: u64) -> Option<u64>
    requires { lbn < 2 ^ 63 }
    ensures found { IfSome result (λ first. (end : ℕ) × (get nat_cmp ends.now end ≡ Some first) × (lbn < end)
        × ((other : ℕ) → ContainsKey nat_cmp ends.now other → lbn < other → end ≤ other)) }
    ensures none { IfNone result ((other : ℕ) → ContainsKey nat_cmp ends.now other → other ≤ lbn) }
{
    match ends.range(lbn + 1..).next() {
        Some((_, first)) => Some(*first),
        None => None,
    }
}
