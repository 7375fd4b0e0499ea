// Ranges of sectors, keyed by where they begin, each with a content or none. A range extends to the
// next.
ghost use Rattle.std.specs.Prelude.{◌≡◌, ℕ, ◌+◌, ◌<◌, ◌≤◌, ◌≢◌, None, Some, OnOk, OnErr};
ghost use Rattle.std.specs.Ordering.{nat_cmp};
ghost use Rattle.std.specs.BTreeMap.{get, ContainsKey, IsUnchanged};
ghost use Rattle.fb_store.specs.Ranges.{held_of};

use crate::Content;
use fb_units::NoMemory;
use std::collections::BTreeMap;

/// The content of the range that a sector is in, if it has one.
pub fn held_at(ranges: &BTreeMap<u64, Option<Content>>, lbn: u64) -> Option<Content>
    ensures { result ≡ held_of (get nat_cmp ranges.now) lbn }
{
    match ranges.range(..=lbn).next_back() {
        Some((_, held)) => *held,
        None => None,
    }
}

/// Where the first range behind a sector begins; the end if it begins no earlier.
pub fn next_begin(ranges: &BTreeMap<u64, Option<Content>>, lbn: u64, end: u64) -> u64
    requires { lbn < end }
    ensures above { lbn < result }
    ensures within { result ≤ end }
    ensures least { (begin : ℕ) → ContainsKey nat_cmp ranges.now begin → lbn < begin → result ≤ begin }
{
    match ranges.range(lbn + 1..).next() {
        Some((begin, _)) => (*begin).min(end),
        None => end,
    }
}

/// The content of the range that a sector is in, if it has one, and where the first range behind the sector begins; the end
/// if it begins no earlier.
///
/// This takes one search where no range begins between the sector and the end.
pub fn held_up_to(
    ranges: &BTreeMap<u64, Option<Content>>,
    lbn: u64,
    end: u64,
) -> (Option<Content>, u64)
    requires { lbn < end }
    ensures held { result.0 ≡ held_of (get nat_cmp ranges.now) lbn }
    ensures above { lbn < result.1 }
    ensures within { result.1 ≤ end }
    ensures least { (begin : ℕ) → ContainsKey nat_cmp ranges.now begin → lbn < begin → result.1 ≤ begin }
{
    if let Some((begin, held)) = ranges.range(..end).next_back() {
        if *begin <= lbn {
            return (*held, end);
        }
    }
    (held_at(ranges, lbn), next_begin(ranges, lbn, end))
}

/// Makes a range begin at a sector, with the content that the sector has. Out of memory, no content
/// has changed.
#[tactic(auto, using(crate::proofs::Held::cut_same))]
pub fn cut(ranges: &mut BTreeMap<u64, Option<Content>>, at: u64) -> Result<(), NoMemory>
    ensures begins { OnOk result (get nat_cmp ranges.new at ≡ Some (held_of (get nat_cmp ranges.old) at)) }
    ensures keeps { (begin : ℕ) → ContainsKey nat_cmp ranges.old begin → ContainsKey nat_cmp ranges.new begin }
    ensures same { (lbn : ℕ) → held_of (get nat_cmp ranges.new) lbn ≡ held_of (get nat_cmp ranges.old) lbn }
{
    let held = held_at(ranges, at);
    ranges.insert(at, held)?;
    Ok(())
}

/// Removes all ranges that begin behind the first sector and before the end.
pub fn clear_between(ranges: &mut BTreeMap<u64, Option<Content>>, first: u64, end: u64)
    requires { first < end }
    ensures inside { (begin : ℕ) → first < begin → begin < end → get nat_cmp ranges.new begin ≡ None }
    ensures below { (begin : ℕ) → begin ≤ first → get nat_cmp ranges.new begin ≡ get nat_cmp ranges.old begin }
    ensures above { (begin : ℕ) → end ≤ begin → get nat_cmp ranges.new begin ≡ get nat_cmp ranges.old begin }
{
    let mut begin = next_begin(ranges, first, end);
    while begin < end {
        ranges.remove(&begin);
        begin = next_begin(ranges, begin, end);
    }
}

/// Gives all sectors from the first on, before the end, a content or none. Out of memory, no
/// content has changed.
pub fn write(
    ranges: &mut BTreeMap<u64, Option<Content>>,
    first: u64,
    end: u64,
    held: Option<Content>,
) -> Result<(), NoMemory>
    requires { first < end }
    ensures inside { OnOk result ((lbn : ℕ) → first ≤ lbn → lbn < end → held_of (get nat_cmp ranges.new) lbn ≡ held) }
    ensures before { OnOk result ((lbn : ℕ) → lbn < first → held_of (get nat_cmp ranges.new) lbn ≡ held_of (get nat_cmp ranges.old) lbn) }
    ensures after { OnOk result ((lbn : ℕ) → end ≤ lbn → held_of (get nat_cmp ranges.new) lbn ≡ held_of (get nat_cmp ranges.old) lbn) }
    ensures err { OnErr result ((lbn : ℕ) → held_of (get nat_cmp ranges.new) lbn ≡ held_of (get nat_cmp ranges.old) lbn) }
{
    cut(ranges, end)?;
    ranges.insert(first, held)?;
    clear_between(ranges, first, end);
    Ok(())
}

/// Gives all sectors from the first on, before the end, a content. Ranges begin at both already, so
/// this needs no memory.
#[tactic(auto, using(crate::proofs::Held::assigned_before))]
pub fn assign(ranges: &mut BTreeMap<u64, Option<Content>>, first: u64, end: u64, content: Content)
    requires begins { ContainsKey nat_cmp ranges.old first }
    requires ends { ContainsKey nat_cmp ranges.old end }
    ensures inside { (lbn : ℕ) → first ≤ lbn → lbn < end → held_of (get nat_cmp ranges.new) lbn ≡ Some content }
    ensures before { (lbn : ℕ) → lbn < first → held_of (get nat_cmp ranges.new) lbn ≡ held_of (get nat_cmp ranges.old) lbn }
    ensures after { (lbn : ℕ) → end ≤ lbn → held_of (get nat_cmp ranges.new) lbn ≡ held_of (get nat_cmp ranges.old) lbn }
    ensures keeps { (begin : ℕ) → ContainsKey nat_cmp ranges.old begin → ContainsKey nat_cmp ranges.new begin }
{
    let mut begin = first;
    while begin < end {
        change(ranges, begin, content);
        begin = next_begin(ranges, begin, end);
    }
}

// Changes the content of the range that begins at a sector, if one does.
fn change(ranges: &mut BTreeMap<u64, Option<Content>>, at: u64, content: Content)
    ensures here { ContainsKey nat_cmp ranges.old at → get nat_cmp ranges.new at ≡ Some (Some content) }
    ensures none { get nat_cmp ranges.old at ≡ None → get nat_cmp ranges.new at ≡ None }
    ensures others { (begin : ℕ) → begin ≢ at → get nat_cmp ranges.new begin ≡ get nat_cmp ranges.old begin }
{
    if let Some(held) = ranges.get_mut(&at) {
        *held = Some(content);
    }
}
