// The changes that a run makes to the replacement of a lost disk.
ghost use Rattle.std.specs.Prelude.{◌≡◌, ℕ, ◌+◌, ◌≤◌, ◌^◌, ◌++◌, map, None, IfOk, OnOk};
ghost use Rattle.std.specs.List.{AllByRecursion, flat_map};
ghost use Rattle.fb_store.specs.Runs.{sectors_of, IsInRange};
ghost use Rattle.fb_store.specs.Sparse.{after_taking};
ghost use Rattle.fb_mirror.specs.Changes.{changes_of};
ghost use Rattle.fb_mirror.specs.Replacement.{deliveries_in, events, held_after, IsWithin, writes_in};

use fb_rows::{BackRow, BackRows, ForeRow, ForeRows, Run};
use fb_store::{Content, ContentRun, Contents, writer_of};
use fb_units::{NoMemory, Ns};
use std::alloc::Global;

// A run of sectors that gets its content at an instant.
#[derive(Clone, Copy)]
pub struct Change {
    // The instant, in nanoseconds.
    pub instant: Ns,
    // The sectors and their content.
    pub run: ContentRun,
}

// What the sectors of the replacement get, in the order in which it takes effect, if all of them lie
// below 10^12.
pub fn contents_in_order(alloc: Global, run: &Run) -> Result<Contents, NoMemory>
    requires { AllByRecursion (IsWithin (10 ^ 12)) (events run.now) }
    ensures held { IfOk result (λ contents. (lbn : ℕ) → after_taking (sectors_of contents) lbn None ≡ held_after (events run.now) lbn) }
    ensures within { IfOk result (λ contents. (end : ℕ) → AllByRecursion (IsWithin end) (events run.now)
        → AllByRecursion (λ run. run.first + run.count ≤ end) contents) }
{
    let mut changes = changes(alloc, run)?;
    changes.sort_by_key(|change| change.instant)?;
    contents_of(alloc, &changes)
}

// The contents of the changes, in their order, if their sectors lie below 10^12.
fn contents_of(alloc: Global, changes: &[Change]) -> Result<Contents, NoMemory>
    requires { AllByRecursion (λ change. IsInRange change.run) changes.now }
    ensures { IfOk result (λ contents. contents ≡ map (λ change. change.run) changes.now) }
{
    let mut contents = Contents::new(alloc);
    for change in changes {
        contents.push(change.run)?;
    }
    Ok(contents)
}

// The changes of a run: those of the writes, and then those of the deliveries.
fn changes(alloc: Global, run: &Run) -> Result<Vec<Change>, NoMemory>
    ensures { IfOk result (λ changes. changes.items ≡ changes_of (events run.now)) }
{
    let mut changes = Vec::new(alloc);
    push_writes(&mut changes, &run.fore)?;
    push_deliveries(&mut changes, &run.back)?;
    Ok(changes)
}

fn push_writes(changes: &mut Vec<Change>, rows: &ForeRows) -> Result<(), NoMemory>
    ensures { OnOk result (changes.new.items ≡ changes.old.items ++ changes_of (flat_map writes_in rows.now)) }
{
    for i in 0..rows.len() {
        push_write(changes, rows.get(i))?;
    }
    Ok(())
}

// Adds the change of a row, if it is a write.
fn push_write(changes: &mut Vec<Change>, row: &ForeRow) -> Result<(), NoMemory>
    ensures { OnOk result (changes.new.items ≡ changes.old.items ++ changes_of (writes_in row.now)) }
{
    if row.request.write {
        let run = ContentRun {
            first: row.request.lbn,
            count: u64::from(row.request.count),
            content: Content::Filled(writer_of(row.request.name)),
        };
        changes.push(Change {
            instant: row.finish,
            run,
        })?;
    }
    Ok(())
}

fn push_deliveries(changes: &mut Vec<Change>, rows: &BackRows) -> Result<(), NoMemory>
    ensures { OnOk result (changes.new.items ≡ changes.old.items ++ changes_of (flat_map deliveries_in rows.now)) }
{
    for i in 0..rows.len() {
        push_delivery(changes, rows.get(i))?;
    }
    Ok(())
}

// Adds the changes of a row, if it is a delivery.
fn push_delivery(changes: &mut Vec<Change>, row: &BackRow) -> Result<(), NoMemory>
    ensures { OnOk result (changes.new.items ≡ changes.old.items ++ changes_of (deliveries_in row.now)) }
{
    match row {
        BackRow::Got(row) => push_contents(changes, row.end, &row.content),
        _ => Ok(()),
    }
}

// Adds that contents take effect at an instant.
fn push_contents(
    changes: &mut Vec<Change>,
    instant: Ns,
    contents: &Contents,
) -> Result<(), NoMemory>
    ensures { OnOk result (changes.new.items ≡ changes.old.items ++ map (λ run. record { instant = instant; run = run }) contents.now) }
{
    for i in 0..contents.len() {
        let run = contents.get(i);
        changes.push(Change { instant, run })?;
    }
    Ok(())
}
