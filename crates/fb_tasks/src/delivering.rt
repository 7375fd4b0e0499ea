// What a delivery leaves in a session, and its findings.
ghost use Rattle.std.specs.Prelude.{◌≡◌, ◌≢◌, ℕ, List, [], ◌∷◌, ◌++◌, ◌+◌, ◌≤◌, ◌^◌, None, map, true, IfOk, OnOk, OnErr, if◌then◌else◌};
ghost use Rattle.std.specs.List.{range_with_len};
ghost use Rattle.fb_script.specs.Sessions.{is_backup, is_clean};
ghost use Rattle.fb_store.specs.declared.content.Content.{Content};
ghost use Rattle.fb_store.specs.Sparse.{Gives};
ghost use Rattle.fb_geometry.specs.Shape.{Shape};
ghost use Rattle.fb_wanted.specs.declared.block.Entry.{Entry};
ghost use Rattle.fb_rows.specs.declared.back.BackRow.TheVariants.{Bad as BackBad, Got as BackGot};
ghost use Rattle.fb_model.specs.History.{Past, tested, delivered};
ghost use Rattle.fb_model.specs.Completion.{view};
ghost use Rattle.fb_model.specs.Images.{bad_sectors, is_scrub};
ghost use Rattle.fb_tasks.specs.Keeping.{HasTaken};
ghost use Rattle.fb_tasks.specs.Leaving.{HasBegun};
ghost use Rattle.fb_tasks.specs.Taken.{rows_after};
ghost use Rattle.fb_tasks.specs.Standing.{Stands, IsAtWork};
ghost use Rattle.fb_tasks.specs.Telling.{Delivers};

use crate::session::Session;
use fb_rows::{BackRow, BackRows, BadRow, DeliveryRow};
use fb_script::Kind;
use fb_store::{Content, Contents};
use fb_units::NoMemory;
use fb_wanted::{Block, Wanted};
use std::alloc::Global;

impl Session {
    /// A block of the task was delivered: keeps what it holds, adds its row, then its findings and
    /// the rows of its test.
    pub fn take_delivery(
        &mut self,
        alloc: Global,
        wanted: &Wanted,
        got: DeliveryRow,
        rows: &mut BackRows,
    ) -> Result<(), NoMemory>
        requires { (disk : Shape) × (past : Past) × (sessions : List Session) × (held : List Entry)
            × Delivers disk past sessions held got self.old wanted.now }
        ensures delivered { OnOk result ((disk : Shape) (past : Past) (sessions : List Session) (held : List Entry)
            → Delivers disk past sessions held got self.old wanted.now
            → (Stands (view (tested (rows_after past got) ∷ delivered got ∷ past) got.block.task) self.new)
            × (IsAtWork (view (tested (rows_after past got) ∷ delivered got ∷ past) got.block.task).work self.new)
            × (rows.new ≡ rows.old ++ BackGot got ∷ rows_after past got)) }
        ensures err_rows { OnErr result ((disk : Shape) (past : Past) (sessions : List Session) (held : List Entry)
            → Delivers disk past sessions held got self.old wanted.now
            → HasBegun rows.old (BackGot got ∷ rows_after past got) rows.new) }
        ensures touched { OnOk result (self.new.touched ≡ self.old.touched) }
        ensures chunks { self.new.chunks ≡ self.old.chunks }
    {
        let task = got.block.task;
        let end = got.end;
        self.keep(got.block, &got.content)?;
        let findings = self.findings(alloc, &got)?;
        rows.push(BackRow::Got(got))?;
        push_findings(rows, task, &findings)?;
        self.test_segment(alloc, wanted, task, end, rows)?;
        self.test(alloc, wanted, task, end, rows)
    }

    // Keeps what a delivered block holds, where the session's rows will give it.
    fn keep(&mut self, block: Block, content: &Contents) -> Result<(), NoMemory>
        requires covers { (content_at : ℕ → Content) × Gives content.now content_at block.lbn block.count }
        requires chosen { is_clean self.old.kind ≡ true → self.old.log.unfinished ≢ None }
        ensures taken { OnOk result ((content_at : ℕ → Content) → Gives content.now content_at block.lbn block.count
            → HasTaken content_at block self.old self.new) }
        ensures chunks { self.new.chunks ≡ self.old.chunks }
    {
        match self.kind {
            Kind::Backup => self.image.take(block, content),
            Kind::Clean => self.log.take(block, content),
            Kind::Plain | Kind::Scrub => Ok(()),
        }
    }

    // The sectors of a scrub's delivery that can't be read, ascending.
    fn findings(&self, alloc: Global, got: &DeliveryRow) -> Result<Vec<u64>, NoMemory>
        ensures { IfOk result (λ lbns. lbns.items ≡ if is_scrub self.now.kind then bad_sectors got.now.content else []) }
    {
        match self.kind {
            Kind::Scrub => bad_sectors(alloc, &got.content),
            Kind::Plain | Kind::Backup | Kind::Clean => Ok(Vec::new(alloc)),
        }
    }
}

// The sectors that can't be read.
fn bad_sectors(alloc: Global, content: &Contents) -> Result<Vec<u64>, NoMemory>
    ensures { IfOk result (λ lbns. lbns.items ≡ bad_sectors content.now) }
{
    let mut lbns = Vec::new(alloc);
    for i in 0..content.len() {
        let run = content.get(i);
        match run.content {
            Content::Unreadable => push_range(&mut lbns, run.first, run.count)?,
            Content::Filled(_) => {}
        }
    }
    Ok(lbns)
}

// Adds the sectors of a run.
#[tactic(auto, using(crate::proofs::RowsOf::range_pushed))]
fn push_range(lbns: &mut Vec<u64>, first: u64, count: u64) -> Result<(), NoMemory>
    requires { first + count ≤ 10 ^ 12 }
    ensures { OnOk result (lbns.new.items ≡ lbns.old.items ++ range_with_len first count) }
{
    for lbn in first..first + count {
        lbns.push(lbn)?;
    }
    Ok(())
}

// Adds a finding's row for each sector.
fn push_findings(rows: &mut BackRows, task: u32, lbns: &[u64]) -> Result<(), NoMemory>
    ensures ok { OnOk result (rows.new ≡ rows.old ++ map (λ lbn. BackBad (record { task = task; lbn = lbn })) lbns.now) }
    ensures err { OnErr result (HasBegun rows.old (map (λ lbn. BackBad (record { task = task; lbn = lbn })) lbns.now) rows.new) }
{
    for lbn in lbns {
        rows.push(BackRow::Bad(BadRow { task, lbn: *lbn }))?;
    }
    Ok(())
}
