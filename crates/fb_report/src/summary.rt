// The summary of a run.
ghost use Rattle.std.specs.Prelude.{◌≡◌, [], ◌≤◌, ◌-◌, ◌++◌, cond, max, map, length, decimal, OnOk, IfOk};
ghost use Rattle.std.specs.List.{count_by, filter_map, fold, sum_by};
ghost use Rattle.fb_report.specs.Lines.{line_of};
ghost use Rattle.fb_report.specs.Summary.{delivery_in, gap_in, summary_text, task_in};

use crate::line::Line;
use fb_rows::{BackRow, BackRows, ForeRows, Run};
use fb_units::{NoMemory, Ns};
use std::alloc::Global;

/// The summary of a run: ten lines, each of which begins with the name of its figures.
///
/// There are fewer than 2^63 rows, and each figure of a row is below 2^64, so that sums fit 128
/// bits. The only error is out of memory.
pub fn summary_text(alloc: Global, run: &Run) -> Result<Vec<u8>, NoMemory>
    ensures { IfOk result (λ text. text.items ≡ summary_text run.now) }
{
    let mut text = Vec::new(alloc);
    push_lines(alloc, &mut text, run)?;
    Ok(text)
}

// Adds the lines of the summary to an empty text.
fn push_lines(alloc: Global, text: &mut Vec<u8>, run: &Run) -> Result<(), NoMemory>
    requires { text.old.items ≡ [] }
    ensures { OnOk result (text.new.items ≡ summary_text run.now) }
{
    let served = Served::of(&run.fore);
    let gaps = gaps(&run.back);
    let delivered = Delivered::of(&run.back);
    let tasks = Tasks::of(&run.back);
    push_line(alloc, text, b"requests", &[run.fore.len() as u128])?;
    push_line(alloc, text, b"passed", &[run.passed_over as u128])?;
    push_line(alloc, text, b"sectors", &[served.sectors])?;
    push_line(alloc, text, b"finish", &[served.finish as u128])?;
    push_line(alloc, text, b"response", &[served.response])?;
    push_line(alloc, text, b"gaps", &[gaps])?;
    push_line(
        alloc,
        text,
        b"delivered",
        &[delivered.blocks, delivered.sectors],
    )?;
    push_line(alloc, text, b"bad", &[delivered.bad])?;
    push_line(alloc, text, b"complete", &[tasks.complete, tasks.all])?;
    push_line(alloc, text, b"end", &[run.end as u128])?;
    Ok(())
}

// Adds a line of figures under their name.
fn push_line(
    alloc: Global,
    text: &mut Vec<u8>,
    name: &[u8],
    figures: &[u128],
) -> Result<(), NoMemory>
    ensures { OnOk result (text.new.items ≡ text.old.items ++ line_of name.now (map decimal figures.now)) }
{
    let mut line = Line::new(alloc, name)?;
    for figure in figures {
        line.sum(*figure)?;
    }
    let bytes = line.end()?;
    text.extend_from_slice(bytes.as_slice())?;
    Ok(())
}

// The sums over the rows of the foreground.
#[derive(Clone, Copy)]
struct Served {
    sectors: u128,
    finish: Ns,
    response: u128,
}

impl Served {
    #[tactic(auto, using(crate::proofs::Sums::ends, std::proofs::lemmas::List::drop_all))]
    fn of(rows: &ForeRows) -> Served
        ensures sectors { result.sectors ≡ sum_by (λ row. row.request.count) rows.now }
        ensures finish { result.finish ≡ fold max 0 (map (λ row. row.finish) rows.now) }
        ensures response { result.response ≡ sum_by (λ row. row.finish - row.request.arrival) rows.now }
    {
        let mut sectors = 0;
        let mut finish = 0;
        let mut response = 0;
        for i in 0..rows.len() {
            let row = rows.get(i);
            sectors += row.request.count as u128;
            finish = finish.max(row.finish);
            response += row.finish.saturating_sub(row.request.arrival) as u128;
        }
        Served {
            sectors,
            finish,
            response,
        }
    }
}

// How many gaps there were.
#[tactic(auto, using(crate::proofs::Sums::none_left))]
fn gaps(rows: &BackRows) -> u128
    ensures { result ≡ length (filter_map gap_in rows.now) }
{
    let mut gaps = 0;
    for i in 0..rows.len() {
        if let BackRow::Gap(_) = rows.get(i) {
            gaps += 1;
        }
    }
    gaps
}

// The sums over the deliveries.
#[derive(Clone, Copy)]
struct Delivered {
    blocks: u128,
    sectors: u128,
    bad: u128,
}

impl Delivered {
    #[tactic(auto, using(crate::proofs::Sums::none_left, crate::proofs::Sums::ends))]
    fn of(rows: &BackRows) -> Delivered
        ensures blocks { result.blocks ≡ length (filter_map delivery_in rows.now) }
        ensures sectors { result.sectors ≡ sum_by (λ row. row.block.count) (filter_map delivery_in rows.now) }
        ensures bad { result.bad ≡ sum_by (λ row. row.bad) (filter_map delivery_in rows.now) }
    {
        let mut blocks = 0;
        let mut sectors = 0;
        let mut bad = 0;
        for i in 0..rows.len() {
            if let BackRow::Got(row) = rows.get(i) {
                blocks += 1;
                sectors += row.block.count as u128;
                bad += row.bad as u128;
            }
        }
        Delivered {
            blocks,
            sectors,
            bad,
        }
    }
}

// How many tasks are complete, and how many there are.
#[derive(Clone, Copy)]
struct Tasks {
    complete: u128,
    all: u128,
}

impl Tasks {
    #[tactic(auto, using(crate::proofs::Sums::ends, crate::proofs::Sums::none_left))]
    fn of(rows: &BackRows) -> Tasks
        ensures complete { result.complete ≡ count_by (λ row. row.complete) (filter_map task_in rows.now) }
        ensures all { result.all ≡ length (filter_map task_in rows.now) }
    {
        let mut complete = 0;
        let mut all = 0;
        for i in 0..rows.len() {
            if let BackRow::Task(row) = rows.get(i) {
                complete += one_if(row.complete);
                all += 1;
            }
        }
        Tasks { complete, all }
    }
}

fn one_if(complete: bool) -> u128
    ensures value { result ≡ cond complete 1 0 }
    ensures few { result ≤ 1 }
{
    if complete { 1 } else { 0 }
}
