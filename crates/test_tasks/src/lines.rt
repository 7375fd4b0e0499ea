// Rows of the background as lines, with the sectors of images and segments in place of their digests.
use fb_rows::{BackRow, BackRows, DeliveryRow, How, TaskRow};
use fb_script::{Calls, Kind};
use fb_store::{Content, ContentRun, Contents};
use std::alloc::{AllocError, Global};

/// The lines of these rows.
pub fn lines(alloc: Global, calls: &Calls, rows: &BackRows) -> Result<String, AllocError> {
    let mut text = String::new(alloc);
    for i in 0..rows.len() {
        let line = line(alloc, calls, rows.get(i))?;
        text.push_str(line.as_str())?;
        text.push_str("\n")?;
    }
    Ok(text)
}

// A row's line.
fn line(alloc: Global, calls: &Calls, row: &BackRow) -> Result<String, AllocError> {
    match row {
        BackRow::Got(row) => got_line(alloc, calls, row),
        BackRow::Bad(row) => {
            let task = name(calls, row.task);
            let lbn = row.lbn;
            format!(in alloc; "bad {task} {lbn}")
        }
        BackRow::Seal(row) => {
            let task = name(calls, row.task);
            let instant = row.instant;
            let count = count(&row.content);
            let content = sectors(alloc, &row.content)?;
            format!(in alloc; "seal {task} {instant} {count} {content}")
        }
        BackRow::Segment(row) => {
            let task = name(calls, row.task);
            let segment = row.segment;
            let instant = row.instant;
            let live = row.live;
            let content = sectors(alloc, &row.content)?;
            format!(in alloc; "seg {task} {segment} {instant} {live} {content}")
        }
        BackRow::Complete(row) => {
            let task = name(calls, row.task);
            let instant = row.instant;
            format!(in alloc; "done {task} {instant}")
        }
        BackRow::Task(row) => task_line(alloc, calls, row),
        _ => String::from_str(alloc, "?"),
    }
}

// The line of a delivery.
fn got_line(alloc: Global, calls: &Calls, row: &DeliveryRow) -> Result<String, AllocError> {
    let task = name(calls, row.block.task);
    let number = row.block.index;
    let lbn = row.block.lbn;
    let count = row.block.count;
    let begin = row.begin;
    let end = row.end;
    let how = way(row.how);
    let bad = row.bad;
    let content = sectors(alloc, &row.content)?;
    format!(in alloc; "got {task} {number} {lbn} {count} {begin} {end} {how} {bad} {content}")
}

// The line of how a task stands.
fn task_line(alloc: Global, calls: &Calls, row: &TaskRow) -> Result<String, AllocError> {
    let task = name(calls, row.task);
    let kind = kind(row.kind);
    let registered = row.registered;
    let delivered = row.delivered;
    let aborted = row.aborted;
    let left = registered.wrapping_sub(delivered).wrapping_sub(aborted);
    let end = if row.complete { "complete" } else { "open" };
    format!(in alloc; "task {task} {kind} {registered} {delivered} {aborted} {left} {end}")
}

// The first letter of a task's name.
fn name(calls: &Calls, task: u32) -> char {
    let index = task as usize;
    if index < calls.names.len() && calls.names.get(index).len() > 0 {
        char::from(*calls.names.get(index).get(0))
    } else {
        '?'
    }
}

// How a block was delivered.
fn way(how: How) -> &'static str {
    match how {
        How::Gap => "gap",
        How::Idle => "idle",
        How::Ride => "ride",
    }
}

// What a task is for.
fn kind(kind: Kind) -> &'static str {
    match kind {
        Kind::Plain => "plain",
        Kind::Backup => "backup",
        Kind::Scrub => "scrub",
        Kind::Clean => "clean",
    }
}

// How many sectors there are.
fn count(contents: &Contents) -> u64 {
    let mut count = 0u64;
    for i in 0..contents.len() {
        count = count.wrapping_add(contents.get(i).count);
    }
    count
}

// Each sector with its writer, but for those that nobody wrote, or that can't be read.
fn sectors(alloc: Global, contents: &Contents) -> Result<String, AllocError> {
    if contents.len() == 0 {
        return String::from_str(alloc, "-");
    }
    let mut text = String::new(alloc);
    for i in 0..contents.len() {
        push_run(alloc, &mut text, &contents.get(i))?;
    }
    Ok(text)
}

// Adds the sectors of a run.
fn push_run(alloc: Global, text: &mut String, run: &ContentRun) -> Result<(), AllocError> {
    for i in 0..run.count {
        let lbn = run.first.wrapping_add(i);
        let sector = match run.content {
            Content::Filled(0) => format!(in alloc; "[{lbn}]")?,
            Content::Filled(writer) => format!(in alloc; "[{writer}:{lbn}]")?,
            Content::Unreadable => format!(in alloc; "[bad {lbn}]")?,
        };
        text.push_str(sector.as_str())?;
    }
    Ok(())
}
