// The text of a copy.
ghost use Rattle.std.specs.Prelude.{◌≡◌, ℕ, ◌<◌, ◌≤◌, ◌^◌, ◌++◌, length, decimal, slice_get, Some, IfOk, OnOk};
ghost use Rattle.fb_mirror.specs.Copy.{copy_lines, end_line, run_line, seal_line, writer_text};

use crate::Rebuilt;
use fb_store::{Content, ContentRun};
use fb_units::{NoMemory, Ns};
use itoa::Buffer;
use std::alloc::Global;

/// The number of lines in the text of a copy.
pub fn copy_pieces(copy: &Rebuilt) -> u64
    requires { length copy.now.content ≤ 10 ^ 12 }
    ensures { (count : ℕ) → result ≡ length (copy_lines copy.now count) }
{
    copy.content.len() as u64 + 3
}

/// The k-th line, counted from 0, in the text of a copy of a disk of `count` sectors, with
/// its line feed. The only error is `NoMemory`.
pub fn copy_piece(alloc: Global, copy: &Rebuilt, count: u64, k: u64) -> Result<Vec<u8>, NoMemory>
    requires line { k < length (copy_lines copy.now count) }
    requires covered { copy.now.covered ≤ count }
    ensures { IfOk result (λ line. slice_get (copy_lines copy.now count) k ≡ Some line.items) }
{
    if k == 0 {
        return Ok(Vec::from_slice(alloc, b"freeblock copy 1\n")?);
    }
    if k == 1 {
        return seal_line(alloc, copy.sealed);
    }
    let run = (k - 2) as usize;
    if run < copy.content.len() {
        run_line(alloc, &copy.content.get(run))
    } else {
        end_line(alloc, copy.covered, count)
    }
}

fn seal_line(alloc: Global, sealed: Option<Ns>) -> Result<Vec<u8>, NoMemory>
    ensures { IfOk result (λ line. line.items ≡ seal_line sealed) }
{
    match sealed {
        Some(instant) => {
            let mut line = Vec::from_slice(alloc, b"sealed ")?;
            push_number(&mut line, instant)?;
            line.push(b'\n')?;
            Ok(line)
        }
        None => Ok(Vec::from_slice(alloc, b"open\n")?),
    }
}

fn run_line(alloc: Global, run: &ContentRun) -> Result<Vec<u8>, NoMemory>
    ensures { IfOk result (λ line. line.items ≡ run_line run.now) }
{
    let mut line = Vec::from_slice(alloc, b"run ")?;
    push_number(&mut line, run.first)?;
    line.push(b' ')?;
    push_number(&mut line, run.count)?;
    line.push(b' ')?;
    push_writer(&mut line, run.content)?;
    line.push(b'\n')?;
    Ok(line)
}

fn end_line(alloc: Global, covered: u64, count: u64) -> Result<Vec<u8>, NoMemory>
    requires { covered ≤ count }
    ensures { IfOk result (λ line. line.items ≡ end_line covered count) }
{
    let mut line = Vec::from_slice(alloc, b"end ")?;
    push_number(&mut line, covered)?;
    line.push(b' ')?;
    push_number(&mut line, count - covered)?;
    line.push(b'\n')?;
    Ok(line)
}

// Adds the writer of a content, or that it cannot be read.
fn push_writer(line: &mut Vec<u8>, content: Content) -> Result<(), NoMemory>
    ensures { OnOk result (line.new.items ≡ line.old.items ++ writer_text content) }
{
    match content {
        Content::Filled(writer) => push_number(line, writer),
        Content::Unreadable => Ok(line.extend_from_slice(b"bad")?),
    }
}

// Adds a number in decimal digits.
fn push_number(line: &mut Vec<u8>, number: u64) -> Result<(), NoMemory>
    ensures { OnOk result (line.new.items ≡ line.old.items ++ decimal number) }
{
    let mut buffer = Buffer::new();
    line.extend_from_slice(buffer.format(number).as_bytes())?;
    Ok(())
}
