// The text of an array, and that of a copy, line by line.
ghost use Rattle.std.specs.Prelude.{◌≡◌, ℕ, ◌+◌, ◌*◌, ◌%◌, ◌^◌, ◌<◌, ◌≤◌, length, slice_get, Some, IfNone, IfOk, IfSome};
ghost use Rattle.std.specs.List.{AllByRecursion};
ghost use Rattle.fb_rows.specs.declared.run.Run.{Run};
ghost use Rattle.fb_report.specs.declared.bytes.Bytes.{Bytes};
ghost use Rattle.fb_texts.specs.Sections.{CanTellFore, array_first, array_last, device_line, section, sections};

use crate::lines::{ForeLines, Lines};
use crate::words::{push_number, push_words};
use fb_mirror::{Rebuilt, copy_piece, copy_pieces};
use fb_report::{Bytes, fore_pieces};
use fb_rows::Run;
use fb_units::{Items, NoMemory};
use std::alloc::Global;

/// The runs of the devices of an array, by device.
pub type Runs = Items<Run>;

/// The lines of the text of an array: behind the first line a section for each device.
#[derive(Clone, Copy)]
pub struct ArrayLines<'a> {
    /// The runs of the devices, by device; at most 16.
    pub runs: &'a Runs,
    /// The size of a sector in bytes, a multiple of 16.
    pub sector_bytes: u32,
    /// How the bytes of reads are shown.
    pub bytes: Bytes,
}

impl Lines for ArrayLines<'_> {
    ghost use Rattle.std.specs.Prelude.{◌≡◌, ◌%◌, ◌≤◌, length};
    ghost use Rattle.std.specs.List.{AllByRecursion};
    ghost use Rattle.fb_report.specs.Grammar.{fore_grammar};
    ghost use Rattle.fb_texts.specs.Sections.{CanTellFore, array_lines};

    ghost lines = { λ t. array_lines t.sector_bytes t.bytes t.runs.now };

    ghost can_be_told = { λ t. (t.sector_bytes % 16 ≡ 0) × (length t.runs.now ≤ 16) × AllByRecursion CanTellFore t.runs.now };

    ghost grammar = { λ t. fore_grammar };

    // No reader reads this text.
    ghost can_be_read = { λ t. ⊥ };

    fn count(&self) -> u64 {
        section_lines(self.runs) + 2
    }

    fn line(&self, alloc: Global, index: u64) -> Result<Vec<u8>, NoMemory> {
        if index == 0 {
            return first_line(alloc);
        }
        match section_of(self.runs, index - 1) {
            Some((device, index)) => self.section_line(alloc, device, index),
            None => last_line(alloc, self.runs.len()),
        }
    }
}

impl ArrayLines<'_> {
    // The line at this index, counted from 0, in the section of a device.
    fn section_line(&self, alloc: Global, device: usize, index: u64) -> Result<Vec<u8>, NoMemory>
        requires size { self.now.sector_bytes % 16 ≡ 0 }
        requires told { AllByRecursion CanTellFore self.now.runs.now }
        requires device { device < length self.now.runs.now }
        requires inside { (run : Run) → slice_get self.now.runs.now device ≡ Some run
            → index < length (section self.now.sector_bytes self.now.bytes device run) }
        ensures { IfOk result (λ line. (run : Run) → slice_get self.now.runs.now device ≡ Some run
            → slice_get (section self.now.sector_bytes self.now.bytes device run) index ≡ Some line.items) }
    {
        if index == 0 {
            return device_line(alloc, device);
        }
        let lines = ForeLines {
            run: self.runs.get(device),
            sector_bytes: self.sector_bytes,
            bytes: self.bytes,
        };
        lines.line(alloc, index - 1)
    }
}

// The number of lines of all sections.
fn section_lines(runs: &Runs) -> u64
    requires few { length runs.now ≤ 16 }
    requires told { AllByRecursion CanTellFore runs.now }
    ensures lines { (size : ℕ) (bytes : Bytes) → result ≡ length (sections size bytes 0 runs.now) }
    ensures few { result ≤ 16 * (10 ^ 6 + 3) }
{
    let mut lines = 0;
    for device in 0..runs.len() {
        lines += fore_pieces(runs.get(device)) + 1;
    }
    lines
}

// The device whose section has the line with this index among the lines of all sections, and the
// index of the line in that section.
fn section_of(runs: &Runs, index: u64) -> Option<(usize, u64)>
    requires told { AllByRecursion CanTellFore runs.now }
    ensures device { IfSome result (λ at. at.0 < length runs.now) }
    ensures inside { IfSome result
        (λ at. (size : ℕ) (bytes : Bytes) (run : Run) → slice_get runs.now at.0 ≡ Some run
        → at.1 < length (section size bytes at.0 run)) }
    ensures same { IfSome result (λ at. (size : ℕ) (bytes : Bytes) (run : Run) → slice_get runs.now at.0 ≡ Some run
        → slice_get (sections size bytes 0 runs.now) index ≡ slice_get (section size bytes at.0 run) at.1) }
    ensures behind { IfNone result ((size : ℕ) (bytes : Bytes) → length (sections size bytes 0 runs.now) ≤ index) }
{
    let mut rest = index;
    for device in 0..runs.len() {
        let lines = fore_pieces(runs.get(device)) + 1;
        if rest < lines {
            return Some((device, rest));
        }
        rest -= lines;
    }
    None
}

// The first line of an array's text.
fn first_line(alloc: Global) -> Result<Vec<u8>, NoMemory>
    ensures { IfOk result (λ line. line.items ≡ array_first) }
{
    let mut line = Vec::new(alloc);
    push_words(&mut line, "freeblock array 1\n")?;
    Ok(line)
}

// The line over the section of a device.
fn device_line(alloc: Global, device: usize) -> Result<Vec<u8>, NoMemory>
    ensures { IfOk result (λ line. line.items ≡ device_line device) }
{
    let mut line = Vec::new(alloc);
    push_words(&mut line, "device ")?;
    push_number(&mut line, device as u64)?;
    line.push(b'\n')?;
    Ok(line)
}

// The last line of an array's text, which tells the number of devices.
fn last_line(alloc: Global, devices: usize) -> Result<Vec<u8>, NoMemory>
    ensures { IfOk result (λ line. line.items ≡ array_last devices) }
{
    let mut line = Vec::new(alloc);
    push_words(&mut line, "end ")?;
    push_number(&mut line, devices as u64)?;
    line.push(b'\n')?;
    Ok(line)
}

/// The lines of the text of a replacement.
#[derive(Clone, Copy)]
pub struct CopyLines<'a> {
    /// What the replacement holds.
    pub copy: &'a Rebuilt,
    /// The number of sectors of its disk.
    pub sectors: u64,
}

impl Lines for CopyLines<'_> {
    ghost use Rattle.std.specs.Prelude.{◌≤◌, ◌^◌, length};
    ghost use Rattle.fb_report.specs.Grammar.{fore_grammar};
    ghost use Rattle.fb_mirror.specs.Copy.{copy_lines};

    ghost lines = { λ t. copy_lines t.copy.now t.sectors };

    ghost can_be_told = { λ t. (t.copy.now.covered ≤ t.sectors) × (length t.copy.now.content ≤ 10 ^ 12) };

    ghost grammar = { λ t. fore_grammar };

    // No reader reads this text.
    ghost can_be_read = { λ t. ⊥ };

    fn count(&self) -> u64 {
        copy_pieces(self.copy)
    }

    fn line(&self, alloc: Global, index: u64) -> Result<Vec<u8>, NoMemory> {
        copy_piece(alloc, self.copy, self.sectors, index)
    }
}
