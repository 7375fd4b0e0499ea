// The files that commands of the tests find, and how the commands end.
ghost use Rattle.std.specs.Prelude.{◌<◌};
ghost use Rattle.fb_desk.specs.View.{IsUnused};
ghost use Rattle.fb_desk.specs.Memory.{memory_view};

use fb_desk::{MemoryDesk, Output};
use fb_top::{Outcome, run_command, status};
use fb_units::NoMemory;
use std::alloc::Global;

// All functions but the one that makes a desk borrow it, and none has a `?` while it holds one: to
// let go of a desk takes long to prove, at each of a function's ends.

const ROOM: usize = 10_000_000;

const BEFORE_ZONE: &str =
    "version = 1\nrotation_ns = 1200\nsector_bytes = 16\nheads = 2\nhead_switch_ns = 200\nwrite_settle_ns = 50\nseek = [[1, 300], [3, 500]]\n";

const ZONE: &str = "[[zone]]\nfirst = 0\nlast = 3\n";

/// The line of a zone with which the small disk has 96 sectors.
pub const TWELVE: &str = "sectors = 12\n";

/// A disk of 10,000 rotations a minute with 16,739,688 sectors.
pub const LARGE: &str = "version = 1\n\
    rotation_ns = 6000000\n\
    sector_bytes = 512\n\
    heads = 6\n\
    head_switch_ns = 1000000\n\
    write_settle_ns = 300000\n\
    seek = [[1, 1200000], [100, 2500000], [1000, 5000000], [9999, 10500000]]\n\
    [[zone]]\n\
    first = 0\n\
    last = 3332\n\
    sectors = 334\n\
    track_skew = 56\n\
    cylinder_skew = 67\n\
    spares = 2\n\
    [[zone]]\n\
    first = 3333\n\
    last = 6665\n\
    sectors = 280\n\
    track_skew = 47\n\
    cylinder_skew = 56\n\
    spares = 2\n\
    [[zone]]\n\
    first = 6666\n\
    last = 9999\n\
    sectors = 229\n\
    track_skew = 39\n\
    cylinder_skew = 46\n\
    spares = 2\n";

/// The files that a command finds, and how the desk behaves.
#[derive(Clone, Copy)]
pub struct Scene<'a> {
    /// The parameter file `k`.
    pub params: &'a [u8],
    /// The trace `t`.
    pub trace: &'a [u8],
    /// The call script `c`.
    pub calls: &'a [u8],
    /// The puts file `u`.
    pub puts: &'a [u8],
    /// How many bytes a call of the desk moves at most.
    pub piece: usize,
    /// The number of the call that fails, from 1, or 0 where none does.
    pub failing: u64,
}

/// How a command ended, and what it wrote.
#[derive(Drop)]
pub struct Ending {
    /// The exit status.
    pub status: u8,
    /// The bytes of the foreground report, or of the summary.
    pub fore: Vec<u8>,
    /// The bytes of the background report.
    pub back: Vec<u8>,
    /// The bytes of the text of what was written in free gaps.
    pub spill: Vec<u8>,
    /// The bytes of the note.
    pub note: Vec<u8>,
    /// The bytes of the trace that a make writes.
    pub made_trace: Vec<u8>,
    /// The bytes of the call script that a make writes.
    pub made_calls: Vec<u8>,
    /// The bytes of the text of a replacement.
    pub copy: Vec<u8>,
}

impl Ending {
    /// Whether nothing was written but a note.
    pub fn is_silent(&self) -> bool {
        self.fore.is_empty()
            && self.back.is_empty()
            && self.spill.is_empty()
            && self.made_trace.is_empty()
            && self.made_calls.is_empty()
            && self.copy.is_empty()
    }
}

/// A small disk, with these lines before its zone and these in it.
pub fn disk(alloc: Global, before: &str, within: &str) -> Result<String, NoMemory> {
    let mut text = String::from_str(alloc, BEFORE_ZONE)?;
    text.push_str(before)?;
    text.push_str(ZONE)?;
    text.push_str(within)?;
    Ok(text)
}

/// These files, on a desk that moves many bytes a call and never fails.
pub fn spilling<'a>(params: &'a [u8], trace: &'a [u8], calls: &'a [u8], puts: &'a [u8]) -> Scene<'a>
    ensures { 0 < result.piece }
{
    Scene {
        params,
        trace,
        calls,
        puts,
        piece: 4096,
        failing: 0,
    }
}

/// The same with an empty puts file.
pub fn scripted<'a>(params: &'a [u8], trace: &'a [u8], calls: &'a [u8]) -> Scene<'a>
    ensures { 0 < result.piece }
{
    spilling(params, trace, calls, b"")
}

/// The same with an empty script too.
pub fn unscripted<'a>(params: &'a [u8], trace: &'a [u8]) -> Scene<'a>
    ensures { 0 < result.piece }
{
    scripted(params, trace, b"")
}

/// How a command with these words ends. The only error is out of memory.
pub fn end(alloc: Global, scene: &Scene, words: &str) -> Result<Ending, NoMemory>
    requires { 0 < scene.now.piece }
{
    let mut desk = MemoryDesk::new(alloc, scene.piece, scene.piece, ROOM)?;
    end_over(alloc, &mut desk, scene, words)
}

// How a command with these words ends on an empty desk.
fn end_over(
    alloc: Global,
    desk: &mut MemoryDesk,
    scene: &Scene,
    words: &str,
) -> Result<Ending, NoMemory>
    requires { IsUnused (memory_view desk.old) }
{
    fill(desk, scene)?;
    let words = split(alloc, words)?;
    let outcome = run_command(alloc, desk, words.as_slice());
    written(alloc, desk, status_of(outcome))
}

// Puts the files of a scene on a desk.
fn fill(desk: &mut MemoryDesk, scene: &Scene) -> Result<(), NoMemory>
    requires { IsUnused (memory_view desk.old) }
    ensures { IsUnused (memory_view desk.new) }
{
    hold_files(desk, scene)?;
    desk.fail(scene.failing)
}

// Puts the files of a scene on a desk, none of whose calls fails.
fn hold_files(desk: &mut MemoryDesk, scene: &Scene) -> Result<(), NoMemory>
    requires { IsUnused (memory_view desk.old) }
    ensures { IsUnused (memory_view desk.new) }
{
    desk.hold("k", scene.params)?;
    desk.hold("t", scene.trace)?;
    desk.hold("c", scene.calls)?;
    desk.hold("u", scene.puts)
}

fn status_of(outcome: Outcome) -> u8 {
    status(&outcome)
}

// What was written to a desk.
fn written(alloc: Global, desk: &MemoryDesk, status: u8) -> Result<Ending, NoMemory> {
    Ok(Ending {
        status,
        fore: copied(alloc, desk.written(Output::Fore))?,
        back: copied(alloc, desk.written(Output::Back))?,
        spill: copied(alloc, desk.written(Output::Spill))?,
        note: copied(alloc, desk.written(Output::Note))?,
        made_trace: copied(alloc, desk.written(Output::MadeTrace))?,
        made_calls: copied(alloc, desk.written(Output::MadeCalls))?,
        copy: copied(alloc, desk.written(Output::Copied))?,
    })
}

/// The words of a text, which are separated by single spaces. The only error is out of memory.
pub fn split(alloc: Global, text: &str) -> Result<Vec<String>, NoMemory> {
    let mut words = Vec::new(alloc);
    for word in text.split(' ') {
        words.push(String::from_str(alloc, word)?)?;
    }
    Ok(words)
}

fn copied(alloc: Global, bytes: &[u8]) -> Result<Vec<u8>, NoMemory> {
    let mut copy = Vec::new(alloc);
    copy.extend_from_slice(bytes)?;
    Ok(copy)
}
