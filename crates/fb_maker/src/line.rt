// The lines of a generated trace.
ghost use Rattle.std.specs.Prelude.{◌≡◌, ◌∷◌, ◌++◌, decimal, IfOk, OnOk};
ghost use Rattle.fb_maker.specs.Trace.{line_of, flags_text};

use fb_units::{NoMemory, Request, write_millis};
use itoa::Buffer;
use std::alloc::Global;

const LINE_ROOM: usize = 96;

// The line of a request, with its line feed.
#[tactic(auto, unfolding(crate::specs::Trace::line_of))]
pub fn line_of(alloc: Global, device: u64, request: &Request) -> Result<Vec<u8>, NoMemory>
    ensures { IfOk result (λ line. line.items ≡ line_of device request.now) }
{
    let mut millis = [0; 32];
    let end = write_millis(request.arrival, &mut millis);
    let mut line = Vec::with_capacity(alloc, LINE_ROOM)?;
    line.extend_from_slice(&millis[..end])?;
    push_number(&mut line, device)?;
    push_number(&mut line, request.lbn)?;
    push_number(&mut line, u64::from(request.count))?;
    push_word(&mut line, flags(request.write))?;
    line.push(b'\n')?;
    Ok(line)
}

// The flags of a request: 0 for a write, 1 for a read.
fn flags(write: bool) -> &'static [u8]
    ensures { result.now ≡ flags_text write }
{
    if write { b"0" } else { b"1" }
}

// Appends a space and a number.
pub fn push_number(line: &mut Vec<u8>, number: u64) -> Result<(), NoMemory>
    ensures { OnOk result (line.new.items ≡ line.old.items ++ 32 ∷ decimal number) }
{
    let mut buffer = Buffer::new();
    push_word(line, buffer.format(number).as_bytes())
}

// Appends a space and a word.
fn push_word(line: &mut Vec<u8>, word: &[u8]) -> Result<(), NoMemory>
    ensures { OnOk result (line.new.items ≡ line.old.items ++ 32 ∷ word.now) }
{
    line.push(b' ')?;
    line.extend_from_slice(word)?;
    Ok(())
}
