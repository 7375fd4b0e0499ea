// Reads inputs whole, and writes outputs whole.
ghost use Rattle.std.specs.Prelude.{◌≡◌, ◌≢◌, ◌<◌, ◌≤◌, ◌^◌, [], Some, true, false, length, is_some, IfOk, OnOk, OnErr, IsErrOf};
ghost use Rattle.fb_desk.specs.Calls.{Rose, HasCause, ChangesInput, ChangesOutput, behind};
ghost use Rattle.fb_streams.specs.Called.{Asked, Ends, EndsLine, failed_reading, failed_writing};
ghost use Rattle.fb_streams.specs.Streams.{AppendsFront, IsHeld, IsLonger, IsOpenedAs};

use fb_desk::{Desk, Failed, Input, Output};
use fb_units::NoMemory;
use std::alloc::{AllocError, Global};

/// Why an input was not read to its end.
#[derive(Clone, Copy)]
pub enum InputError {
    /// A call of the desk failed.
    Failed,
    /// The input has more bytes than the limit.
    TooLong,
    /// Out of memory.
    NoMemory,
}

impl From<Failed> for InputError {
    ghost use Rattle.std.specs.Prelude.{◌≡◌};
    ghost use Rattle.fb_streams.specs.declared.streams.InputError.TheVariants as errors;

    ghost from_gives = { λ _ e. e ≡ errors.Failed };

    fn from(_: Failed) -> InputError {
        InputError::Failed
    }
}

impl From<AllocError> for InputError {
    ghost use Rattle.std.specs.Prelude.{◌≡◌};
    ghost use Rattle.fb_streams.specs.declared.streams.InputError.TheVariants as errors;

    ghost from_gives = { λ _ e. e ≡ errors.NoMemory };

    fn from(_: AllocError) -> InputError {
        InputError::NoMemory
    }
}

// How many bytes a call asks for at most.
const PIECE: usize = 4096;

/// Opens an input and reads it to its end.
///
/// The error is `Failed` if a call failed, `TooLong` if there are more than `limit` bytes, and `NoMemory`
/// if memory ran out.
pub fn read_whole<D: Desk>(
    alloc: Global,
    desk: &mut D,
    which: Input,
    name: &str,
    limit: usize,
) -> Result<Vec<u8>, InputError>
    requires fresh { ((D.seen desk.old).inputs which).opened ≡ false }
    requires room { limit < 2 ^ 40 }
    ensures only { ChangesInput which (D.seen desk.old) (D.seen desk.new) }
    ensures calls { (asked : Asked) → asked.inputs which ≡ Some name.now
        → Ends (failed_reading which) asked result (D.seen desk.old).calls (D.seen desk.new).calls }
    ensures opened { IsOpenedAs name.now (D.seen desk.old) ((D.seen desk.new).inputs which) }
    ensures whole { IfOk result (λ bytes. IsHeld (D.seen desk.old) name.now bytes.items) }
    ensures few { IfOk result (λ bytes. length bytes.items ≤ limit) }
    ensures failed { IsErrOf result InputError.Failed
        → Rose ((D.seen desk.old).inputs which).faults ((D.seen desk.new).inputs which).faults }
    ensures long { IsErrOf result InputError.TooLong → IsLonger (D.seen desk.old) name.now limit }
{
    desk.open_input(which, name)?;
    let mut bytes = Vec::new(alloc);
    let mut piece = [0; PIECE];
    'pieces: while bytes.len() <= limit {
        let taken = desk.read_some(which, &mut piece)?;
        if taken == 0 {
            return Ok(bytes);
        }
        bytes.extend_from_slice(&piece[..taken])?;
    }
    Err(InputError::TooLong)
}

/// Writes a whole text to an output that was begun. The text, if it isn't empty, ends with a line feed.
///
/// Each call is given all that is left of the text. The error comes where a call of the desk fails; a
/// front of the text has then been written.
pub fn write_whole<D: Desk>(desk: &mut D, which: Output, text: &[u8]) -> Result<(), Failed>
    requires begun { ((D.seen desk.old).outputs which).begun ≡ true }
    requires lines { text.now ≢ [] → EndsLine text.now }
    ensures only { ChangesOutput which (D.seen desk.old) (D.seen desk.new) }
    ensures cause { HasCause ((D.seen desk.old).outputs which).faults ((D.seen desk.new).outputs which).faults result }
    ensures begun { ((D.seen desk.new).outputs which).begun ≡ true }
    ensures name { ((D.seen desk.new).outputs which).name ≡ ((D.seen desk.old).outputs which).name }
    ensures whole { OnOk result (((D.seen desk.new).outputs which).written ≡ behind ((D.seen desk.old).outputs which).written text.now) }
    ensures calls { (asked : Asked) → is_some (asked.outputs which) ≡ true
        → Ends (failed_writing which) asked result (D.seen desk.old).calls (D.seen desk.new).calls }
    ensures front { OnErr result
        (AppendsFront ((D.seen desk.old).outputs which).written ((D.seen desk.new).outputs which).written text.now) }
{
    let mut done = 0;
    while done < text.len() {
        done += desk.write_some(which, &text[done..])?;
    }
    Ok(())
}
