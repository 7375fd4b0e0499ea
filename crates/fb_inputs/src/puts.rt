// The puts that are to be written beside a replay.
ghost use Rattle.std.specs.Prelude.{◌≡◌, None, Some, false, IfErr, IfOk, IfSome};
ghost use Rattle.std.specs.Option.{option_map};
ghost use Rattle.fb_puts.specs.Verdict.{accepted};
ghost use Rattle.fb_desk.specs.Calls.{ChangesInput};
ghost use Rattle.fb_inputs.specs.Causes.{StopsGivenPuts, StopsPuts};
ghost use Rattle.fb_streams.specs.Streams.{IsOpenedAs};
ghost use Rattle.fb_inputs.specs.Read.{AcceptsPuts, ReadsPuts, files_of};
ghost use Rattle.fb_inputs.specs.Puts.{CanBeSpilled};
ghost use Rattle.fb_streams.specs.Called.{Asked, Ends};
ghost use Rattle.fb_inputs.specs.Ends.{failed_input};

use crate::InputsError;
use crate::reading::{RunFiles, read_input};
use fb_desk::{Desk, Input};
use fb_puts::{Puts, PutsError, read_puts};
use std::alloc::Global;

/// Reads the puts under the name that is given; without a name there are none.
///
/// The error says why: the puts file can't be read or is refused, or memory ran out.
pub fn read_given_puts<D: Desk>(
    alloc: Global,
    desk: &mut D,
    name: Option<&str>,
    files: &RunFiles,
) -> Result<Option<Puts>, InputsError>
    requires { ((D.seen desk.old).inputs Input.Puts).opened ≡ false }
    ensures only { ChangesInput Input.Puts (D.seen desk.old) (D.seen desk.new) }
    ensures opened { IfSome (option_map (λ given. given.now) name.entry)
        (λ given. IsOpenedAs given (D.seen desk.old) ((D.seen desk.new).inputs Input.Puts)) }
    ensures calls { (asked : Asked) → asked.inputs Input.Puts ≡ option_map (λ given. given.now) name.entry
        → Ends failed_input asked result (D.seen desk.old).calls (D.seen desk.new).calls }
    ensures unnamed { option_map (λ given. given.now) name.entry ≡ None
        → (D.seen desk.new).inputs Input.Puts ≡ (D.seen desk.old).inputs Input.Puts }
    ensures puts { IfOk result (λ puts.
        AcceptsPuts (D.seen desk.old) (option_map (λ given. given.now) name.entry) (files_of files.now) (option_map accepted puts)) }
    ensures fit { IfOk result (λ puts. IfSome puts (λ puts. CanBeSpilled (files_of files.now) (accepted puts))) }
    ensures stops { IfErr result
        (StopsGivenPuts (option_map (λ given. given.now) name.entry) (files_of files.now) (D.seen desk.old) (D.seen desk.new)) }
{
    match name {
        Some(name) => Ok(Some(read_named_puts(alloc, desk, name, files)?)),
        None => Ok(None),
    }
}

// Reads the puts under this name.
fn read_named_puts<D: Desk>(
    alloc: Global,
    desk: &mut D,
    name: &str,
    files: &RunFiles,
) -> Result<Puts, InputsError>
    requires { ((D.seen desk.old).inputs Input.Puts).opened ≡ false }
    ensures only { ChangesInput Input.Puts (D.seen desk.old) (D.seen desk.new) }
    ensures opened { IsOpenedAs name.now (D.seen desk.old) ((D.seen desk.new).inputs Input.Puts) }
    ensures calls { (asked : Asked) → asked.inputs Input.Puts ≡ Some name.now
        → Ends failed_input asked result (D.seen desk.old).calls (D.seen desk.new).calls }
    ensures puts { IfOk result (λ puts. ReadsPuts (D.seen desk.old) name.now (files_of files.now) (accepted puts)) }
    ensures fit { IfOk result (λ puts. CanBeSpilled (files_of files.now) (accepted puts)) }
    ensures stops { IfErr result (StopsPuts name.now (files_of files.now) (D.seen desk.old) (D.seen desk.new)) }
{
    let bytes = read_input(alloc, desk, Input::Puts, name)?;
    let map = &files.params.disk.map;
    match read_puts(alloc, bytes.as_slice(), map, &files.trace, &files.calls) {
        Ok(puts) => Ok(puts),
        Err(PutsError::Fault(fault)) => Err(InputsError::Puts(fault)),
        Err(PutsError::NoMemory) => Err(InputsError::NoMemory),
    }
}
