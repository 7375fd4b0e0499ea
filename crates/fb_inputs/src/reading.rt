// The inputs of a replay or a check, each read whole and judged before the next.
ghost use Rattle.std.specs.Prelude.{◌≡◌, ℕ, ◌<◌, ◌≤◌, ◌^◌, [], None, Some, false, length, IfOk, IfErr, IfSome};
ghost use Rattle.std.specs.List.{AllByRecursion};
ghost use Rattle.std.specs.Option.{option_map};
ghost use Rattle.fb_geometry.specs.Places.{places};
ghost use Rattle.fb_geometry.specs.Sound.{IsSound};
ghost use Rattle.fb_desk.specs.Calls.{ChangesInput};
ghost use Rattle.fb_desk.specs.View.{IsUnused};
ghost use Rattle.fb_trace.specs.Servable.{IsTraceOf};
ghost use Rattle.fb_trace.specs.Verdict.{accepted};
ghost use Rattle.fb_script.specs.Allowed.{IsScript, tasks};
ghost use Rattle.fb_calls.specs.Verdict.{accepted as accepted_calls};
ghost use Rattle.fb_decide.specs.RunInputs.{inputs_of};
ghost use Rattle.fb_model.specs.Accepted.{IsAccepted};
ghost use Rattle.fb_model.specs.PlainReplay.{Key};
ghost use Rattle.fb_inputs.specs.Reading.{file_names};
ghost use Rattle.fb_inputs.specs.Read.{Accepts, ReadsCalls, ReadsDisk, ReadsScript, ReadsTrace, files_of, inputs_of_files};
ghost use Rattle.fb_inputs.specs.Account.{Account, failed_in};
ghost use Rattle.fb_inputs.specs.Causes.{StopsCalls, StopsDisk, StopsInputs, StopsReading, StopsReport, StopsScript, StopsTrace};
ghost use Rattle.fb_inputs.specs.Ends.{failed_input};
ghost use Rattle.fb_inputs.specs.Limits.{limit_of};
ghost use Rattle.fb_streams.specs.Streams.{IsHeld, IsOpenedAs};
ghost use Rattle.fb_streams.specs.Called.{Asked, AsksFiles, Ends};
ghost use Rattle.fb_streams.specs.Names.{InputNames};

use crate::InputsError;
use fb_calls::{CallsError, read_calls};
use fb_decide::RunInputs;
use fb_desk::{Desk, Input};
use fb_params::{Parameters, ParamsError, read_params};
use fb_script::{Calls, Names};
use fb_service::Disk;
use fb_streams::{InputError, read_whole};
use fb_trace::{Trace, TraceError, read_trace};
use fb_units::Ns;
use std::alloc::Global;

/// The files of a run, by the names that the words give them.
#[derive(Clone, Copy)]
pub struct NamedFiles<'a> {
    /// The parameter file.
    pub params: &'a str,
    /// The trace.
    pub trace: &'a str,
    /// The call script, if there is one.
    pub calls: Option<&'a str>,
    /// The device whose requests are read from the trace.
    pub device: u64,
}

/// What the files of a run say.
#[derive(Drop)]
pub struct RunFiles {
    /// The disk and its latent sectors.
    pub params: Parameters,
    /// The requests of one device, in order of arrival.
    pub trace: Trace,
    /// The calls, in order of instant, and the names of their tasks.
    pub calls: Calls,
}

impl RunFiles {
    /// The inputs of a run of these files up to `until`, in ns (see `RunInputs::until`).
    pub fn run_inputs(&self, until: Ns) -> RunInputs<'_>
        ensures inputs { (key : Key) → inputs_of result key ≡ inputs_of_files (files_of self.now) key until }
        ensures calls { result.calls.now ≡ self.now.calls }
    {
        RunInputs {
            disk: &self.params.disk,
            latent: self.params.latent.as_slice(),
            trace: &self.trace,
            calls: &self.calls,
            until,
        }
    }
}

/// Reads the files of a run: the parameter file, then the trace, then the script, if any.
///
/// The error says what is wrong with the first file that can't be read or is refused.
pub fn read_files<D: Desk>(
    alloc: Global,
    desk: &mut D,
    named: &NamedFiles<'_>,
) -> Result<RunFiles, InputsError>
    requires { IsUnused (D.seen desk.old) }
    ensures account { (asked : Asked) → AsksFiles asked (file_names named.now)
        → Account asked Input.Calls (failed_in result) (D.seen desk.old) (D.seen desk.new) }
    ensures accepts { IfOk result (λ files. Accepts (D.seen desk.old) (file_names named.now) (files_of files)) }
    ensures fit { IfOk result (λ files. (key : Key) (until : ℕ) → until ≤ 10 ^ 15
        → IsAccepted (inputs_of_files (files_of files) key until)) }
    ensures sound { IfOk result (λ files. IsSound files.params.disk.map) }
    ensures names { IfOk result (λ files. length files.calls.names ≡ length (tasks files.calls.calls.items)) }
    ensures cause { IfErr result (λ error. (names : InputNames) → names.files ≡ file_names named.now
        → StopsInputs names (D.seen desk.old) (D.seen desk.new) error) }
{
    let params = read_disk(alloc, desk, named.params)?;
    params.disk.map.geometry().sound();
    let trace = read_requests(alloc, desk, named.trace, named.device, &params.disk)?;
    let traced = trace.requests.as_slice().len() as u64;
    let calls = read_script(alloc, desk, named.calls, &params.disk, traced)?;
    Ok(RunFiles {
        params,
        trace,
        calls,
    })
}

/// Reads the input under this name to its end.
///
/// The error says why: it can't be read, has too many bytes, or memory ran out.
pub fn read_input<D: Desk>(
    alloc: Global,
    desk: &mut D,
    which: Input,
    name: &str,
) -> Result<Vec<u8>, InputsError>
    requires fresh { ((D.seen desk.old).inputs which).opened ≡ false }
    ensures only { ChangesInput which (D.seen desk.old) (D.seen desk.new) }
    ensures opened { IsOpenedAs name.now (D.seen desk.old) ((D.seen desk.new).inputs which) }
    ensures calls { (asked : Asked) → asked.inputs which ≡ Some name.now
        → Ends failed_input asked result (D.seen desk.old).calls (D.seen desk.new).calls }
    ensures whole { IfOk result (λ bytes. IsHeld (D.seen desk.old) name.now bytes.items) }
    ensures few { IfOk result (λ bytes. length bytes.items ≤ limit_of which) }
    ensures stops { IfErr result (StopsReading which name.now (D.seen desk.old) (D.seen desk.new)) }
{
    match read_whole(alloc, desk, which, name, limit_of(which)) {
        Ok(bytes) => Ok(bytes),
        Err(InputError::Failed) => Err(InputsError::ReadFault(which)),
        Err(InputError::TooLong) => Err(InputsError::TooLong(which)),
        Err(InputError::NoMemory) => Err(InputsError::NoMemory),
    }
}

// How many bytes an input may have.
fn limit_of(which: Input) -> usize
    ensures value { result ≡ limit_of which }
    ensures few { result ≤ 2 ^ 28 }
{
    match which {
        Input::Params => 1 << 20,
        Input::Trace => 1 << 28,
        Input::Calls => 1 << 26,
        Input::Puts => 1 << 26,
        Input::ForeReport => 1 << 28,
        Input::BackReport => 1 << 28,
    }
}

/// Reads the parameter file under this name.
///
/// The error says why: it can't be read, has too many bytes, is refused, or memory ran out.
pub fn read_disk<D: Desk>(
    alloc: Global,
    desk: &mut D,
    name: &str,
) -> Result<Parameters, InputsError>
    requires { ((D.seen desk.old).inputs Input.Params).opened ≡ false }
    ensures only { ChangesInput Input.Params (D.seen desk.old) (D.seen desk.new) }
    ensures opened { IsOpenedAs name.now (D.seen desk.old) ((D.seen desk.new).inputs Input.Params) }
    ensures calls { (asked : Asked) → asked.inputs Input.Params ≡ Some name.now
        → Ends failed_input asked result (D.seen desk.old).calls (D.seen desk.new).calls }
    ensures disk { IfOk result (λ params. ReadsDisk (D.seen desk.old) name.now params.disk params.latent.items) }
    ensures latent { IfOk result (λ params. AllByRecursion (λ lbn. lbn < length (places params.disk.map)) params.latent.items) }
    ensures stops { IfErr result (StopsDisk name.now (D.seen desk.old) (D.seen desk.new)) }
{
    let bytes = read_input(alloc, desk, Input::Params, name)?;
    match read_params(alloc, bytes.as_slice()) {
        Ok(params) => Ok(params),
        Err(ParamsError::Fault(fault)) => Err(InputsError::Params(fault)),
        Err(ParamsError::NoMemory) => Err(InputsError::NoMemory),
    }
}

// Reads the requests of one device from the trace under this name.
fn read_requests<D: Desk>(
    alloc: Global,
    desk: &mut D,
    name: &str,
    device: u64,
    disk: &Disk,
) -> Result<Trace, InputsError>
    requires { ((D.seen desk.old).inputs Input.Trace).opened ≡ false }
    ensures only { ChangesInput Input.Trace (D.seen desk.old) (D.seen desk.new) }
    ensures opened { IsOpenedAs name.now (D.seen desk.old) ((D.seen desk.new).inputs Input.Trace) }
    ensures calls { (asked : Asked) → asked.inputs Input.Trace ≡ Some name.now
        → Ends failed_input asked result (D.seen desk.old).calls (D.seen desk.new).calls }
    ensures trace { IfOk result (λ trace. ReadsTrace (D.seen desk.old) name.now device disk.now (accepted trace)) }
    ensures servable { IfOk result (λ trace. IsTraceOf (length (places disk.now.map)) trace.requests.items) }
    ensures stops { IfErr result (StopsTrace name.now device disk.now (D.seen desk.old) (D.seen desk.new)) }
{
    let bytes = read_input(alloc, desk, Input::Trace, name)?;
    match read_trace(alloc, bytes.as_slice(), device, disk.map.count()) {
        Ok(trace) => Ok(trace),
        Err(TraceError::Fault(fault)) => Err(InputsError::Trace(fault)),
        Err(TraceError::NoMemory) => Err(InputsError::NoMemory),
    }
}

// Reads the script under the name that is given; without a name the script is empty.
fn read_script<D: Desk>(
    alloc: Global,
    desk: &mut D,
    name: Option<&str>,
    disk: &Disk,
    traced: u64,
) -> Result<Calls, InputsError>
    requires { ((D.seen desk.old).inputs Input.Calls).opened ≡ false }
    ensures only { ChangesInput Input.Calls (D.seen desk.old) (D.seen desk.new) }
    ensures opened { IfSome (option_map (λ given. given.now) name.entry)
        (λ given. IsOpenedAs given (D.seen desk.old) ((D.seen desk.new).inputs Input.Calls)) }
    ensures calls { (asked : Asked) → asked.inputs Input.Calls ≡ option_map (λ given. given.now) name.entry
        → Ends failed_input asked result (D.seen desk.old).calls (D.seen desk.new).calls }
    ensures unnamed { option_map (λ given. given.now) name.entry ≡ None
        → (D.seen desk.new).inputs Input.Calls ≡ (D.seen desk.old).inputs Input.Calls }
    ensures script { IfOk result
        (λ calls. ReadsScript (D.seen desk.old) (option_map (λ given. given.now) name.entry) disk.now traced (accepted_calls calls)) }
    ensures fit { IfOk result (λ calls. IsScript disk.now.map traced calls.calls.items) }
    ensures names { IfOk result (λ calls. length calls.names ≡ length (tasks calls.calls.items)) }
    ensures stops { IfErr result
        (StopsScript (option_map (λ given. given.now) name.entry) disk.now traced (D.seen desk.old) (D.seen desk.new)) }
{
    match name {
        Some(name) => read_named_script(alloc, desk, name, disk, traced),
        None => Ok(no_calls(alloc)),
    }
}

// Reads the script under this name; `traced` is the number of the trace's requests.
fn read_named_script<D: Desk>(
    alloc: Global,
    desk: &mut D,
    name: &str,
    disk: &Disk,
    traced: u64,
) -> Result<Calls, InputsError>
    requires { ((D.seen desk.old).inputs Input.Calls).opened ≡ false }
    ensures only { ChangesInput Input.Calls (D.seen desk.old) (D.seen desk.new) }
    ensures opened { IsOpenedAs name.now (D.seen desk.old) ((D.seen desk.new).inputs Input.Calls) }
    ensures calls { (asked : Asked) → asked.inputs Input.Calls ≡ Some name.now
        → Ends failed_input asked result (D.seen desk.old).calls (D.seen desk.new).calls }
    ensures script { IfOk result (λ calls. ReadsCalls (D.seen desk.old) name.now disk.now traced (accepted_calls calls)) }
    ensures fit { IfOk result (λ calls. IsScript disk.now.map traced calls.calls.items) }
    ensures names { IfOk result (λ calls. length calls.names ≡ length (tasks calls.calls.items)) }
    ensures stops { IfErr result (StopsCalls name.now disk.now traced (D.seen desk.old) (D.seen desk.new)) }
{
    let bytes = read_input(alloc, desk, Input::Calls, name)?;
    match read_calls(alloc, bytes.as_slice(), &disk.map, traced) {
        Ok(calls) => Ok(calls),
        Err(CallsError::Fault(fault)) => Err(InputsError::Calls(fault)),
        Err(CallsError::NoMemory) => Err(InputsError::NoMemory),
    }
}

/// The script without calls.
pub fn no_calls(alloc: Global) -> Calls
    ensures names { result.names ≡ [] }
    ensures calls { result.calls.items ≡ [] }
{
    Calls {
        names: Names::new(alloc),
        calls: Vec::new(alloc),
    }
}

/// Reads the bytes of a printed report under this name.
///
/// The error says why: it can't be read, has too many bytes, or memory ran out.
pub fn read_printed<D: Desk>(
    alloc: Global,
    desk: &mut D,
    report: Input,
    name: &str,
) -> Result<Vec<u8>, InputsError>
    requires { ((D.seen desk.old).inputs report).opened ≡ false }
    ensures only { ChangesInput report (D.seen desk.old) (D.seen desk.new) }
    ensures opened { IsOpenedAs name.now (D.seen desk.old) ((D.seen desk.new).inputs report) }
    ensures calls { (asked : Asked) → asked.inputs report ≡ Some name.now
        → Ends failed_input asked result (D.seen desk.old).calls (D.seen desk.new).calls }
    ensures whole { IfOk result (λ bytes. IsHeld (D.seen desk.old) name.now bytes.items) }
    ensures few { IfOk result (λ bytes. length bytes.items ≤ limit_of report) }
    ensures stops { IfErr result (StopsReport report name.now (D.seen desk.old) (D.seen desk.new)) }
{
    read_input(alloc, desk, report, name)
}
