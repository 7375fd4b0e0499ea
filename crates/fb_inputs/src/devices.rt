// The inputs of an array, read whole and judged for each device.
ghost use Rattle.std.specs.Prelude.{◌≡◌, ℕ, ◌<◌, Some, true, false, map, length, slice_get, IfErr, IfOk, IfSome};
ghost use Rattle.std.specs.List.{AllByRecursion};
ghost use Rattle.fb_geometry.specs.Places.{places};
ghost use Rattle.fb_geometry.specs.Sound.{IsSound};
ghost use Rattle.fb_desk.specs.Calls.{ChangesInput};
ghost use Rattle.fb_desk.specs.View.{IsUnused};
ghost use Rattle.fb_trace.specs.Reading.{Accepted};
ghost use Rattle.fb_trace.specs.Servable.{IsTraceOf};
ghost use Rattle.fb_trace.specs.Verdict.{accepted};
ghost use Rattle.fb_trace.specs.declared.trace.Trace.{Trace};
ghost use Rattle.fb_script.specs.Allowed.{IsScript, tasks};
ghost use Rattle.fb_calls.specs.Verdict.{accepted as accepted_calls};
ghost use Rattle.fb_model.specs.Accepted.{IsAccepted};
ghost use Rattle.fb_words.specs.Command.{arrays};
ghost use Rattle.fb_words.specs.Limits.{IsWithinLimits};
ghost use Rattle.fb_words.specs.Verdict.{array_terms};
ghost use Rattle.fb_inputs.specs.Account.{Account, failed_in};
ghost use Rattle.fb_inputs.specs.Ends.{failed_input};
ghost use Rattle.fb_inputs.specs.Devices.{AcceptsArray, ReadsRebuild, ReadsTraces, StopsArray, StopsRebuild, StopsTraces, array_of};
ghost use Rattle.fb_inputs.specs.Devices.{device_inputs, is_rebuilt_from};
ghost use Rattle.fb_streams.specs.Streams.{IsOpenedAs};
ghost use Rattle.fb_streams.specs.Called.{Asked, Ends, array_asks};

use crate::InputsError;
use crate::reading::{no_calls, read_disk, read_input};
use fb_calls::{CallsError, read_calls};
use fb_desk::{Desk, Input};
use fb_mirror::{rebuild_script, rebuild_scripts_are_read};
use fb_params::Parameters;
use fb_script::Calls;
use fb_service::Disk;
use fb_trace::{Trace, TraceError, read_traces};
use fb_units::NoMemory;
use fb_words::ArrayWords;
use std::alloc::Global;

/// What the files of an array say.
#[derive(Drop)]
pub struct ArrayFiles {
    /// The disk that each device has, and its latent sectors.
    pub params: Parameters,
    /// The requests of each device, by device.
    pub traces: Vec<Trace>,
    /// The calls of the rebuild; none where there is no rebuild.
    pub calls: Calls,
}

/// Reads the files of an array, the parameter file and then the trace, and the script of the
/// rebuild, if there is one.
///
/// The error says why: a file can't be read or is refused, or the script is refused.
pub fn read_array<D: Desk>(
    alloc: Global,
    desk: &mut D,
    words: &ArrayWords,
) -> Result<ArrayFiles, InputsError>
    requires unused { IsUnused (D.seen desk.old) }
    requires limits { IsWithinLimits (arrays (array_terms words.now)) }
    ensures account { Account (array_asks (array_terms words.now)) Input.Trace (failed_in result) (D.seen desk.old) (D.seen desk.new) }
    ensures accepts { IfOk result (λ files. AcceptsArray (D.seen desk.old) (array_terms words.now) (array_of files)) }
    ensures fit { IfOk result (λ files. (device : ℕ) (trace : Accepted) → slice_get (array_of files).traces device ≡ Some trace
        → IsAccepted (device_inputs (array_terms words.now) (array_of files) device trace)) }
    ensures sound { IfOk result (λ files. IsSound files.params.disk.map) }
    ensures names { IfOk result (λ files. length files.calls.names ≡ length (tasks files.calls.calls.items)) }
    ensures cause { IfErr result (StopsArray (array_terms words.now) (D.seen desk.old) (D.seen desk.new)) }
{
    let params = read_disk(alloc, desk, words.params.as_str())?;
    params.disk.map.geometry().sound();
    let traces = read_devices(
        alloc,
        desk,
        words.trace.as_str(),
        words.devices,
        &params.disk,
    )?;
    let calls = read_rebuild(alloc, words, &params.disk, traces.as_slice())?;
    Ok(ArrayFiles {
        params,
        traces,
        calls,
    })
}

// Reads the requests of each device from the trace under this name.
fn read_devices<D: Desk>(
    alloc: Global,
    desk: &mut D,
    name: &str,
    devices: u32,
    disk: &Disk,
) -> Result<Vec<Trace>, InputsError>
    requires { ((D.seen desk.old).inputs Input.Trace).opened ≡ false }
    ensures only { ChangesInput Input.Trace (D.seen desk.old) (D.seen desk.new) }
    ensures opened { IsOpenedAs name.now (D.seen desk.old) ((D.seen desk.new).inputs Input.Trace) }
    ensures calls { (asked : Asked) → asked.inputs Input.Trace ≡ Some name.now
        → Ends failed_input asked result (D.seen desk.old).calls (D.seen desk.new).calls }
    ensures traces { IfOk result (λ traces. ReadsTraces (D.seen desk.old) name.now devices disk.now (map accepted traces.items)) }
    ensures servable { IfOk result
        (λ traces. AllByRecursion (λ trace. IsTraceOf (length (places disk.now.map)) trace.requests.items) traces.items) }
    ensures stops { IfErr result (StopsTraces name.now devices disk.now (D.seen desk.old) (D.seen desk.new)) }
{
    let bytes = read_input(alloc, desk, Input::Trace, name)?;
    match read_traces(alloc, bytes.as_slice(), devices, disk.map.count()) {
        Ok(traces) => Ok(traces),
        Err(TraceError::Fault(fault)) => Err(InputsError::Trace(fault)),
        Err(TraceError::NoMemory) => Err(InputsError::NoMemory),
    }
}

// The calls of the script of the rebuild; none where there is no rebuild.
//
// The error says why: the script is refused, or memory ran out.
fn read_rebuild(
    alloc: Global,
    words: &ArrayWords,
    disk: &Disk,
    traces: &[Trace],
) -> Result<Calls, InputsError>
    requires device { IfSome (array_terms words.now).rebuild (λ rebuild. rebuild.device < length traces.now) }
    ensures script { IfOk result (λ calls. ReadsRebuild (array_terms words.now).rebuild disk.now.map (accepted_calls calls)) }
    ensures fit { IfOk result (λ calls. (device : ℕ) (trace : Trace) → slice_get traces.now device ≡ Some trace → is_rebuilt_from
        (array_terms words.now).rebuild device ≡ true → IsScript disk.now.map (length trace.requests.items) calls.calls.items) }
    ensures names { IfOk result (λ calls. length calls.names ≡ length (tasks calls.calls.items)) }
    ensures stops { IfErr result (StopsRebuild (array_terms words.now).rebuild disk.now.map) }
{
    let Some(rebuild) = &words.rebuild else {
        return Ok(no_calls(alloc));
    };
    rebuild_scripts_are_read(&disk.map);
    let requests = traces[rebuild.device as usize].requests.as_slice();
    let Ok(text) = rebuild_script(alloc, &disk.map) else {
        return Err(InputsError::NoMemory);
    };
    match read_calls(alloc, text.as_slice(), &disk.map, requests.len() as u64) {
        Ok(calls) => Ok(calls),
        Err(CallsError::Fault(fault)) => Err(InputsError::Calls(fault)),
        Err(CallsError::NoMemory) => Err(InputsError::NoMemory),
    }
}
