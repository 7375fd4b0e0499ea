// Reading a trace for several devices, line by line.
ghost use Rattle.std.specs.Prelude.{◌≡◌, ℕ, ◌+◌, ◌<◌, ◌≤◌, ◌^◌, nat_lt, List, ◌∷◌, [], length, map, take, replicate, IfOk, OnOk, Ok, Some};
ghost use Rattle.std.specs.Prelude.{None, if◌then◌else◌};
ghost use Rattle.std.specs.List.{AllByRecursion};
ghost use Rattle.fb_units.specs.Lines.{fields_of};
ghost use Rattle.fb_trace.specs.Devices.{traces_of};
ghost use Rattle.fb_trace.specs.Line.{entry_after};
ghost use Rattle.fb_trace.specs.Progress.{AreCounted, own_trace, requests_of, rest_of_text, unless_refused};
ghost use Rattle.fb_trace.specs.Servable.{IsTraceOf};
ghost use Rattle.fb_trace.specs.Verdict.{Answers, AreTracesOf, accepted};

use crate::entry::{Entry, entry_after};
use crate::{Trace, TraceError, TraceFault};
use fb_units::{NoMemory, Ns, next_line};
use std::alloc::Global;

// What was read of the lines so far for the devices 0, 1, ..
#[derive(Drop)]
struct DevicesReader {
    sectors: u64,
    // The arrival in the last line that isn't blank.
    instant: Ns,
    // The number of requests so far, of all devices.
    requests: u64,
    // The traces of the devices below the least one that was refused, or of all. What they passed
    // over isn't counted yet.
    traces: Vec<Trace>,
    // The fault of the least device that was refused.
    fault: Option<TraceFault>,
}

/// The traces of the devices 0, 1, .. below a number, on disks of this many sectors: what
/// `read_trace` returns for each device alone, but the text is read once. An error is that of the
/// least device for which the trace is refused, even if it is refused for another one at an earlier
/// line; or it is `NoMemory`.
pub fn read_traces(
    alloc: Global,
    bytes: &[u8],
    devices: u32,
    sectors: u64,
) -> Result<Vec<Trace>, TraceError>
    ensures answer { Answers (λ traces. map accepted traces.items) result (traces_of devices sectors bytes.now) }
    ensures each { IfOk result (λ traces. AreTracesOf devices sectors bytes.now traces.items) }
    ensures fit { IfOk result (λ traces. AllByRecursion (λ trace. IsTraceOf sectors trace.requests.items) traces.items) }
{
    let mut reader = DevicesReader::new(alloc, devices, sectors)?;
    let mut rest = bytes;
    let mut number = 0;
    while let Some((line, others)) = next_line(rest) {
        number += 1;
        reader.read_line(number, line)?;
        rest = others;
    }
    reader.into_traces()
}

impl DevicesReader {
    // Before the first line.
    fn new(alloc: Global, devices: u32, sectors: u64) -> Result<DevicesReader, NoMemory>
        ensures requests { IfOk result (λ reader. requests_of reader ≡ replicate devices []) }
        ensures others { IfOk result
            (λ reader. (reader.sectors ≡ sectors) × (reader.instant ≡ 0) × (reader.requests ≡ 0) × (reader.fault ≡ None)) }
    {
        let mut traces = Vec::new(alloc);
        for _ in 0..devices {
            traces.push(Trace {
                requests: Vec::new(alloc),
                passed_over: 0,
            })?;
        }
        Ok(DevicesReader {
            sectors,
            instant: 0,
            requests: 0,
            traces,
            fault: None,
        })
    }

    // Reads the next line, which has this number.
    fn read_line(&mut self, number: u64, line: &[u8]) -> Result<(), NoMemory>
        requires few { self.old.requests < number }
        requires counted { AreCounted self.old }
        ensures rest { OnOk result ((lines : List (List ℕ))
            → rest_of_text self.old number (line.now ∷ lines) ≡ rest_of_text self.new (number + 1) lines) }
        ensures few { OnOk result (self.new.requests ≤ number) }
        ensures counted { OnOk result (AreCounted self.new) }
    {
        match entry_after(self.instant, line) {
            Ok(None) => Ok(()),
            Ok(Some(entry)) => self.add(number, entry),
            Err(reason) => {
                self.refuse_from(
                    0,
                    TraceFault {
                        line: number,
                        reason,
                    },
                );
                Ok(())
            }
        }
    }

    // Adds the request of a line to its device, if that is still read.
    fn add(&mut self, number: u64, entry: Entry) -> Result<(), NoMemory>
        requires few { self.old.requests < number }
        requires counted { AreCounted self.old }
        requires first { entry.first ≤ 10 ^ 15 }
        ensures rest { OnOk result ((line : List ℕ) (lines : List (List ℕ))
            → entry_after self.old.instant (fields_of line) ≡ Ok (Some entry)
            → rest_of_text self.old number (line ∷ lines) ≡ rest_of_text self.new (number + 1) lines) }
        ensures few { OnOk result (self.new.requests ≤ number) }
        ensures counted { OnOk result (AreCounted self.new) }
    {
        self.instant = entry.arrival;
        self.requests += 1;
        let device = entry.device as usize;
        if device >= self.traces.len() {
            return Ok(());
        }
        let request = self.traces[device].requests.len() as u64 + 1;
        match entry.request(request, self.sectors) {
            Ok(request) => self.traces[device].requests.push(request)?,
            Err(reason) => self.refuse_from(
                device,
                TraceFault {
                    line: number,
                    reason,
                },
            ),
        }
        Ok(())
    }

    // Refuses a device for this fault, if it is still read. It and those above it are read no more.
    fn refuse_from(&mut self, device: usize, fault: TraceFault)
        ensures traces { self.new.traces.items ≡ take device self.old.traces.items }
        ensures fault { self.new.fault ≡ (if nat_lt device (length self.old.traces.items) then Some fault else self.old.fault) }
        ensures others { (self.new.sectors ≡ self.old.sectors) × (self.new.instant ≡ self.old.instant)
            × (self.new.requests ≡ self.old.requests) }
    {
        if device < self.traces.len() {
            self.traces.truncate(device);
            self.fault = Some(fault);
        }
    }

    // The traces at the end of the text, or the fault of the least device that was refused.
    fn into_traces(self) -> Result<Vec<Trace>, TraceError>
        requires { AreCounted self }
        ensures { Answers (λ traces. map accepted traces.items) result
            (unless_refused self.fault (map (own_trace self) (requests_of self))) }
    {
        if let Some(fault) = self.fault {
            return Err(TraceError::Fault(fault));
        }
        let mut traces = self.traces;
        for trace in traces.iter_mut() {
            trace.passed_over = self.requests - trace.requests.len() as u64;
        }
        Ok(traces)
    }
}
