// Reading a trace, line by line.
ghost use Rattle.std.specs.Prelude.{◌≡◌, ◌+◌, ◌<◌, ◌≤◌, ◌^◌, length, IfOk, OnOk};
ghost use Rattle.fb_units.specs.Lines.{fields_of};
ghost use Rattle.fb_trace.specs.Line.{of_device, line_of};
ghost use Rattle.fb_trace.specs.Servable.{IsTraceOf};
ghost use Rattle.fb_trace.specs.Reading.{trace_of, next_progress, with_line};
ghost use Rattle.fb_trace.specs.Verdict.{Answers, accepted};
ghost use Rattle.fb_trace.specs.Progress.{progress};

use crate::entry::{Entry, entry_after};
use crate::{Trace, TraceError, TraceFault, TraceReason};
use fb_units::{NoMemory, Ns, Request, next_line};
use std::alloc::Global;

// What a line adds to the trace of a device.
enum Line {
    Blank,
    // A request of another device, which arrives at this instant.
    PassedOver(Ns),
    Asked(Request),
}

// What was read of the lines so far.
#[derive(Drop)]
struct Reader {
    device: u64,
    sectors: u64,
    // The arrival in the last line that isn't blank.
    instant: Ns,
    trace: Trace,
}

/// The requests that a trace has for a device, on a disk of this many sectors. An error names the
/// first faulty line, counted from 1, and the first reason why it is refused; or it is `NoMemory`.
pub fn read_trace(
    alloc: Global,
    bytes: &[u8],
    device: u64,
    sectors: u64,
) -> Result<Trace, TraceError>
    ensures answer { Answers accepted result (trace_of device sectors bytes.now) }
    ensures trace { IfOk result (λ trace. IsTraceOf sectors trace.requests.items) }
{
    let mut reader = Reader {
        device,
        sectors,
        instant: 0,
        trace: Trace {
            requests: Vec::new(alloc),
            passed_over: 0,
        },
    };
    let mut rest = bytes;
    let mut number = 0;
    while let Some((line, others)) = next_line(rest) {
        number += 1;
        reader.read_line(number, line)?;
        rest = others;
    }
    Ok(reader.trace)
}

impl Reader {
    // Reads the next line, which has this number.
    fn read_line(&mut self, number: u64, line: &[u8]) -> Result<(), TraceError>
        requires few { self.old.trace.passed_over < number }
        ensures answer { Answers (λ _. progress self.new) result
            (next_progress self.old.device self.old.sectors number (progress self.old) line.now) }
        ensures device { self.new.device ≡ self.old.device }
        ensures sectors { self.new.sectors ≡ self.old.sectors }
        ensures few { OnOk result (self.new.trace.passed_over ≤ number) }
    {
        match self.line(line) {
            Ok(line) => Ok(self.add(line)?),
            Err(reason) => Err(TraceError::Fault(TraceFault {
                line: number,
                reason,
            })),
        }
    }

    // Adds what a line adds.
    fn add(&mut self, line: Line) -> Result<(), NoMemory>
        requires few { self.old.trace.passed_over + 1 < 2 ^ 64 }
        ensures line { OnOk result (progress self.new ≡ with_line (progress self.old) line) }
        ensures device { self.new.device ≡ self.old.device }
        ensures sectors { self.new.sectors ≡ self.old.sectors }
    {
        match line {
            Line::Blank => {}
            Line::PassedOver(arrival) => {
                self.instant = arrival;
                self.trace.passed_over += 1;
            }
            Line::Asked(request) => {
                self.trace.requests.push(request)?;
                self.instant = request.arrival;
            }
        }
        Ok(())
    }

    // What a line adds.
    #[tactic(auto, unfolding(crate::specs::Line::line_of, crate::specs::Line::added_by))]
    fn line(&self, text: &[u8]) -> Result<Line, TraceReason>
        ensures { result
            ≡ line_of self.now.device self.now.sectors self.now.instant (length self.now.trace.requests.items + 1) (fields_of text.now) }
    {
        match entry_after(self.instant, text)? {
            None => Ok(Line::Blank),
            Some(entry) => self.of_device(entry),
        }
    }

    // The request that an entry asks for, or one that is passed over if it is for another device.
    #[tactic(auto, unfolding(crate::specs::Line::of_device))]
    fn of_device(&self, entry: Entry) -> Result<Line, TraceReason>
        requires { entry.first ≤ 10 ^ 15 }
        ensures { result ≡ of_device self.now.device self.now.sectors (length self.now.trace.requests.items + 1) entry }
    {
        if entry.device == self.device {
            let number = self.trace.requests.len() as u64 + 1;
            Ok(Line::Asked(entry.request(number, self.sectors)?))
        } else {
            Ok(Line::PassedOver(entry.arrival))
        }
    }
}
