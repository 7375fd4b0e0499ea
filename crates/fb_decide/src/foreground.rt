// The foreground list.
ghost use Rattle.std.specs.Prelude.{List, ◌≡◌, ◌≤◌, ◌<◌, ◌++◌, map, length, drop, IfOk, IfSome, OnOk, slice_get};
ghost use Rattle.std.specs.List.{AllByRecursion, fold};
ghost use Rattle.fb_units.specs.Rising.{IsRising};
ghost use Rattle.fb_script.specs.declared.call.Call.{Call};
ghost use Rattle.fb_script.specs.Promoted.{promoted};
ghost use Rattle.fb_model.specs.Foreground.{behind, foreground_list};

use crate::requests::Requests;
use fb_script::{Calls, promoted};
use fb_units::{NoMemory, Ns, Request};
use std::alloc::Global;

/// The requests of the trace and the reads that calls promote, in order of arrival.
///
/// Of those that arrive together the trace's come first. The only error is out of memory.
pub fn foreground<'a>(
    alloc: Global,
    trace: &'a [Request],
    calls: &Calls,
) -> Result<Requests<'a>, NoMemory>
    requires arrivals { IsRising (map (λ request. request.arrival) trace.now) }
    requires instants { IsRising (map (λ call. call.instant) calls.now.calls.items) }
    ensures { IfOk result (λ requests. requests ≡ foreground_list trace.now calls.now.calls.items) }
{
    let reads = promoted(alloc, calls)?;
    if reads.is_empty() {
        return Ok(Requests::traced(trace));
    }
    Ok(Requests::merged(merged(alloc, trace, reads.as_slice())?))
}

// The requests of the trace and these reads, in order of arrival; of those that arrive together the
// trace's come first. The only error is out of memory.
fn merged(alloc: Global, trace: &[Request], reads: &[Request]) -> Result<Vec<Request>, NoMemory>
    requires { (calls : List Call) × (reads.now ≡ promoted calls) × IsRising (map (λ call. call.instant) calls) }
    ensures { IfOk result (λ requests. requests.items ≡ fold behind trace.now reads.now) }
{
    let mut requests = Vec::new(alloc);
    let mut next = 0;
    for read in reads {
        next = push_arrived(&mut requests, trace, next, read.arrival)?;
        requests.push(*read)?;
    }
    requests.extend_from_slice(&trace[next..])?;
    Ok(requests)
}

// Adds the requests of the trace that have arrived; returns the index of the next one.
fn push_arrived(
    requests: &mut Vec<Request>,
    trace: &[Request],
    next: usize,
    now: Ns,
) -> Result<usize, NoMemory>
    requires within { next ≤ length trace.now }
    requires come { AllByRecursion (λ request. request.arrival ≤ now) requests.old.items }
    ensures within { IfOk result (λ later. later ≤ length trace.now) }
    ensures same { IfOk result (λ later. requests.new.items ++ drop later trace.now ≡ requests.old.items ++ drop next trace.now) }
    ensures come { OnOk result (AllByRecursion (λ request. request.arrival ≤ now) requests.new.items) }
    ensures ahead { IfOk result (λ later. IfSome (slice_get trace.now later) (λ request. now < request.arrival)) }
{
    let mut next = next;
    while next < trace.len() && trace[next].arrival <= now {
        requests.push(trace[next])?;
        next += 1;
    }
    Ok(next)
}
