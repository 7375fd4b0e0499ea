// The sectors that a trace and a script ask for.
ghost use Rattle.std.specs.Prelude.{◌≡◌, ◌+◌, ℕ, List, [], length, map, IfOk, OnOk};
ghost use Rattle.std.specs.List.{list_any, flat_map};
ghost use Rattle.fb_script.specs.Allowed.{tasks, terms_of};
ghost use Rattle.fb_puts.specs.Asked.{asked, ranges_in, request_range};
ghost use Rattle.fb_puts.specs.Ranges.{share};

use crate::range::SectorRange;
use fb_script::{Action, Call, Calls};
use fb_trace::Trace;
use fb_units::{NoMemory, Request};
use std::alloc::Global;

/// The block size of each task of a script, in sectors, in order of opening.
pub fn block_sizes(alloc: Global, calls: &Calls) -> Result<Vec<u32>, NoMemory>
    ensures { IfOk result (λ sizes. sizes.items ≡ map (λ terms. terms.block) (tasks calls.now.calls.items)) }
{
    let mut sizes = Vec::new(alloc);
    for call in &calls.calls {
        if let Action::Open { block, .. } = call.action {
            sizes.push(block)?;
        }
    }
    Ok(sizes)
}

/// Whether a range shares a sector with a request of the trace, or with the range of a want, a
/// promote or a segment of the script, whose tasks have these block sizes.
pub fn is_touched(range: SectorRange, trace: &Trace, calls: &Calls, sizes: &[u32]) -> bool
    requires { sizes.now ≡ map (λ terms. terms.block) (tasks calls.now.calls.items) }
    ensures { result ≡ list_any (share range) (asked trace.now.requests.items calls.now.calls.items) }
{
    is_requested(range, &trace.requests) || is_called(range, &calls.calls, sizes)
}

fn is_requested(range: SectorRange, requests: &[Request]) -> bool
    ensures { result ≡ list_any (share range) (map request_range requests.now) }
{
    for request in requests {
        let own = SectorRange {
            first: request.lbn,
            count: request.count as u64,
        };
        if range.shares(own) {
            return true;
        }
    }
    false
}

fn is_called(range: SectorRange, calls: &[Call], sizes: &[u32]) -> bool
    requires { sizes.now ≡ map (λ terms. terms.block) (tasks calls.now) }
    ensures { result ≡ list_any (share range) (flat_map (λ call. ranges_in (terms_of calls.now call.task).block call.action) calls.now) }
{
    for call in calls {
        if is_in_call(range, call, sizes) {
            return true;
        }
    }
    false
}

// Whether the range shares a sector with that of a call.
fn is_in_call(range: SectorRange, call: &Call, sizes: &[u32]) -> bool
    ensures { (calls : List _) → sizes.now ≡ map (λ terms. terms.block) (tasks calls)
        → result ≡ list_any (share range) (ranges_in (terms_of calls call.now.task).block call.now.action) }
{
    match call.action {
        Action::Want { first, count } => range.shares(SectorRange { first, count }),
        Action::Promote { first, count } => range.shares(SectorRange {
            first,
            count: count as u64,
        }),
        Action::Segment { first, blocks, .. } => {
            let size = block_size(sizes, call.task);
            range.shares(SectorRange {
                first,
                count: blocks as u64 * size as u64,
            })
        }
        Action::Open { .. }
        | Action::Abort { .. }
        | Action::Suspend
        | Action::Resume
        | Action::Close => false,
    }
}

// The block size of a task.
fn block_size(sizes: &[u32], task: u32) -> u32
    ensures { (calls : List _) → sizes.now ≡ map (λ terms. terms.block) (tasks calls) → result ≡ (terms_of calls task).block }
{
    match sizes.get(task as usize) {
        Some(size) => *size,
        None => 1,
    }
}
