// Reads before writes, and a replay in that order.
ghost use Rattle.std.specs.Prelude.{IfOk};
ghost use Rattle.fb_model.specs.Accepted.{IsAccepted};
ghost use Rattle.fb_model.specs.FullRun.{IsFull};
ghost use Rattle.fb_decide.specs.RunInputs.{run_inputs};
ghost use Rattle.fb_own_policy.specs.ReadsFirst.{reads_first};

use fb_detour::IndexedPlanner;
use fb_engine::replay;
use fb_queue::{Keyed, Policy};
use fb_rows::Run;
use fb_script::Calls;
use fb_service::Disk;
use fb_trace::Trace;
use fb_units::{NoMemory, Ns, Request, Track};
use std::alloc::Global;

/// Reads before writes: the key is 0 for a read, and 1 for a write.
///
/// Of several reads the one that joined first is taken, and of several writes likewise. A write may
/// wait for as long as reads go on arriving.
#[derive(Clone, Copy, Debug, Default, PartialEq, Eq)]
pub struct ReadsFirst;

impl Policy for ReadsFirst {
    ghost key = { reads_first };

    fn key_of(&self, _disk: &Disk, _head: Track, _now: Ns, request: &Request) -> u64 {
        if request.write { 1 } else { 0 }
    }
}

/// Replays a trace and a call script on a disk with these unreadable sectors, reads before writes, with
/// the best plan in every gap. While nothing else is left to do, the head goes on reading background up
/// to the instant `until`, in ns, at most 10^15.
///
/// The only error is out of memory.
pub fn replay_reads_first(
    alloc: Global,
    disk: &Disk,
    latent: &[u64],
    trace: &Trace,
    calls: &Calls,
    until: Ns,
) -> Result<Run, NoMemory>
    requires accepted { IsAccepted (run_inputs disk.now latent.now trace.now calls.now until reads_first) }
    ensures full { IfOk result (IsFull (run_inputs disk.now latent.now trace.now calls.now until reads_first)) }
{
    let queue: Keyed<ReadsFirst> = Keyed::new(alloc);
    let planner = &IndexedPlanner::new();
    replay(alloc, disk, latent, trace, calls, queue, planner, until)
}
