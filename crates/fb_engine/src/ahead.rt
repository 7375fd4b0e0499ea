// That no decision of a replay looks ahead.
ghost use Rattle.std.specs.Prelude.{◌<◌};
ghost use Rattle.fb_decide.specs.RunInputs.{run_inputs};
ghost use Rattle.fb_model.specs.Accepted.{IsAccepted};
ghost use Rattle.fb_model.specs.FullRun.{IsFull};
ghost use Rattle.fb_model.specs.Known.{AgreeUpTo, SameKnown};

use fb_model::nothing_looks_ahead;
use fb_queue::Queue;
use fb_rows::Run;
use fb_script::Calls;
use fb_service::Disk;
use fb_trace::Trace;
use fb_units::Ns;

/// A law, which does nothing: where two runs on one disk are the full runs of their accepted inputs, in
/// the order of one queue, and the inputs agree up to an instant `t`, in ns, before both ends, what is
/// known of the runs by that instant is the same. So no decision looks at a request or a call that has
/// not yet come. The two ends `until` may differ.
pub fn no_look_ahead<Q: Queue>(
    disk: &Disk,
    latent: &[u64],
    trace_a: &Trace,
    calls_a: &Calls,
    until_a: Ns,
    run_a: &Run,
    trace_b: &Trace,
    calls_b: &Calls,
    until_b: Ns,
    run_b: &Run,
    t: Ns,
)
    requires accepted_a { IsAccepted (run_inputs disk.now latent.now trace_a.now calls_a.now until_a Q.key) }
    requires accepted_b { IsAccepted (run_inputs disk.now latent.now trace_b.now calls_b.now until_b Q.key) }
    requires full_a { IsFull (run_inputs disk.now latent.now trace_a.now calls_a.now until_a Q.key) run_a.now }
    requires full_b { IsFull (run_inputs disk.now latent.now trace_b.now calls_b.now until_b Q.key) run_b.now }
    requires before_a { t < run_a.now.end }
    requires before_b { t < run_b.now.end }
    requires agree { AgreeUpTo t (run_inputs disk.now latent.now trace_a.now calls_a.now until_a Q.key)
        (run_inputs disk.now latent.now trace_b.now calls_b.now until_b Q.key) }
    ensures { SameKnown t run_a.now run_b.now }
{
    disk.map.geometry().sound();
    nothing_looks_ahead();
}
