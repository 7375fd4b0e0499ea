// The inputs of a run, lent to its replay.
use fb_script::Calls;
use fb_service::Disk;
use fb_trace::Trace;
use fb_units::Ns;

/// The accepted inputs of a run but for the order of service, which the queue has.
#[derive(Clone, Copy)]
pub struct RunInputs<'a> {
    /// The disk.
    pub disk: &'a Disk,
    /// The LBNs of the sectors that can't be read until a write has passed them.
    pub latent: &'a [u64],
    /// The requests of one device.
    pub trace: &'a Trace,
    /// The call script.
    pub calls: &'a Calls,
    /// The instant, in ns, at most 10^15, up to which the head goes on reading background when nothing
    /// else is left to do.
    pub until: Ns,
}
