// Where and when a service starts.
use fb_units::{Ns, Request, Track};

/// The start of a service: what is served, and from where and when.
#[derive(Clone, Copy)]
pub struct Start {
    /// The track on which the head is.
    pub head: Track,
    /// The instant, in ns, at which the service starts.
    pub instant: Ns,
    /// The request.
    pub request: Request,
}
