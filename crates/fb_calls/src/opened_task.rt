// What the lines so far say of a task.
use fb_script::Kind;

/// The session of an opened task: its kind, its block size in sectors, whether it has wanted a
/// range, and whether it is closed.
#[derive(Clone, Copy)]
pub struct OpenedTask {
    /// What the task is for.
    pub kind: Kind,
    /// The block size, 1 to 2,048 sectors.
    pub block: u32,
    /// Whether a range was wanted.
    pub wanted: bool,
    /// Whether it is closed.
    pub closed: bool,
}
