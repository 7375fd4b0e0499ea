// The puts that a file asks for.
use fb_units::Ns;

/// A range of sectors that is to be written.
#[derive(Clone, Copy)]
pub struct Put {
    /// The instant from which on it may be written, in nanoseconds, at most 10^15.
    pub instant: Ns,
    /// Its first sector.
    pub first: u64,
    /// The number of its sectors, at least 1.
    pub count: u64,
}

/// A whole puts file. The reserve are the sectors that it may write.
#[derive(Drop)]
pub struct Puts {
    /// The first sector of the reserve; 0 in a file without lines.
    pub first: u64,
    /// The number of sectors of the reserve, at most 16,000,000; 0 in a file without lines.
    pub count: u64,
    /// The puts in line order, at most 100,000. Their instants don't fall, they lie in the reserve,
    /// and no two of them share a sector.
    pub puts: Vec<Put>,
}
