// The two sides of the arm.
ghost use Rattle.fb_fastq.specs.Sides.{on_side};

/// The side of the arm on which a walk goes outwards.
#[derive(Clone, Copy)]
pub enum Side {
    /// Upwards, from the head's own cylinder on.
    Above,
    /// Downwards, from the cylinder before the head's on.
    Below,
}

impl Side {
    /// Takes the next item outwards from those that are left, which ascend: above the first of them,
    /// and below the last.
    pub fn next<I: DoubleEndedIterator>(self, left: &mut I) -> Option<I::Item>
        requires front { I.can_next left.old }
        requires back { I.can_next_back left.old }
        ensures { on_side self (I.next_gives left.old result left.new) (I.next_back_gives left.old result left.new) }
    {
        match self {
            Side::Above => left.next(),
            Side::Below => left.next_back(),
        }
    }
}
