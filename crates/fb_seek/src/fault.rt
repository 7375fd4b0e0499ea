/// Why a seek table is refused. If several reasons hold, the first in this order is returned.
#[derive(Clone, Copy, Debug)]
pub enum SeekFault {
    /// The table is empty.
    NoPoints,
    /// The first distance isn't 1.
    FirstNotOne,
    /// The index, from 0, of the first point whose distance isn't above that of the one before it.
    DistanceNotRising(u32),
    /// The index, from 0, of the first point whose time is below that of the one before it.
    TimeFalls(u32),
    /// The last distance is less than that from the first cylinder to the last.
    TooShort,
    /// There are more than 4,096 points, or a number is out of its range: times of points 1 to
    /// 10^9 ns, head switch and settle 0 to 10^9 ns, cylinders 1 to 1,000,000.
    OutOfRange,
}
