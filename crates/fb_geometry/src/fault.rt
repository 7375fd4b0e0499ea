// Why an outline is refused.
use fb_units::{Place, ReadError, Track};

/// Why an outline is refused. If several reasons hold, the first in this order is returned.
#[derive(Clone, Copy, Debug)]
pub enum GeometryFault {
    /// A number is out of its range (rotation 1 to 10^9 ns, 1 to 64 heads, 1 to 64 zones, cylinders
    /// up to 999,999, 1 to 10,000 sectors a track), a zone ends before it begins, its slots are
    /// shorter than a nanosecond, or its spares leave no sector for data.
    OutOfRange,
    /// The index, from 0, of the first zone that doesn't begin right behind the one before it; the
    /// first zone begins at cylinder 0.
    ZonesNotContiguous(u32),
    /// The index, from 0, of the first zone with a skew that isn't below its sectors a track.
    SkewTooLarge(u32),
    /// The first listed defect that is outside the disk.
    DefectOutside(Place),
    /// The least place that is listed twice as a defect.
    DefectTwice(Place),
    /// The least track with more defects than spares.
    TooManyDefects(Track),
    /// The first listed grown defect that is outside the disk.
    GrownOutside(Place),
    /// The least place that is listed twice as a grown defect, or both as one and as a defect.
    GrownTwice(Place),
    /// The least cylinder with more defects and grown defects together than spares.
    TooManyInCylinder(u32),
}

/// Why there is no geometry: the fault of the outline, or out of memory.
pub type GeometryError = ReadError<GeometryFault>;
