// Ranges of sectors.
ghost use Rattle.std.specs.Prelude.{◌≡◌, ◌+◌, ◌≤◌, ◌^◌, true};
ghost use Rattle.fb_puts.specs.Ranges.{lies_in, share};

/// Sectors that follow one another.
#[derive(Clone, Copy)]
pub struct SectorRange {
    /// The first sector.
    pub first: u64,
    /// The number of sectors.
    pub count: u64,
}

impl SectorRange {
    /// Whether the two ranges have a sector in common.
    pub fn shares(self, other: SectorRange) -> bool
        ensures { result ≡ share self other }
    {
        if self.first <= other.first {
            other.count > 0 && other.first - self.first < self.count
        } else {
            self.count > 0 && self.first - other.first < other.count
        }
    }

    /// Whether this range ends before the other one begins.
    pub fn ends_before(self, other: SectorRange) -> bool
        ensures { result ≡ true → self.first + self.count ≤ other.first }
    {
        self.first <= other.first && self.count <= other.first - self.first
    }

    /// Whether all sectors of this range are in another one.
    pub fn lies_in(self, other: SectorRange) -> bool
        requires fits { self.first + self.count ≤ 2 ^ 63 }
        requires other_fits { other.first + other.count ≤ 2 ^ 63 }
        ensures { result ≡ lies_in self other }
    {
        other.first <= self.first && self.first + self.count <= other.first + other.count
    }
}
