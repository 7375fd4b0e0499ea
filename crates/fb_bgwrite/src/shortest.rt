// For each cylinder a lower bound on the sectors of its pending blocks.
ghost use Rattle.std.specs.Prelude.{◌≡◌, ◌⊎◌, ℕ, ◌+◌, ◌<◌, ◌≤◌, ◌==◌, [], min, if◌then◌else◌, get_or, OnOk, OnErr};
ghost use Rattle.fb_bgwrite.specs.Shortest.{AreAbove};

use fb_units::NoMemory;
use std::alloc::Global;
use std::marker::Model;

/// More sectors than a block has: the bound where no block is pending.
pub const NONE: u32 = 2_049;

// A band has so many cylinders, and a region so many bands.
const WIDTH: u32 = 32;

// The bound of each cylinder, and of each band and each region one that is no greater than those of
// its parts.
#[derive(Drop)]
pub struct Shortest {
    cylinders: Vec<u32>,
    bands: Vec<u32>,
    regions: Vec<u32>,
}

impl Model for Shortest {
    ghost use Rattle.std.specs.Prelude.{List, ℕ};
    ghost use Rattle.fb_bgwrite.specs.Shortest.{IsUnder};

    ghost Value = { List ℕ };

    ghost view = { λ s. s.cylinders.items };

    ghost invariant = { λ s. IsUnder s.bands.items s.cylinders.items × IsUnder s.regions.items s.bands.items };
}

// The least of the bounds with indexes from `from` up to the end; 2,049 if there are none.
fn least_of(bounds: &[u32], from: usize, end: usize) -> u32
    ensures each { (i : ℕ) → from ≤ i → i < end → result ≤ get_or bounds.now i 2049 }
    ensures most { result ≤ 2049 }
{
    let mut least = NONE;
    let end = end.min(bounds.len());
    if from < end {
        for bound in &bounds[from..end] {
            least = least.min(*bound);
        }
    }
    least
}

// The bound with this index.
fn bound_at(bounds: &[u32], index: u32) -> u32
    ensures { result ≡ get_or bounds.now index 2049 }
{
    match bounds.get(index as usize) {
        Some(bound) => *bound,
        None => NONE,
    }
}

// The index behind the last of these bounds, from `from` up to the end, that is no greater than
// `most`; `from` if there is none.
fn end_low(bounds: &[u32], from: u32, end: u32, most: u32) -> u32
    requires order { from ≤ end }
    requires short { most ≤ 2048 }
    ensures after { from ≤ result }
    ensures within { result ≤ end }
    ensures each { AreAbove bounds.now most result end }
{
    let mut next = end;
    while from < next && most < bound_at(bounds, next - 1) {
        next -= 1;
    }
    next
}

// Lowers the bound with this index to the number, if it is greater. Out of memory, no bound has
// changed.
fn lower(bounds: &mut Vec<u32>, index: u32, sectors: u32) -> Result<(), NoMemory>
    ensures ok { OnOk result ((k : ℕ) → get_or bounds.new.items k 2049
        ≡ (if index == k then min (get_or bounds.old.items k 2049) sectors else get_or bounds.old.items k 2049)) }
    ensures err { OnErr result ((k : ℕ) → get_or bounds.new.items k 2049 ≡ get_or bounds.old.items k 2049) }
{
    let index = index as usize;
    for _ in bounds.len()..index + 1 {
        bounds.push(NONE)?;
    }
    bounds[index] = bounds[index].min(sectors);
    Ok(())
}

impl Shortest {
    // Without any bound.
    pub fn new(alloc: Global) -> Shortest
        ensures { result ≡ [] }
    {
        Shortest {
            cylinders: Vec::new(alloc),
            bands: Vec::new(alloc),
            regions: Vec::new(alloc),
        }
    }

    // Lowers the bound of a cylinder to the sectors of a block. Out of memory, no bound has changed.
    pub fn lower(&mut self, cylinder: u32, sectors: u32) -> Result<(), NoMemory>
        ensures ok { OnOk result ((c : ℕ)
            → get_or self.new c 2049 ≡ (if cylinder == c then min (get_or self.old c 2049) sectors else get_or self.old c 2049)) }
        ensures err { OnErr result ((c : ℕ) → get_or self.new c 2049 ≡ get_or self.old c 2049) }
    {
        let band = cylinder / WIDTH;
        lower(&mut self.regions, band / WIDTH, sectors)?;
        lower(&mut self.bands, band, sectors)?;
        lower(&mut self.cylinders, cylinder, sectors)?;
        Ok(())
    }

    // Makes this number the bound of a cylinder, if it has one so far.
    pub fn renew(&mut self, cylinder: u32, sectors: u32)
        ensures { (c : ℕ) → ((c ≡ cylinder) × (get_or self.new c 2049 ≡ sectors)) ⊎ (get_or self.new c 2049 ≡ get_or self.old c 2049) }
    {
        let width = WIDTH as usize;
        let cylinder = cylinder as usize;
        let band = cylinder / width;
        let region = band / width;
        if cylinder >= self.cylinders.len() || band >= self.bands.len() {
            return;
        }
        if region >= self.regions.len() {
            return;
        }
        self.cylinders[cylinder] = sectors;
        self.bands[band] = least_of(&self.cylinders, band * width, band * width + width);
        self.regions[region] = least_of(&self.bands, region * width, region * width + width);
    }

    // The bound of a cylinder.
    pub fn at(&self, cylinder: u32) -> u32
        ensures { result ≡ get_or self.now cylinder 2049 }
    {
        bound_at(&self.cylinders, cylinder)
    }

    // Where the region of the cylinder before `end` begins, if it has no bound as low as `most`; else
    // where its band begins, if that has none; else `end`.
    fn begin_long(&self, end: u32, most: u32) -> u32
        requires some { 0 < end }
        requires short { most ≤ 2048 }
        ensures within { result ≤ end }
        ensures each { AreAbove self.now most result end }
    {
        let band = (end - 1) / WIDTH;
        if bound_at(&self.bands, band) <= most {
            return end;
        }
        if bound_at(&self.regions, band / WIDTH) <= most {
            return band * WIDTH;
        }
        band / WIDTH * (WIDTH * WIDTH)
    }

    // The end of the cylinders with a bound, if it lies between `from` and the end; else the end, or
    // `from`.
    fn known_end(&self, from: u32, end: u32) -> u32
        requires order { from ≤ end }
        ensures after { from ≤ result }
        ensures within { result ≤ end }
        ensures each { (c : ℕ) → result ≤ c → c < end → get_or self.now c 2049 ≡ 2049 }
    {
        let known = self.cylinders.len();
        if known >= end as usize {
            return end;
        }
        (known as u32).max(from)
    }

    // The cylinder behind the last one, from `from` up to the end, with a bound no greater than `most`;
    // `from` if there is none.
    pub fn end_short(&self, from: u32, end: u32, most: u32) -> u32
        requires order { from ≤ end }
        requires short { most ≤ 2048 }
        ensures after { from ≤ result }
        ensures within { result ≤ end }
        ensures each { AreAbove self.now most result end }
    {
        let mut next = self.known_end(from, end);
        while from < next {
            let begin = self.begin_long(next, most);
            if begin < next {
                next = begin.max(from);
                continue;
            }
            let band = (next - 1) / WIDTH * WIDTH;
            let found = end_low(&self.cylinders, band.max(from), next, most);
            if band.max(from) < found {
                return found;
            }
            next = found;
        }
        next
    }

    // For how many cylinders from this one on no bound is as low as `most`: up to the end of its region,
    // or else of its band; 0 if there is one in its band.
    fn long_from(&self, cylinder: u32, most: u32) -> u32
        requires short { most ≤ 2048 }
        ensures each { AreAbove self.now most cylinder (cylinder + result) }
        ensures few { result ≤ 1024 }
    {
        let band = cylinder / WIDTH;
        if bound_at(&self.bands, band) <= most {
            return 0;
        }
        if bound_at(&self.regions, band / WIDTH) <= most {
            return WIDTH - cylinder % WIDTH;
        }
        WIDTH * WIDTH - cylinder % (WIDTH * WIDTH)
    }

    // The first cylinder, from `from` up to the end, with a bound no greater than `most`; the end if
    // there is none.
    pub fn first_short(&self, from: u32, end: u32, most: u32) -> u32
        requires order { from ≤ end }
        requires short { most ≤ 2048 }
        ensures after { from ≤ result }
        ensures within { result ≤ end }
        ensures each { AreAbove self.now most from result }
    {
        let mut next = from;
        while next < end {
            let long = self.long_from(next, most);
            if long > 0 {
                next += long.min(end - next);
                continue;
            }
            if bound_at(&self.cylinders, next) <= most {
                return next;
            }
            next += 1;
        }
        next
    }
}
