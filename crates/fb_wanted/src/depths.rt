// For each band of neighbouring cylinders, an upper bound on the weights of the blocks that share a
// sector.
ghost use Rattle.std.specs.Prelude.{◌≡◌, ℕ, ◌≤◌, ◌<◌, ◌+◌, ◌^◌, ◌==◌, [], false, length, get_or, if◌then◌else◌, OnOk};
ghost use Rattle.fb_wanted.specs.Depth.{no_depth, spare_for, deepened};

use crate::Block;
use crate::bands::add_bands;
use crate::peaks::Peaks;
use fb_units::NoMemory;
use std::alloc::Global;
use std::marker::Model;

/// An upper bound on the weights of all registered blocks of a band that have one sector in common.
///
/// A block behind the one that was registered last raises the bound only by as much as its weight
/// exceeds the spare weight. So the blocks of a task whose LBNs rise count once.
#[derive(Clone, Copy)]
pub struct Depth {
    /// The upper bound: the blocks of no sector have more weight together.
    pub most: u64,
    /// The first sector of the block that was registered last.
    pub first: u64,
    /// The number of sectors of that block.
    pub count: u32,
    /// From the end of that block on, the blocks of each sector have at least this much less weight
    /// together than the bound.
    pub spare: u32,
    /// Whether the band has a block.
    pub has_block: bool,
}

/// A band with no block.
pub const NO_DEPTH: Depth = Depth {
    most: 0,
    first: 0,
    count: 0,
    spare: 0,
    has_block: false,
};

// How much of a block's weight fits under the bound as it is.
fn spare_for(block: Block, depth: Depth) -> u32
    ensures { result ≡ spare_for block depth }
{
    if block.lbn < depth.first {
        return 0;
    }
    if block.lbn - depth.first < depth.count as u64 {
        return 0;
    }
    depth.spare
}

/// The bands up to the last one with a block.
#[derive(Drop)]
pub struct Depths {
    bands: Vec<Depth>,
    // The upper bound of each band.
    bounds: Peaks,
    // 1 for each band with a block, else 0.
    marks: Peaks,
}

impl Model for Depths {
    ghost use Rattle.std.specs.Prelude.{List};
    ghost use Rattle.fb_wanted.specs.declared.depths.Depth.{Depth};
    ghost use Rattle.fb_wanted.specs.LookUp.{AreRanked};

    ghost Value = { List Depth };

    ghost view = { λ d. d.bands.items };

    ghost invariant = { λ d. AreRanked d.bands.items d.bounds d.marks };
}

// The bound of a band with one more block.
fn deepened(block: Block, depth: Depth) -> Depth
    requires room { depth.most + block.weight < 2 ^ 64 }
    ensures { result ≡ deepened block depth }
{
    let spare = spare_for(block, depth);
    let more = block.weight.saturating_sub(spare);
    Depth {
        most: depth.most + more as u64,
        first: block.lbn,
        count: block.count,
        spare: spare + more,
        has_block: true,
    }
}

impl Depths {
    /// No band.
    pub fn new(alloc: Global) -> Self
        ensures { result ≡ [] }
    {
        Depths {
            bands: Vec::new(alloc),
            bounds: Peaks::new(alloc),
            marks: Peaks::new(alloc),
        }
    }

    /// Makes room for all bands up to this one. Bands stay as they are, also out of memory.
    pub fn add_room(&mut self, band: u32) -> Result<(), NoMemory>
        ensures stay { (k : ℕ) → get_or self.new k no_depth ≡ get_or self.old k no_depth }
        ensures there { OnOk result (band < length self.new) }
    {
        self.bounds.add_room(band)?;
        self.marks.add_room(band)?;
        add_bands(&mut self.bands, band, NO_DEPTH)
    }

    /// Adds a block to those of a band.
    pub fn deepen(&mut self, band: u32, block: Block)
        requires there { band < length self.old }
        requires room { (get_or self.old band no_depth).most + block.weight < 2 ^ 64 }
        ensures { (k : ℕ) → get_or self.new k no_depth
            ≡ (if band == k then deepened block (get_or self.old k no_depth) else get_or self.old k no_depth) }
    {
        let depth = deepened(block, self.bands[band as usize]);
        self.bands[band as usize] = depth;
        self.bounds.set(band, depth.most);
        self.marks.set(band, 1);
    }

    /// The upper bound that is kept for a band; 0 if it has no block.
    pub fn most_in(&self, band: u32) -> u64
        ensures { result ≡ (get_or self.now band no_depth).most }
    {
        match self.bands.get(band as usize) {
            Some(depth) => depth.most,
            None => 0,
        }
    }

    /// The greatest of the upper bounds that are kept for the bands from `from` up to the end; 0 if
    /// none of these has a block.
    pub fn most_among(&self, from: u32, end: u32) -> u64
        ensures each { (k : ℕ) → from ≤ k → k < end → (get_or self.now k no_depth).most ≤ result }
        ensures least { (most : ℕ) → ((k : ℕ) → from ≤ k → k < end → (get_or self.now k no_depth).most ≤ most) → result ≤ most }
    {
        self.bounds.among(from, end)
    }

    /// The first band from `from` on that may have a block: none of those passed over has one.
    pub fn next_with_block(&self, from: usize) -> usize
        requires few { from < 2 ^ 63 }
        ensures since { from ≤ result }
        ensures none { (k : ℕ) → from ≤ k → k < result → (get_or self.now k no_depth).has_block ≡ false }
    {
        self.marks.next(from)
    }
}
