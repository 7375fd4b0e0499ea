// One segment of a log.
ghost use Rattle.std.specs.Prelude.{◌≡◌, ◌==◌, ◌+◌, ◌*◌, ◌-◌, ◌<◌, ◌≤◌, ◌^◌, true, length, IfOk};
ghost use Rattle.std.specs.List.{AllByRecursion};
ghost use Rattle.fb_clean.specs.Segments.{LogSegment, cost, live_blocks, no_longer_waiting};
ghost use Rattle.fb_clean.specs.Ranks.{ratio, rank};

use fb_script::Live;
use fb_units::NoMemory;
use std::alloc::Global;
use std::marker::Model;

// Ratios are counted in this part of one: two of them that differ do so by at least that much, since no
// cost is above 8,192 blocks.
const PARTS: u128 = 1 << 26;

// From one ratio to the next lie the ranks of all numbers.
const RATIO_STEP: u128 = 1 << 32;

/// The number of the segment that has this rank.
pub fn number_of(code: u128) -> u32
    requires { (segment : LogSegment) × (segment.number < 2 ^ 32) × (code ≡ rank segment) }
    ensures { (segment : LogSegment) → segment.number < 2 ^ 32 → code ≡ rank segment → result ≡ segment.number }
{
    u32::MAX - (code % RATIO_STEP) as u32
}

/// A segment of a log, with its live blocks.
#[derive(Drop)]
pub struct Segment {
    number: u32,
    blocks: u32,
    age: u64,
    live: Vec<u64>,
    waits: bool,
}

impl Model for Segment {
    ghost use Rattle.std.specs.Prelude.{length, ◌≤◌};
    ghost use Rattle.fb_clean.specs.Segments.{LogSegment};

    ghost Value = { LogSegment };

    ghost view = { λ s. record { number = s.number; blocks = s.blocks; age = s.age; live = s.live.items; waits = s.waits } };

    ghost invariant = { λ s. (length s.live.items ≤ s.blocks) × (s.blocks ≤ 4096) };
}

impl Segment {
    /// A segment that is still to be chosen.
    ///
    /// Its blocks of `block` sectors each lie end to end from LBN `first` on; `live` says of each
    /// whether it is live. `age` may have any unit that all segments of the session share. The only
    /// error is out of memory.
    pub fn new(
        alloc: Global,
        number: u32,
        first: u64,
        block: u32,
        age: u64,
        live: &Live,
    ) -> Result<Segment, NoMemory>
        requires few { length live.now ≤ 4096 }
        requires range { first + length live.now * block ≤ 10 ^ 12 }
        ensures value { IfOk result (λ segment. segment
            ≡ record { number = number; blocks = length live.now; age = age; live = live_blocks block first live.now; waits = true }) }
        ensures within { IfOk result (λ segment. AllByRecursion (λ lbn. lbn + block ≤ 10 ^ 12) segment.live) }
    {
        Ok(Segment {
            number,
            blocks: live.len() as u32,
            age,
            live: live_lbns(alloc, first, block, live)?,
            waits: true,
        })
    }

    /// Whether the segment is still to be chosen.
    pub fn waits(&self) -> bool
        ensures { result ≡ self.now.waits }
    {
        self.waits
    }

    /// The first LBN of each live block, ascending.
    pub fn live(&self) -> &[u64]
        ensures value { result.now ≡ self.now.live }
        ensures few { length result.now ≤ 4096 }
    {
        &self.live
    }

    /// Removes the segment from those still to be chosen: it is chosen now, or dropped.
    pub fn stop_waiting(&mut self)
        ensures { self.new ≡ no_longer_waiting self.old }
    {
        self.waits = false;
    }

    /// Whether the segment has no blocks at all, and so no ratio of benefit to cost.
    pub fn is_empty(&self) -> bool
        ensures { result ≡ (cost self.now == 0) }
    {
        self.cost() == 0
    }

    /// Greater for a greater ratio of benefit to cost, and where that is the same for the smaller number.
    pub fn rank(&self) -> u128
        ensures { result ≡ rank self.now }
    {
        self.ratio() * RATIO_STEP + (u32::MAX - self.number) as u128
    }

    // The ratio of benefit to cost in whole parts: the benefit are the free blocks times the age.
    fn ratio(&self) -> u128
        ensures value { result ≡ ratio self.now }
        ensures small { result < 2 ^ 90 }
    {
        self.free() * self.age as u128 * PARTS / self.cost().max(1)
    }

    // How many blocks are not live.
    fn free(&self) -> u128
        ensures value { result ≡ self.now.blocks - length self.now.live }
        ensures few { result ≤ 4096 }
    {
        (self.blocks - self.live.len() as u32) as u128
    }

    // The cost in blocks: all are read, and the live ones are written again.
    fn cost(&self) -> u128
        ensures value { result ≡ self.now.blocks + length self.now.live }
        ensures few { result ≤ 8192 }
    {
        (self.blocks + self.live.len() as u32) as u128
    }
}

// The first LBN of each live block, ascending. The only error is out of memory.
fn live_lbns(alloc: Global, first: u64, block: u32, live: &Live) -> Result<Vec<u64>, NoMemory>
    requires { first + length live.now * block ≤ 10 ^ 12 }
    ensures { IfOk result (λ lbns. lbns.items ≡ live_blocks block first live.now) }
{
    let mut lbns = Vec::new(alloc);
    let mut lbn = first;
    for i in 0..live.len() {
        if *live.get(i) {
            lbns.push(lbn)?;
        }
        lbn += block as u64;
    }
    Ok(lbns)
}
