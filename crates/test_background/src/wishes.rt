// Each call once, over the blocks of one task, of which the last lies before the first on the disk,
// and one block of another task.
ghost use Rattle.std.specs.Prelude.{◌≡◌, ◌<◌, []};

use fb_units::{Sweep, Track};
use fb_wanted::{BAND, Block, State, Wanted};
use std::process::Abort;
use std::test::Fail;

const NEAR: Track = Track {
    cylinder: 0,
    head: 1,
};

const FAR: Track = Track {
    cylinder: 64,
    head: 0,
};

const SWEEP: Sweep = Sweep {
    begin: 0,
    length: 400,
};

const FIRST: Block = Block {
    task: 0,
    index: 0,
    lbn: 12,
    count: 4,
    track: NEAR,
    weight: 1,
    sweep: SWEEP,
};

const SECOND: Block = Block {
    task: 0,
    index: 1,
    lbn: 16,
    count: 4,
    track: NEAR,
    weight: 2,
    sweep: SWEEP,
};

const OTHER: Block = Block {
    task: 1,
    index: 0,
    lbn: 48,
    count: 4,
    track: FAR,
    weight: 3,
    sweep: SWEEP,
};

const BEFORE: Block = Block {
    task: 0,
    index: 2,
    lbn: 8,
    count: 4,
    track: NEAR,
    weight: 1,
    sweep: SWEEP,
};

// A block on another track of the first cylinder.
const BESIDE: Block = Block {
    task: 1,
    index: 0,
    lbn: 4,
    count: 4,
    track: Track {
        cylinder: 0,
        head: 3,
    },
    weight: 5,
    sweep: SWEEP,
};

// Another task wants the first block too.
const AGAIN: Block = Block {
    task: 1,
    index: 0,
    lbn: 12,
    count: 4,
    track: NEAR,
    weight: 3,
    sweep: SWEEP,
};

const LAST: Block = Block {
    task: 2,
    index: 0,
    lbn: 40,
    count: 4,
    track: Track {
        cylinder: 63,
        head: 1,
    },
    weight: 3,
    sweep: SWEEP,
};

// A block three bands behind the last one.
const BEHIND: Block = Block {
    task: 3,
    index: 0,
    lbn: 900,
    count: 4,
    track: Track {
        cylinder: 255,
        head: 2,
    },
    weight: 1,
    sweep: SWEEP,
};

fn check_weight(rt: &impl Abort, wanted: &Wanted, expected: u64) {
    assert_eq!(rt; wanted.wanted_weight_on(NEAR), expected);
}

// Checks the counts of the first task: registered, delivered and aborted.
fn check_counts(rt: &impl Abort, wanted: &Wanted, expected: (u32, u32, u32)) {
    let counts = wanted.counts(0);
    let told = (counts.registered, counts.delivered, counts.aborted);
    assert_eq!(rt; told, expected);
}

fn check_greatest(rt: &impl Abort, wanted: &Wanted, from: u32, end: u32, expected: u64)
    requires { from < end }
{
    let greatest = wanted.greatest_weight_in(from, end);
    assert_eq!(rt; greatest, expected, "from {from} to {end}");
}

fn check_depth(rt: &impl Abort, wanted: &Wanted, band: u32, expected: u64) {
    assert_eq!(rt; wanted.depth_in(band), expected, "band {band}");
}

// Checks how many blocks are aborted.
fn check_aborted(rt: &impl Abort, aborted: u64, expected: u64) {
    assert_eq!(rt; aborted, expected);
}

#[test]
fn a_range_reaches_blocks_of_two_wants(rt: HostRuntime) -> Result<(), Fail> {
    let mut wanted = Wanted::new(rt.alloc());
    check_range(&rt, &mut wanted)
}

// Aborts a range of two blocks, and wants another again.
fn check_range(rt: &impl Abort, wanted: &mut Wanted) -> Result<(), Fail>
    requires { wanted.old ≡ [] }
{
    wanted.register(FIRST, false)?;
    wanted.register(SECOND, false)?;
    wanted.register(BEFORE, false)?;
    check_aborted(rt, wanted.abort(0, 11, 2), 2);
    check_weight(rt, wanted, 8);
    wanted.deliver(0, 1);
    check_weight(rt, wanted, 0);
    check_counts(rt, wanted, (3, 1, 2));
    wanted.rewant(0, 15, 2, false);
    check_weight(rt, wanted, 8);
    check_counts(rt, wanted, (3, 0, 2));
    assert_eq!(rt; wanted.on(FAR).len(), 0);
    Ok(())
}

#[test]
fn a_block_is_delivered(rt: HostRuntime) -> Result<(), Fail> {
    let mut wanted = Wanted::new(rt.alloc());
    check_delivery(&rt, &mut wanted)
}

// Delivers a block that is then wanted again.
fn check_delivery(rt: &impl Abort, wanted: &mut Wanted) -> Result<(), Fail>
    requires { wanted.old ≡ [] }
{
    wanted.register(FIRST, false)?;
    assert_eq!(rt; wanted.state(0, 0), State::Wanted);
    check_greatest(rt, wanted, 0, 1, 4);
    wanted.deliver(0, 0);
    check_weight(rt, wanted, 0);
    check_greatest(rt, wanted, 0, 1, 0);
    wanted.rewant(0, 15, 9, true);
    check_weight(rt, wanted, 0);
    wanted.resume(0);
    check_weight(rt, wanted, 4);
    Ok(())
}

#[test]
fn blocks_of_two_tasks(rt: HostRuntime) -> Result<(), Fail> {
    let mut wanted = Wanted::new(rt.alloc());
    check_two_tasks(&rt, &mut wanted)
}

// Registers three blocks, one of them held back.
fn check_two_tasks(rt: &impl Abort, wanted: &mut Wanted) -> Result<(), Fail>
    requires { wanted.old ≡ [] }
{
    wanted.register(FIRST, false)?;
    wanted.register(SECOND, true)?;
    wanted.register(OTHER, false)?;
    check_resumed(rt, wanted);
    check_suspended(rt, wanted);
    Ok(())
}

// Checks the weights before and after the first task goes on.
fn check_resumed(rt: &impl Abort, wanted: &mut Wanted) {
    check_greatest(rt, wanted, 0, BAND, 4);
    wanted.resume(0);
    check_weight(rt, wanted, 12);
    check_greatest(rt, wanted, 0, BAND, 12);
    check_greatest(rt, wanted, 1, BAND, 0);
    check_greatest(rt, wanted, BAND, BAND + 1, 12);
    check_greatest(rt, wanted, 2 * BAND, 4 * BAND, 0);
}

// Checks the near track once its first block is aborted and its second one held back.
fn check_suspended(rt: &impl Abort, wanted: &mut Wanted) {
    check_aborted(rt, wanted.abort(0, 8, 5), 1);
    check_weight(rt, wanted, 8);
    wanted.suspend(0);
    check_weight(rt, wanted, 0);
    check_second(rt, wanted);
    check_first(rt, wanted);
}

fn check_second(rt: &impl Abort, wanted: &Wanted) {
    assert_eq!(rt; wanted.registered_on(NEAR), 2);
    assert_eq!(rt; wanted.block_on(NEAR, 1), SECOND);
}

fn check_first(rt: &impl Abort, wanted: &Wanted) {
    let near = wanted.on(NEAR);
    assert_eq!(rt; near.len(), 2);
    assert_eq!(rt; near.wanted_weight(), 0);
    let first = near.get(0);
    assert_eq!(rt; first.block, FIRST);
    assert_eq!(rt; first.state, State::Aborted);
}

#[test]
fn the_greatest_of_a_cylinder_falls(rt: HostRuntime) -> Result<(), Fail> {
    let mut wanted = Wanted::new(rt.alloc());
    check_fall(&rt, &mut wanted)
}

// Delivers the heaviest block of a cylinder.
fn check_fall(rt: &impl Abort, wanted: &mut Wanted) -> Result<(), Fail>
    requires { wanted.old ≡ [] }
{
    wanted.register(FIRST, false)?;
    wanted.register(BESIDE, false)?;
    wanted.register(LAST, false)?;
    check_greatest(rt, wanted, 0, 1, 20);
    check_greatest(rt, wanted, 0, 200, 20);
    wanted.deliver(1, 0);
    check_fallen(rt, wanted);
    wanted.rewant(1, 4, 1, false);
    check_greatest(rt, wanted, 0, 1, 20);
    Ok(())
}

// Checks the weights once the greatest of the first cylinder is delivered.
fn check_fallen(rt: &impl Abort, wanted: &mut Wanted) {
    check_greatest(rt, wanted, 0, 1, 4);
    check_greatest(rt, wanted, 0, 63, 4);
    check_greatest(rt, wanted, 0, 64, 12);
    check_greatest(rt, wanted, 1, 200, 12);
    check_greatest(rt, wanted, 64, 200, 0);
    wanted.suspend(2);
    check_greatest(rt, wanted, 1, 200, 4);
}

#[test]
fn a_sector_lies_in_blocks_of_two_tasks(rt: HostRuntime) -> Result<(), Fail> {
    let mut wanted = Wanted::new(rt.alloc());
    check_sector(&rt, &mut wanted)
}

// Registers the same sectors for two tasks.
fn check_sector(rt: &impl Abort, wanted: &mut Wanted) -> Result<(), Fail>
    requires { wanted.old ≡ [] }
{
    check_depth(rt, wanted, 0, 0);
    wanted.register(FIRST, false)?;
    wanted.deliver(0, 0);
    check_depth(rt, wanted, 0, 1);
    wanted.register(AGAIN, true)?;
    check_depth(rt, wanted, 0, 4);
    wanted.register(SECOND, false)?;
    wanted.register(LAST, false)?;
    check_depth(rt, wanted, 0, 4);
    check_depth(rt, wanted, 1, 0);
    Ok(())
}

#[test]
fn tracks_without_blocks_are_passed_over(rt: HostRuntime) -> Result<(), Fail> {
    let mut wanted = Wanted::new(rt.alloc());
    check_tracks(&rt, &mut wanted)
}

// Registers blocks of four tracks, one of them delivered.
fn check_tracks(rt: &impl Abort, wanted: &mut Wanted) -> Result<(), Fail>
    requires { wanted.old ≡ [] }
{
    check_registered(rt, wanted, (0, 0), None);
    wanted.register(FIRST, false)?;
    wanted.deliver(0, 0);
    wanted.register(BESIDE, true)?;
    wanted.register(LAST, false)?;
    wanted.register(BEHIND, false)?;
    check_near_tracks(rt, wanted);
    check_far_tracks(rt, wanted);
    Ok(())
}

fn check_near_tracks(rt: &impl Abort, wanted: &Wanted) {
    check_registered(rt, wanted, (0, 0), Some((0, 1)));
    check_registered(rt, wanted, (0, 1), Some((0, 1)));
    check_registered(rt, wanted, (0, 2), Some((0, 3)));
    check_registered(rt, wanted, (0, 4), Some((63, 1)));
    check_registered(rt, wanted, (1, 9), Some((63, 1)));
}

fn check_far_tracks(rt: &impl Abort, wanted: &Wanted) {
    check_registered(rt, wanted, (63, 2), Some((255, 2)));
    check_registered(rt, wanted, (64, 0), Some((255, 2)));
    check_registered(rt, wanted, (255, 2), Some((255, 2)));
    check_registered(rt, wanted, (255, 3), None);
    check_registered(rt, wanted, (u32::MAX, u32::MAX), None);
}

// Expects this track to be the next one with a block; tracks are pairs of a cylinder and a head.
fn check_registered(
    rt: &impl Abort,
    wanted: &Wanted,
    from: (u32, u32),
    expected: Option<(u32, u32)>,
) {
    let (cylinder, head) = from;
    let next = match wanted.next_registered_track(Track { cylinder, head }) {
        Some(track) => Some((track.cylinder, track.head)),
        None => None,
    };
    assert_eq!(rt; next, expected, "from {cylinder} and {head}");
}
