// A choice worked out by hand: the first segment has four blocks, two of them live, and age 10; the
// second has four blocks, one of them live, and age 9.
ghost use Rattle.std.specs.Prelude.{◌≡◌, ◌≢◌, ℕ, None, length, IfOk, []};
ghost use Rattle.fb_store.specs.declared.content.Content.TheVariants.{Filled};
ghost use Rattle.fb_store.specs.Sparse.{Gives};

use fb_clean::Segments;
use fb_script::Live;
use fb_store::{Content, ContentRun, Contents};
use fb_units::{NoMemory, Sweep, Track};
use fb_wanted::Block;
use std::alloc::Global;
use std::process::Abort;
use std::test::Fail;

const FIRST: [bool; 4] = [true, false, true, false];

const SECOND: [bool; 4] = [false, true, false, false];

fn live(alloc: Global, blocks: [bool; 4]) -> Result<Live, NoMemory>
    ensures { IfOk result (λ live. length live ≡ 4) }
{
    let mut live = Live::new(alloc);
    live.push(blocks[0])?;
    live.push(blocks[1])?;
    live.push(blocks[2])?;
    live.push(blocks[3])?;
    Ok(live)
}

// The content of one sector that nobody wrote.
fn sector(alloc: Global, lbn: u32) -> Result<Contents, NoMemory>
    ensures gives { IfOk result (λ contents. Gives contents (λ l. Filled 0) lbn 1) }
{
    let mut contents = Contents::new(alloc);
    contents.push(ContentRun {
        first: lbn as u64,
        count: 1,
        content: Content::Filled(0),
    })?;
    Ok(contents)
}

fn block(lbn: u32) -> Block
    ensures { (result.lbn ≡ lbn) × (result.count ≡ 1) }
{
    Block {
        task: 0,
        index: 0,
        lbn: lbn as u64,
        count: 1,
        track: Track {
            cylinder: 0,
            head: 0,
        },
        weight: 1,
        sweep: Sweep {
            begin: 0,
            length: 100,
        },
    }
}

fn take_all(alloc: Global, segments: &mut Segments, blocks: &[u32]) -> Result<(), NoMemory>
    requires { segments.old.unfinished ≢ None }
    ensures { (segments.new.segments ≡ segments.old.segments) × (segments.new.unfinished ≡ segments.old.unfinished) }
{
    for lbn in blocks {
        let content = sector(alloc, *lbn)?;
        segments.take(block(*lbn), &content)?;
    }
    Ok(())
}

// Chooses a segment, takes these blocks for it and finishes it; returns its number and the packed
// contents.
fn clean_next(
    alloc: Global,
    segments: &mut Segments,
    blocks: &[u32],
) -> Result<Option<(u32, Contents)>, NoMemory> {
    match segments.choose() {
        None => Ok(None),
        Some(number) => {
            take_all(alloc, segments, blocks)?;
            let packed = segments.packed(alloc, number)?;
            segments.finish(number);
            Ok(Some((number, packed)))
        }
    }
}

fn runs(alloc: Global, contents: &Contents) -> Result<Vec<(u64, u64)>, NoMemory> {
    let mut runs = Vec::new(alloc);
    for i in 0..contents.len() {
        let run = contents.get(i);
        runs.push((run.first, run.count))?;
    }
    Ok(runs)
}

// The blocks that are taken for a segment, its number, and the runs of the packed contents.
struct Cleaned {
    blocks: &'static [u32],
    number: u32,
    packed: &'static [(u64, u64)],
}

const CLEANED: &[Cleaned] = &[
    Cleaned {
        blocks: &[5],
        number: 2,
        packed: &[(5, 1)],
    },
    Cleaned {
        blocks: &[2, 0],
        number: 1,
        packed: &[(0, 1), (2, 1)],
    },
];

// Cleans the segment that is chosen next, and checks what is packed.
fn check_next(
    rt: &impl Abort,
    alloc: Global,
    segments: &mut Segments,
    cleaned: &Cleaned,
) -> Result<(), Fail> {
    match clean_next(alloc, segments, cleaned.blocks)? {
        Some((number, contents)) => {
            assert_eq!(rt; number, cleaned.number);
            assert_eq!(rt; runs(alloc, &contents)?.as_slice(), cleaned.packed);
        }
        None => assert!(rt; false, "a segment is left"),
    }
    Ok(())
}

#[test]
fn cleans_the_second_segment_first(rt: HostRuntime) -> Result<(), Fail> {
    let mut segments = Segments::new(rt.alloc(), 1);
    check_cleaning(&rt, rt.alloc(), &mut segments)
}

// Adds both segments, and checks how they are cleaned.
fn check_cleaning(rt: &impl Abort, alloc: Global, segments: &mut Segments) -> Result<(), Fail>
    requires block { segments.old.block ≡ 1 }
    requires none { segments.old.segments ≡ [] }
{
    segments.add(0, 4, 10, &live(alloc, FIRST)?)?;
    segments.add(4, 4, 9, &live(alloc, SECOND)?)?;
    assert_eq!(rt; segments.live_count(1), 2);
    for cleaned in CLEANED {
        check_next(rt, alloc, segments, cleaned)?;
    }
    assert!(rt; segments.choose().is_none());
    Ok(())
}

#[test]
fn drops_what_is_not_chosen(rt: HostRuntime) -> Result<(), Fail> {
    let mut segments = Segments::new(rt.alloc(), 1);
    check_drop(&rt, rt.alloc(), &mut segments)
}

fn check_drop(rt: &impl Abort, alloc: Global, segments: &mut Segments) -> Result<(), Fail>
    requires block { segments.old.block ≡ 1 }
    requires none { segments.old.segments ≡ [] }
{
    segments.add(0, 4, 10, &live(alloc, FIRST)?)?;
    segments.drop_rest();
    assert!(rt; segments.choose().is_none());
    Ok(())
}
