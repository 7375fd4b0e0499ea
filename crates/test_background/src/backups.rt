// A backup of four sectors in two blocks: the first block is delivered, overwritten by the first
// request, and delivered again.
ghost use Rattle.std.specs.Prelude.{◌≡◌, ℕ, IfOk, cond, ◌==◌};
ghost use Rattle.fb_store.specs.declared.content.Content.{Content};
ghost use Rattle.fb_store.specs.Sparse.{Gives};

use fb_backup::Image;
use fb_store::{Content, ContentRun, Contents};
use fb_units::{NoMemory, Sweep, Track};
use fb_wanted::Block;
use std::alloc::Global;
use std::process::Abort;
use std::test::Fail;

// The contents of two neighbouring sectors.
fn pair(alloc: Global, lbn: u32, content: Content, next: Content) -> Result<Contents, NoMemory>
    ensures gives { IfOk result (λ contents. Gives contents (λ l. cond (l == lbn) content next) lbn 2) }
{
    let first = lbn as u64;
    let mut contents = Contents::new(alloc);
    contents.push(ContentRun {
        first,
        count: 1,
        content,
    })?;
    contents.push(ContentRun {
        first: first + 1,
        count: 1,
        content: next,
    })?;
    Ok(contents)
}

fn block(lbn: u32) -> Block
    ensures { (result.lbn ≡ lbn) × (result.count ≡ 2) }
{
    Block {
        task: 0,
        index: 0,
        lbn: lbn as u64,
        count: 2,
        track: Track {
            cylinder: 0,
            head: 0,
        },
        weight: 1,
        sweep: Sweep {
            begin: 0,
            length: 100,
        },
    }
}

fn take(
    alloc: Global,
    image: &mut Image,
    lbn: u32,
    content: Content,
    next: Content,
) -> Result<(), NoMemory> {
    let contents = pair(alloc, lbn, content, next)?;
    image.take(block(lbn), &contents)
}

fn runs(alloc: Global, image: &Image) -> Result<Vec<(u64, u64, Content)>, NoMemory> {
    let contents = image.contents(alloc)?;
    let mut runs = Vec::new(alloc);
    for i in 0..contents.len() {
        let run = contents.get(i);
        runs.push((run.first, run.count, run.content))?;
    }
    Ok(runs)
}

const OLD: Content = Content::Filled(0);

const NEW: Content = Content::Filled(1);

const FIRST_OLD: &[(u64, u64, Content)] = &[(0, 2, OLD)];

const SECOND_OLD: &[(u64, u64, Content)] = &[(2, 2, OLD)];

const ONE_NEW: &[(u64, u64, Content)] = &[(0, 1, NEW), (1, 3, OLD)];

fn check_runs(
    rt: &impl Abort,
    alloc: Global,
    image: &Image,
    expected: &[(u64, u64, Content)],
) -> Result<(), Fail> {
    let runs = runs(alloc, image)?;
    assert_eq!(rt; runs.as_slice(), expected);
    Ok(())
}

#[test]
fn holds_what_was_delivered_last(rt: HostRuntime) -> Result<(), Fail> {
    let mut image = Image::new(rt.alloc());
    check_image(&rt, rt.alloc(), &mut image)
}

fn check_image(rt: &impl Abort, alloc: Global, image: &mut Image) -> Result<(), Fail> {
    take(alloc, image, 0, OLD, OLD)?;
    check_runs(rt, alloc, image, FIRST_OLD)?;
    image.drop_range(0, 2)?;
    take(alloc, image, 2, OLD, OLD)?;
    check_runs(rt, alloc, image, SECOND_OLD)?;
    take(alloc, image, 0, NEW, OLD)?;
    check_runs(rt, alloc, image, ONE_NEW)
}
