// Large replays on a disk of 10,000 rotations a minute: they end in good time only if each decision
// looks at few requests and few tracks.
ghost use Rattle.std.specs.Prelude.{◌<◌};
ghost use Rattle.fb_desk.specs.View.{IsUnused};
ghost use Rattle.fb_desk.specs.Honest.{honest_view};

use fb_desk::HonestDesk;
use fb_scene::{LARGE, Scene, end, scripted, split, unscripted};
use fb_top::{Outcome, run_command};
use fb_units::NoMemory;
use std::alloc::Global;
use std::process::Abort;
use std::test::Fail;

// How many requests arrive at once.
const CROWD: u64 = 200_000;

// That many reads at one instant, 83 sectors apart.
fn crowd(alloc: Global) -> Result<String, NoMemory> {
    let mut text = String::new(alloc);
    for i in 0..CROWD {
        let lbn = 83 * i;
        let line = format!(in alloc; "0 0 {lbn} 8 1\n")?;
        text.push_str(line.as_str())?;
    }
    Ok(text)
}

// How many requests a command with these words serves, on an empty desk.
fn served_over(
    alloc: Global,
    desk: &mut HonestDesk,
    trace: &str,
    words: &[String],
) -> Result<usize, NoMemory>
    requires { IsUnused (honest_view desk.old) }
{
    desk.hold("k", LARGE.as_bytes())?;
    desk.hold("t", trace.as_bytes())?;
    desk.hold("c", b"0 open a plain 1 1\n0 want a 16739687 1\n")?;
    Ok(rows_of(run_command(alloc, desk, words)))
}

// How many foreground rows the outcome has; 0 where the command isn't done.
fn rows_of(outcome: Outcome) -> usize {
    match outcome {
        Outcome::Done(run) => run.fore.len(),
        _ => 0,
    }
}

// How many requests of a trace a command with these words serves.
fn served(alloc: Global, trace: &str, words: &[String]) -> Result<usize, NoMemory> {
    let mut desk = HonestDesk::new(alloc);
    served_over(alloc, &mut desk, trace, words)
}

// Checks that a crowd is served, while the disk's last sector is wanted.
fn check_crowd(rt: &impl Abort, alloc: Global, words: &str) -> Result<(), Fail> {
    let trace = crowd(alloc)?;
    let words = split(alloc, words)?;
    let rows = served(alloc, trace.as_str(), words.as_slice())?;
    assert_eq!(rt; rows, 200_000);
    Ok(())
}

#[test]
fn a_crowd_by_shortest_seek(rt: HostRuntime) -> Result<(), Fail> {
    let words = "freeblock replay --params k --trace t --policy sstf --calls c --back b";
    check_crowd(&rt, rt.alloc(), words)
}

#[test]
fn a_crowd_by_the_elevator(rt: HostRuntime) -> Result<(), Fail> {
    let words = "freeblock replay --params k --trace t --policy clook --calls c --back b";
    check_crowd(&rt, rt.alloc(), words)
}

#[test]
fn a_crowd_by_shortest_positioning(rt: HostRuntime) -> Result<(), Fail> {
    let words = "freeblock replay --params k --trace t --policy sptf --calls c --back b";
    check_crowd(&rt, rt.alloc(), words)
}

const MAKE: &str = "freeblock make --params k --trace t --calls c --number 7 --requests 2000";

const ALONE: &str = "freeblock replay --params k --trace t --policy sptf --bytes sha256";

const BOTH: &str =
    "freeblock replay --params k --trace t --policy sptf --bytes sha256 --calls c --back b";

// Checks that the script leaves the foreground as it is.
fn check_foreground(rt: &impl Abort, alloc: Global, scene: &Scene) -> Result<(), Fail>
    requires { 0 < scene.now.piece }
{
    let alone = end(alloc, scene, ALONE)?;
    assert_eq!(rt; alone.status, 0);
    assert!(rt; alone.fore.as_slice().ends_with(b"\nend 2000 0\n"));
    let both = end(alloc, scene, BOTH)?;
    assert_eq!(rt; both.status, 0);
    assert!(rt; both.fore.as_slice() == alone.fore.as_slice());
    Ok(())
}

#[test]
fn a_made_script_leaves_the_foreground(rt: HostRuntime) -> Result<(), Fail> {
    let alloc = rt.alloc();
    let scene = unscripted(LARGE.as_bytes(), b"");
    let made = end(alloc, &scene, MAKE)?;
    let trace = made.made_trace.as_slice();
    let scene = scripted(LARGE.as_bytes(), trace, made.made_calls.as_slice());
    check_foreground(&rt, alloc, &scene)
}
