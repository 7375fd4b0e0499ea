// Call scripts that are refused, and scripts that ask for the same reads.
ghost use Rattle.std.specs.Prelude.{◌<◌};

use crate::refused::check_refused;
use fb_scene::{Scene, TWELVE, disk, end, scripted, unscripted};
use std::alloc::Global;
use std::process::Abort;
use std::test::Fail;

const WORDS: &str =
    "freeblock replay --params k --trace t --policy fcfs --bytes hex --calls c --back b";

// A script, and the note with the line and the reason for which it is refused.
const REFUSED: &[(&str, &str)] = &[
    (
        "0 open a plain 1 1\n0 want a 5\n",
        "freeblock: calls: line 2: BadLine\n",
    ),
    (
        "0 open a plain 1 1\nx want a 5 1\n",
        "freeblock: calls: line 2: BadTime\n",
    ),
    (
        "0 open a plain 1 1\n0 want a 5 y\n",
        "freeblock: calls: line 2: BadNumber 5\n",
    ),
    (
        "1 open a plain 1 1\n0 want a 5 1\n",
        "freeblock: calls: line 2: OutOfOrder\n",
    ),
    (
        "0 open a plain 1 1\n0 hope a 5 1\n",
        "freeblock: calls: line 2: UnknownVerb\n",
    ),
    (
        "0 open a plain 1 1\n0 open b mirror 1 1\n",
        "freeblock: calls: line 2: UnknownKind\n",
    ),
    (
        "0 open a plain 1 1\n0 open a scrub 1 1\n",
        "freeblock: calls: line 2: TaskTaken\n",
    ),
    (
        "0 open a plain 1 1\n0 want b 5 1\n",
        "freeblock: calls: line 2: UnknownTask\n",
    ),
    (
        "0 open a plain 1 1\n0 close a\n0 close a\n",
        "freeblock: calls: line 3: Closed\n",
    ),
    (
        "0 open a plain 1 1\n0 segment a 0 4 1 a\n",
        "freeblock: calls: line 2: WrongKind\n",
    ),
    (
        "0 open a backup 1 1\n0 want a 0 1\n0 want a 0 1\n",
        "freeblock: calls: line 3: WantedTwice\n",
    ),
    (
        "0 open a plain 1 1\n0 want a 5 0\n",
        "freeblock: calls: line 2: Empty\n",
    ),
    (
        "0 open a plain 1 1\n0 want a 95 2\n",
        "freeblock: calls: line 2: BeyondDisk\n",
    ),
    (
        "0 open a plain 1 1\n0 open b plain 0 1\n",
        "freeblock: calls: line 2: WeightOutOfRange\n",
    ),
    (
        "0 open a plain 1 1\n0 open b plain 1 2049\n",
        "freeblock: calls: line 2: BlockOutOfRange\n",
    ),
    // cut off in a line
    (
        "0 open a plain 1 1\n0 want a 6 2\n0 want a 35",
        "freeblock: calls: line 3: BadLine\n",
    ),
    (
        "0 open a plain 1 1\n0 want a 6 2\n0 w",
        "freeblock: calls: line 3: BadLine\n",
    ),
];

#[test]
fn refused_scripts(rt: HostRuntime) -> Result<(), Fail> {
    let alloc = rt.alloc();
    let params = disk(alloc, "", TWELVE)?;
    for (calls, note) in REFUSED {
        let scene = scripted(params.as_bytes(), b"0 0 5 1 1\n", calls.as_bytes());
        check_refused(&rt, alloc, &scene, WORDS, 5, note)?;
    }
    Ok(())
}

const MAKE: &str = "freeblock make --params k --trace t --calls c --number 7 --requests 40";

const REPLAY: &str =
    "freeblock replay --params k --trace t --calls c --back b --bytes sha256 --policy ";

const POLICIES: &[&str] = &["fcfs", "sstf", "clook", "sptf"];

// Reads that calls ask for, and nothing else.
const READS: &str = "0 open a plain 1 1\n1 promote a 5 4\n90 promote a 40 8\n";

// The same reads among other work.
const READS_AND_MORE: &str = "0 open a scrub 3 4\n\
    0 want a 0 96\n\
    0 open b backup 1 16\n\
    0 want b 0 48\n\
    1 promote b 5 4\n\
    20 suspend a\n\
    40 abort a 30 2\n\
    50 open c clean 2 3\n\
    50 segment c 60 8 5 5a\n\
    60 resume a\n\
    90 promote a 40 8\n\
    100 close a\n";

// Checks that both scripts leave the same foreground, in an order of service.
fn check_foreground(rt: &impl Abort, alloc: Global, scene: &Scene, policy: &str) -> Result<(), Fail>
    requires { 0 < scene.now.piece }
{
    let mut scene = *scene;
    let mut words = String::from_str(alloc, REPLAY)?;
    words.push_str(policy)?;
    scene.calls = READS.as_bytes();
    let few = end(alloc, &scene, words.as_str())?;
    words.push_str(" --until 2000")?;
    scene.calls = READS_AND_MORE.as_bytes();
    let more = end(alloc, &scene, words.as_str())?;
    assert_eq!(rt; few.status, 0);
    assert!(rt; few.fore.as_slice() == more.fore.as_slice());
    assert!(rt; few.fore.as_slice().ends_with(b"\nend 42 0\n"));
    assert!(rt; more.back.as_slice().ends_with(b"\nend 2000000000\n"));
    Ok(())
}

#[test]
fn scripts_leave_the_foreground(rt: HostRuntime) -> Result<(), Fail> {
    let alloc = rt.alloc();
    let params = disk(alloc, "", TWELVE)?;
    let scene = unscripted(params.as_bytes(), b"");
    let made = end(alloc, &scene, MAKE)?;
    let scene = unscripted(params.as_bytes(), made.made_trace.as_slice());
    for policy in POLICIES {
        check_foreground(&rt, alloc, &scene, policy)?;
    }
    Ok(())
}
