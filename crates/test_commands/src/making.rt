// Traces and scripts that a make writes, and their replays.
ghost use Rattle.std.specs.Prelude.{◌<◌};

use fb_scene::{Scene, TWELVE, disk, end, scripted, unscripted};
use std::alloc::Global;
use std::process::Abort;
use std::test::Fail;

// The words of a make on a disk of 96 sectors, and the trace that it has to write.
const MADE: &[(&str, &str)] = &[
    (
        "freeblock make --params k --trace t --calls c --number 7 --requests 3",
        "10.957685 0 0 96 0\n21.085527 0 61 16 0\n22.474220 0 6 80 1\n",
    ),
    (
        "freeblock make --params k --trace t --calls c --number 7 --requests 2 --device 3",
        "10.957685 3 0 96 0\n21.085527 3 61 16 0\n",
    ),
];

// The script that it has to write for that disk.
const SCRIPT: &str =
    "0.000000 open scrub scrub 1 16\n0.000000 want scrub 0 96\n0.000000 open backup backup 2 16\n0.000000 want backup 0 96\n";

const MAKE: &str = "freeblock make --params k --trace t --calls c --number 7 --requests 40";

const REPLAY: &str = "freeblock replay --params k --trace t --policy sptf --bytes sha256";

const BOTH: &str =
    "freeblock replay --params k --trace t --policy sptf --bytes sha256 --calls c --back b";

const SUMMARY: &str = "freeblock replay --params k --trace t --policy sptf --summary";

// Checks what is made.
fn check_made(
    rt: &impl Abort,
    alloc: Global,
    scene: &Scene,
    words: &str,
    trace: &str,
) -> Result<(), Fail>
    requires { 0 < scene.now.piece }
{
    let made = end(alloc, scene, words)?;
    assert_eq!(rt; made.status, 0);
    assert_eq!(rt; made.note.len(), 0);
    assert_eq!(rt; made.made_trace.as_slice(), trace.as_bytes());
    assert_eq!(rt; made.made_calls.as_slice(), SCRIPT.as_bytes());
    Ok(())
}

#[test]
fn traces_and_scripts_are_made(rt: HostRuntime) -> Result<(), Fail> {
    let alloc = rt.alloc();
    let params = disk(alloc, "", TWELVE)?;
    let scene = unscripted(params.as_bytes(), b"");
    for (words, trace) in MADE {
        check_made(&rt, alloc, &scene, words, trace)?;
    }
    Ok(())
}

// Checks the replays of a made trace and its script: their foreground is the same, and their
// summary counts the requests.
fn check_replays(rt: &impl Abort, alloc: Global, scene: &Scene) -> Result<(), Fail>
    requires { 0 < scene.now.piece }
{
    let alone = end(alloc, scene, REPLAY)?;
    assert_eq!(rt; alone.status, 0);
    assert!(rt; alone.fore.as_slice().ends_with(b"\nend 40 0\n"));
    let scripted = end(alloc, scene, BOTH)?;
    assert_eq!(rt; scripted.status, 0);
    assert!(rt; scripted.fore.as_slice() == alone.fore.as_slice());
    let summary = end(alloc, scene, SUMMARY)?;
    assert!(rt;
        summary
            .fore
            .as_slice()
            .starts_with(b"requests 40\npassed 0\n")
    );
    Ok(())
}

#[test]
fn a_made_trace_is_replayed(rt: HostRuntime) -> Result<(), Fail> {
    let alloc = rt.alloc();
    let params = disk(alloc, "", TWELVE)?;
    let scene = unscripted(params.as_bytes(), b"");
    let made = end(alloc, &scene, MAKE)?;
    let scene = scripted(
        params.as_bytes(),
        made.made_trace.as_slice(),
        made.made_calls.as_slice(),
    );
    check_replays(&rt, alloc, &scene)
}
