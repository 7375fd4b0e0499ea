// Whole reports of small replays, and whole notes.
ghost use Rattle.std.specs.Prelude.{◌<◌};

use crate::refused::check_refused;
use fb_scene::{Scene, TWELVE, disk, end, unscripted};
use std::alloc::Global;
use std::process::Abort;
use std::test::Fail;

// A replay of requests as they come, and what it has to write.
struct Replay {
    shows: &'static str,
    // Lines of the parameter file before its zone, and in it.
    before: &'static str,
    within: &'static str,
    trace: &'static str,
    fore: &'static str,
}

const REPLAYS: &[Replay] = &[
    Replay {
        shows: "one read",
        before: "",
        within: TWELVE,
        trace: "0 0 5 1 1\n",
        fore: "freeblock fore 1\n1 R 5 1 0 0 500 600 0 00000000000000000000000000000005\nend 1 0\n",
    },
    Replay {
        shows: "at the start of its slot",
        before: "",
        within: TWELVE,
        trace: "0.000500 0 5 1 1\n",
        fore: "freeblock fore 1\n1 R 5 1 500 500 500 600 0 00000000000000000000000000000005\nend 1 0\n",
    },
    Replay {
        shows: "a nanosecond late",
        before: "",
        within: TWELVE,
        trace: "0.000501 0 5 1 1\n",
        fore: "freeblock fore 1\n1 R 5 1 501 501 1700 1800 0 00000000000000000000000000000005\nend 1 0\n",
    },
    Replay {
        shows: "on two tracks",
        before: "",
        within: TWELVE,
        trace: "0 0 11 2 1\n",
        fore: "freeblock fore 1\n1 R 11 2 0 0 1100 2500 0 0000000000000000000000000000000b0000000000000000000000000000000c\nend 1 0\n",
    },
    Replay {
        shows: "with a skew",
        before: "",
        within: "sectors = 12\ntrack_skew = 2\n",
        trace: "0 0 11 2 1\n",
        fore: "freeblock fore 1\n1 R 11 2 0 0 1100 1500 0 0000000000000000000000000000000b0000000000000000000000000000000c\nend 1 0\n",
    },
    Replay {
        shows: "past a defect",
        before: "defects = [[0, 0, 3]]\n",
        within: "sectors = 12\nspares = 2\n",
        trace: "0 0 2 2 1\n",
        fore: "freeblock fore 1\n1 R 2 2 0 0 200 500 0 0000000000000000000000000000000200000000000000000000000000000003\nend 1 0\n",
    },
    Replay {
        shows: "slots of seven",
        before: "",
        within: "sectors = 7\n",
        trace: "0 0 3 1 1\n",
        fore: "freeblock fore 1\n1 R 3 1 0 0 514 685 0 00000000000000000000000000000003\nend 1 0\n",
    },
    Replay {
        shows: "two reads at once",
        before: "",
        within: TWELVE,
        trace: "0 0 5 1 1\n0 0 24 1 1\n",
        fore: "freeblock fore 1\n1 R 5 1 0 0 500 600 0 00000000000000000000000000000005\n2 R 24 1 0 600 1200 1300 0 00000000000000000000000000000018\nend 2 0\n",
    },
    Replay {
        shows: "of no requests",
        before: "",
        within: TWELVE,
        trace: "",
        fore: "freeblock fore 1\nend 0 0\n",
    },
    Replay {
        shows: "of another device",
        before: "",
        within: TWELVE,
        trace: "0 1 96 0 1\n",
        fore: "freeblock fore 1\nend 0 1\n",
    },
    Replay {
        shows: "what was written",
        before: "",
        within: TWELVE,
        trace: "0 0 6 1 0\n0 0 6 1 1\n",
        fore: "freeblock fore 1\n1 W 6 1 0 0 600 700 0 -\n2 R 6 1 0 700 1800 1900 0 00000000000000010000000000000006\nend 2 0\n",
    },
    Replay {
        shows: "written where nothing could be read",
        before: "latent = [6]\n",
        within: TWELVE,
        trace: "0 0 6 1 0\n0 0 6 1 1\n",
        fore: "freeblock fore 1\n1 W 6 1 0 0 600 700 0 -\n2 R 6 1 0 700 1800 1900 0 00000000000000010000000000000006\nend 2 0\n",
    },
    Replay {
        shows: "what can't be read",
        before: "latent = [6]\n",
        within: TWELVE,
        trace: "0 0 6 1 1\n",
        fore: "freeblock fore 1\n1 R 6 1 0 0 600 700 1 00000000000000000000000000000000\nend 1 0\n",
    },
];

const HEX: &str = "freeblock replay --params k --trace t --policy fcfs --bytes hex";

// Checks a whole report, on a desk that moves one byte a call.
fn check_replay(rt: &impl Abort, alloc: Global, replay: &Replay) -> Result<(), Fail> {
    let params = disk(alloc, replay.before, replay.within)?;
    let mut scene = unscripted(params.as_bytes(), replay.trace.as_bytes());
    scene.piece = 1;
    let ending = end(alloc, &scene, HEX)?;
    let shows = replay.shows;
    assert_eq!(rt; ending.fore.as_slice(), replay.fore.as_bytes(), "{shows}");
    assert_eq!(rt; ending.status, 0, "{shows}");
    Ok(())
}

#[test]
fn reports(rt: HostRuntime) -> Result<(), Fail> {
    let alloc = rt.alloc();
    for replay in REPLAYS {
        check_replay(&rt, alloc, replay)?;
    }
    Ok(())
}

// Checks the whole report for which these words ask.
fn check_words(
    rt: &impl Abort,
    alloc: Global,
    scene: &Scene,
    words: &str,
    fore: &str,
) -> Result<(), Fail>
    requires { 0 < scene.now.piece }
{
    let ending = end(alloc, scene, words)?;
    assert_eq!(rt; ending.fore.as_slice(), fore.as_bytes(), "{words}");
    assert_eq!(rt; ending.status, 0, "{words}");
    Ok(())
}

#[test]
fn a_digest(rt: HostRuntime) -> Result<(), Fail> {
    let alloc = rt.alloc();
    let params = disk(alloc, "", TWELVE)?;
    let scene = unscripted(params.as_bytes(), b"0 0 5 1 1\n");
    let words = "freeblock replay --params k --trace t --policy fcfs --bytes sha256";
    let fore =
        "freeblock fore 1\n1 R 5 1 0 0 500 600 0 cb9a02f579da3ffa03dc3ed340e0162018c4c446875d8b15d9f4e23152b25822\nend 1 0\n";
    check_words(&rt, alloc, &scene, words, fore)
}

#[test]
fn a_summary(rt: HostRuntime) -> Result<(), Fail> {
    let alloc = rt.alloc();
    let params = disk(alloc, "", TWELVE)?;
    let mut scene = unscripted(params.as_bytes(), b"0 0 5 1 1\n0 0 24 1 1\n");
    scene.calls = b"0 open a plain 1 1\n0 want a 6 2\n0 want a 35 1\n";
    scene.piece = 1;
    let words = "freeblock replay --params k --trace t --policy fcfs --summary --calls c --back b";
    let ending = end(alloc, &scene, words)?;
    assert_eq!(rt; ending.status, 0);
    let lines =
        "requests 2\npassed 0\nsectors 2\nfinish 1300\nresponse 1900\ngaps 2\ndelivered 3 3\nbad 0\ncomplete 1 1\nend 1300\n";
    assert_eq!(rt; ending.fore.as_slice(), lines.as_bytes());
    assert!(rt;
        ending.back.as_slice().ends_with(
            b"\ndone a 1200\ntask a plain 3 3 0 0 complete\nend 1300\n"
        )
    );
    Ok(())
}

// Traces, and the notes with which they are refused.
const REFUSED_TRACES: &[(&str, &str)] = &[
    ("0 0 5\n", "freeblock: trace: line 1: TooFewFields\n"),
    ("1e3 0 5 1 1\n", "freeblock: trace: line 1: BadTime\n"),
    ("0 0 5 1 0xg\n", "freeblock: trace: line 1: BadNumber 5\n"),
    (
        "1 0 5 1 1\n0.5 0 5 1 1\n",
        "freeblock: trace: line 2: OutOfOrder\n",
    ),
    ("0 0 5 0 1\n", "freeblock: trace: line 1: Empty\n"),
    ("0 0 0 2049 1\n", "freeblock: trace: line 1: TooLarge\n"),
    ("0 0 96 1 1\n", "freeblock: trace: line 1: BeyondDisk\n"),
    (
        "0 0 5 1 1\n0 0 24 1",
        "freeblock: trace: line 2: TooFewFields\n",
    ),
];

#[test]
fn refused_traces(rt: HostRuntime) -> Result<(), Fail> {
    let alloc = rt.alloc();
    let params = disk(alloc, "", TWELVE)?;
    let words = "freeblock replay --params k --trace t --policy fcfs --calls c --back b";
    for (trace, note) in REFUSED_TRACES {
        let scene = unscripted(params.as_bytes(), trace.as_bytes());
        check_refused(&rt, alloc, &scene, words, 4, note)?;
    }
    Ok(())
}

// Words, and the notes with which they are refused.
const REFUSED_WORDS: &[(&str, &str)] = &[
    ("freeblock", "freeblock: usage: word 1: NoCommand\n"),
    (
        "freeblock play",
        "freeblock: usage: word 1: UnknownCommand\n",
    ),
    (
        "freeblock replay --params k --trace t --policy fcfs --fast",
        "freeblock: usage: word 8: UnknownOption\n",
    ),
    (
        "freeblock replay --params k --trace t --policy fcfs --calls",
        "freeblock: usage: word 8: NoValue\n",
    ),
    (
        "freeblock replay --params k --trace t --policy fcfs --policy sstf",
        "freeblock: usage: word 8: OptionTwice\n",
    ),
    (
        "freeblock replay --params k --trace t --policy fcfs --bytes=md5",
        "freeblock: usage: word 8: BadValue\n",
    ),
    (
        "freeblock replay --params k --trace t",
        "freeblock: usage: word 6: MissingOption 2\n",
    ),
    (
        "freeblock replay --params k --trace t --policy fcfs --calls c",
        "freeblock: usage: word 10: CallsAndBack\n",
    ),
];

#[test]
fn refused_words(rt: HostRuntime) -> Result<(), Fail> {
    let alloc = rt.alloc();
    let scene = unscripted(b"", b"");
    for (words, note) in REFUSED_WORDS {
        check_refused(&rt, alloc, &scene, words, 2, note)?;
    }
    Ok(())
}
