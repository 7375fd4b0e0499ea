// Whole reports of small replays with call scripts.
ghost use Rattle.std.specs.Prelude.{◌<◌};

use fb_scene::{Ending, TWELVE, disk, end, scripted};
use fb_units::NoMemory;
use std::alloc::Global;
use std::process::Abort;
use std::test::Fail;

// A replay on a disk of 96 sectors, and what it has to write.
struct Case {
    shows: &'static str,
    // Lines of the parameter file before its zone.
    before: &'static str,
    trace: &'static str,
    calls: &'static str,
    options: &'static str,
    fore: &'static str,
    back: &'static str,
}

// Sessions that read blocks.
const READING: &[Case] = &[
    Case {
        shows: "blocks on both tracks of a gap",
        before: "",
        trace: "0 0 5 1 1\n\
            0 0 24 1 1\n",
        calls: "0 open a plain 1 1\n\
            0 want a 6 2\n\
            0 want a 35 1\n",
        options: "--bytes hex",
        fore: "freeblock fore 1\n\
            1 R 5 1 0 0 500 600 0 00000000000000000000000000000005\n\
            2 R 24 1 0 600 1200 1300 0 00000000000000000000000000000018\n\
            end 2 0\n",
        back: "freeblock back 1\n\
            gap 1 0.0 0.0 0 500 direct 0\n\
            gap 2 0.0 1.0 600 1200 direct 800\n\
            got a 0 6 1 600 700 gap 0 00000000000000000000000000000006\n\
            got a 1 7 1 700 800 gap 0 00000000000000000000000000000007\n\
            got a 2 35 1 1100 1200 gap 0 00000000000000000000000000000023\n\
            done a 1200\n\
            task a plain 3 3 0 0 complete\n\
            end 1300\n",
    },
    Case {
        shows: "a block on the way of a detour",
        before: "",
        trace: "0 0 5 1 1\n\
            0 0 24 1 1\n",
        calls: "0 open a plain 1 1\n\
            0 want a 20 1\n",
        options: "--bytes hex",
        fore: "freeblock fore 1\n\
            1 R 5 1 0 0 500 600 0 00000000000000000000000000000005\n\
            2 R 24 1 0 600 1200 1300 0 00000000000000000000000000000018\n\
            end 2 0\n",
        back: "freeblock back 1\n\
            gap 1 0.0 0.0 0 500 direct 0\n\
            gap 2 0.0 1.0 600 1200 detour 0.1 900\n\
            got a 0 20 1 800 900 gap 0 00000000000000000000000000000014\n\
            done a 900\n\
            task a plain 1 1 0 0 complete\n\
            end 1300\n",
    },
    Case {
        shows: "digests of a block in the idle time",
        before: "",
        trace: "0.000600 0 24 1 1\n",
        calls: "0 open a plain 1 1\n\
            0 want a 5 1\n",
        options: "--bytes sha256",
        fore: "freeblock fore 1\n\
            1 R 24 1 600 600 1200 1300 0 d5e7d4f436d2db5f51ebc215027b45c2af369948886b9604f54aface61266591\n\
            end 1 0\n",
        back: "freeblock back 1\n\
            idle 0.0 0 600\n\
            got a 0 5 1 500 600 idle 0 cb9a02f579da3ffa03dc3ed340e0162018c4c446875d8b15d9f4e23152b25822\n\
            done a 600\n\
            gap 1 0.0 1.0 600 1200 direct 600\n\
            task a plain 1 1 0 0 complete\n\
            end 1300\n",
    },
    Case {
        shows: "the head stays behind the last request",
        before: "",
        trace: "0 0 5 1 1\n\
            0 0 24 1 1\n",
        calls: "0 open a plain 1 1\n\
            0 want a 6 2\n\
            0 want a 35 1\n",
        options: "--bytes hex --until 0.01",
        fore: "freeblock fore 1\n\
            1 R 5 1 0 0 500 600 0 00000000000000000000000000000005\n\
            2 R 24 1 0 600 1200 1300 0 00000000000000000000000000000018\n\
            end 2 0\n",
        back: "freeblock back 1\n\
            gap 1 0.0 0.0 0 500 direct 0\n\
            gap 2 0.0 1.0 600 1200 direct 800\n\
            got a 0 6 1 600 700 gap 0 00000000000000000000000000000006\n\
            got a 1 7 1 700 800 gap 0 00000000000000000000000000000007\n\
            got a 2 35 1 1100 1200 gap 0 00000000000000000000000000000023\n\
            done a 1200\n\
            idle 1.0 1300 10000\n\
            task a plain 3 3 0 0 complete\n\
            end 10000\n",
    },
];

// Sessions beside writes and promoted reads.
const FOREGROUND: &[Case] = &[
    Case {
        shows: "blocks of a promoted read",
        before: "",
        trace: "",
        calls: "0 open a plain 1 1\n\
            0 want a 5 2\n\
            0.001700 want a 7 2\n\
            0.001700 promote a 5 4\n",
        options: "--bytes hex",
        fore: "freeblock fore 1\n\
            P1 R 5 4 1700 1700 1700 2100 0 00000000000000000000000000000005000000000000000000000000000000060000000000000000000000000000000700000000000000000000000000000008\n\
            end 1 0\n",
        back: "freeblock back 1\n\
            idle 0.0 0 1700\n\
            got a 0 5 1 500 600 idle 0 00000000000000000000000000000005\n\
            got a 1 6 1 600 700 idle 0 00000000000000000000000000000006\n\
            done a 700\n\
            gap P1 0.0 0.0 1700 1700 direct 1700\n\
            got a 2 7 1 1900 2000 ride 0 00000000000000000000000000000007\n\
            got a 3 8 1 2000 2100 ride 0 00000000000000000000000000000008\n\
            done a 2100\n\
            task a plain 4 4 0 0 complete\n\
            end 2100\n",
    },
    Case {
        shows: "what a sector holds before and after a write",
        before: "",
        trace: "0.000700 0 6 1 0\n",
        calls: "0 open a plain 1 1\n\
            0 want a 6 1\n\
            0.002000 want a 6 1\n",
        options: "--bytes hex --until 0.004",
        fore: "freeblock fore 1\n\
            1 W 6 1 700 700 1800 1900 0 -\n\
            end 1 0\n",
        back: "freeblock back 1\n\
            idle 0.0 0 700\n\
            got a 0 6 1 600 700 idle 0 00000000000000000000000000000006\n\
            done a 700\n\
            gap 1 0.0 0.0 700 1800 direct 700\n\
            idle 0.0 1900 2000\n\
            idle 0.0 2000 4000\n\
            got a 1 6 1 3000 3100 idle 0 00000000000000010000000000000006\n\
            done a 3100\n\
            task a plain 2 2 0 0 complete\n\
            end 4000\n",
    },
];

// Sessions that are held back or end early.
const CALLS: &[Case] = &[
    Case {
        shows: "an abort before the delivery",
        before: "",
        trace: "0 0 5 1 1\n\
            0 0 24 1 1\n",
        calls: "0 open a plain 1 1\n\
            0 want a 6 2\n\
            0 want a 35 1\n\
            0.000600 abort a 7 1\n",
        options: "--bytes hex",
        fore: "freeblock fore 1\n\
            1 R 5 1 0 0 500 600 0 00000000000000000000000000000005\n\
            2 R 24 1 0 600 1200 1300 0 00000000000000000000000000000018\n\
            end 2 0\n",
        back: "freeblock back 1\n\
            gap 1 0.0 0.0 0 500 direct 0\n\
            gap 2 0.0 1.0 600 1200 direct 700\n\
            got a 0 6 1 600 700 gap 0 00000000000000000000000000000006\n\
            got a 2 35 1 1100 1200 gap 0 00000000000000000000000000000023\n\
            done a 1200\n\
            task a plain 3 2 1 0 complete\n\
            end 1300\n",
    },
    Case {
        shows: "a session that is suspended and goes on",
        before: "",
        trace: "0 0 5 1 1\n\
            0 0 24 1 1\n",
        calls: "0 open a plain 1 1\n\
            0 want a 6 2\n\
            0 want a 35 1\n\
            0.000600 suspend a\n\
            0.002000 resume a\n",
        options: "--bytes hex --until 0.01",
        fore: "freeblock fore 1\n\
            1 R 5 1 0 0 500 600 0 00000000000000000000000000000005\n\
            2 R 24 1 0 600 1200 1300 0 00000000000000000000000000000018\n\
            end 2 0\n",
        back: "freeblock back 1\n\
            gap 1 0.0 0.0 0 500 direct 0\n\
            gap 2 0.0 1.0 600 1200 direct 600\n\
            idle 1.0 1300 2000\n\
            idle 1.0 2000 10000\n\
            got a 2 35 1 2300 2400 idle 0 00000000000000000000000000000023\n\
            task a plain 3 1 0 2 open\n\
            end 10000\n",
    },
    Case {
        shows: "a closed session",
        before: "",
        trace: "0 0 5 1 1\n\
            0 0 24 1 1\n",
        calls: "0 open a plain 1 1\n\
            0 want a 6 2\n\
            0 want a 35 1\n\
            0.000600 close a\n",
        options: "--bytes hex",
        fore: "freeblock fore 1\n\
            1 R 5 1 0 0 500 600 0 00000000000000000000000000000005\n\
            2 R 24 1 0 600 1200 1300 0 00000000000000000000000000000018\n\
            end 2 0\n",
        back: "freeblock back 1\n\
            gap 1 0.0 0.0 0 500 direct 0\n\
            done a 600\n\
            gap 2 0.0 1.0 600 1200 direct 600\n\
            task a plain 3 0 3 0 complete\n\
            end 1300\n",
    },
];

// Sessions of the other kinds.
const KINDS: &[Case] = &[
    Case {
        shows: "a backup whose block is written again",
        before: "",
        trace: "0.000250 0 0 1 0\n",
        calls: "0 open b backup 1 2\n\
            0 want b 0 4\n",
        options: "--bytes hex --until 0.004",
        fore: "freeblock fore 1\n\
            1 W 0 1 250 250 1200 1300 0 -\n\
            end 1 0\n",
        back: "freeblock back 1\n\
            idle 0.0 0 250\n\
            got b 0 0 2 0 200 idle 0 0000000000000000000000000000000000000000000000000000000000000001\n\
            gap 1 0.0 0.0 250 1200 direct 250\n\
            idle 0.0 1300 4000\n\
            got b 1 2 2 1400 1600 idle 0 0000000000000000000000000000000200000000000000000000000000000003\n\
            got b 0 0 2 2400 2600 idle 0 0000000000000001000000000000000000000000000000000000000000000001\n\
            seal b 2600 4 038572f48e729b3cc9c0d8bb3bc5eb1aebe0cef0f8aae410aa65f5ea8427e0d1\n\
            done b 2600\n\
            task b backup 2 2 0 0 complete\n\
            end 4000\n",
    },
    Case {
        shows: "segments by benefit and cost",
        before: "",
        trace: "0.000700 0 11 1 1\n",
        calls: "0 open c clean 1 1\n\
            0 segment c 0 4 10 a\n\
            0 segment c 4 4 9 4\n",
        options: "--bytes hex --until 0.003",
        fore: "freeblock fore 1\n\
            1 R 11 1 700 700 1100 1200 0 0000000000000000000000000000000b\n\
            end 1 0\n",
        back: "freeblock back 1\n\
            idle 0.0 0 700\n\
            got c 0 5 1 500 600 idle 0 00000000000000000000000000000005\n\
            seg c 2 600 1 cb9a02f579da3ffa03dc3ed340e0162018c4c446875d8b15d9f4e23152b25822\n\
            gap 1 0.0 0.0 700 1100 direct 700\n\
            idle 0.0 1200 3000\n\
            got c 1 0 1 1200 1300 idle 0 00000000000000000000000000000000\n\
            got c 2 2 1 1400 1500 idle 0 00000000000000000000000000000002\n\
            seg c 1 1500 2 9267d3dbed802941483f1afa2a6bc68de5f653128aca9bf1461c5d0a3ad36ed2\n\
            done c 1500\n\
            task c clean 3 3 0 0 complete\n\
            end 3000\n",
    },
    Case {
        shows: "a scrub that finds a bad sector",
        before: "latent = [6]\n",
        trace: "",
        calls: "0 open s scrub 1 4\n\
            0 want s 4 4\n",
        options: "--bytes hex --until 0.0012",
        fore: "freeblock fore 1\n\
            end 0 0\n",
        back: "freeblock back 1\n\
            idle 0.0 0 1200\n\
            got s 0 4 4 400 800 idle 1 00000000000000000000000000000004000000000000000000000000000000050000000000000000000000000000000000000000000000000000000000000007\n\
            bad s 6\n\
            done s 800\n\
            task s scrub 1 1 0 0 complete\n\
            end 1200\n",
    },
];

const WORDS: &str = "freeblock replay --params k --trace t --policy fcfs --calls c --back b ";

// How a replay ends with these options added, on a desk that moves `piece` bytes a call.
fn end_of(alloc: Global, case: &Case, options: &str, piece: usize) -> Result<Ending, NoMemory>
    requires { 0 < piece }
{
    let params = disk(alloc, case.before, TWELVE)?;
    let mut words = String::from_str(alloc, WORDS)?;
    words.push_str(options)?;
    let mut scene = scripted(
        params.as_bytes(),
        case.trace.as_bytes(),
        case.calls.as_bytes(),
    );
    scene.piece = piece;
    end(alloc, &scene, words.as_str())
}

// Checks both reports of a replay, on a desk that moves `piece` bytes a call.
fn check_reports(rt: &impl Abort, alloc: Global, case: &Case, piece: usize) -> Result<(), Fail>
    requires { 0 < piece }
{
    let ending = end_of(alloc, case, case.options, piece)?;
    let shows = case.shows;
    assert_eq!(rt; ending.fore.as_slice(), case.fore.as_bytes(), "{shows}");
    assert_eq!(rt; ending.back.as_slice(), case.back.as_bytes(), "{shows}");
    assert_eq!(rt; ending.note.len(), 0, "{shows}");
    assert_eq!(rt; ending.status, 0, "{shows}");
    Ok(())
}

// Checks the reports of these replays, by one byte a call and by many bytes a call.
fn check_cases(rt: &impl Abort, alloc: Global, cases: &[Case]) -> Result<(), Fail> {
    for case in cases {
        check_reports(rt, alloc, case, 1)?;
        check_reports(rt, alloc, case, 4096)?;
    }
    Ok(())
}

#[test]
fn sessions_that_read(rt: HostRuntime) -> Result<(), Fail> {
    check_cases(&rt, rt.alloc(), READING)
}

#[test]
fn sessions_beside_the_foreground(rt: HostRuntime) -> Result<(), Fail> {
    check_cases(&rt, rt.alloc(), FOREGROUND)
}

#[test]
fn sessions_that_calls_change(rt: HostRuntime) -> Result<(), Fail> {
    check_cases(&rt, rt.alloc(), CALLS)
}

#[test]
fn sessions_of_the_other_kinds(rt: HostRuntime) -> Result<(), Fail> {
    check_cases(&rt, rt.alloc(), KINDS)
}

// The summary of the first replay that reads.
const SUMMARY: &str = "requests 2\n\
    passed 0\n\
    sectors 2\n\
    finish 1300\n\
    response 1900\n\
    gaps 2\n\
    delivered 3 3\n\
    bad 0\n\
    complete 1 1\n\
    end 1300\n";

#[test]
fn a_summary_before_the_background(rt: HostRuntime) -> Result<(), Fail> {
    let case = &READING[0];
    let ending = end_of(rt.alloc(), case, "--bytes hex --summary", 4096)?;
    assert_eq!(rt; ending.fore.as_slice(), SUMMARY.as_bytes());
    assert_eq!(rt; ending.back.as_slice(), case.back.as_bytes());
    Ok(())
}
