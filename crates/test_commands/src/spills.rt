// Puts that are written in the free gaps of a replay.
ghost use Rattle.std.specs.Prelude.{◌<◌, ◌≤◌};

use crate::refused::check_refused;
use fb_scene::{LARGE, Scene, TWELVE, disk, end, spilling, unscripted};
use fb_units::NoMemory;
use std::alloc::Global;
use std::process::Abort;
use std::test::Fail;

const WORDS: &str =
    "freeblock replay --params k --trace t --policy fcfs --bytes hex --puts u --spill v";

const LATE_READ: &[u8] = b"0 0 11 1 1\n";

// A put that the gap of the read has the time for, and one that passes too late.
const IN_TIME: &[u8] = b"reserve 12 12\n0 put 20 1\n";

const TOO_LATE: &[u8] = b"reserve 12 12\n0 put 21 1\n";

const FORE: &str =
    "freeblock fore 1\n1 R 11 1 0 0 1100 1200 0 0000000000000000000000000000000b\nend 1 0\n";

const ONE_SPILL: &str = "freeblock spill 1\n\
    spill 1 0.1 250 900\n\
    wrote 1 20 1 800 900 00000001000000010000000000000014\n\
    end 1 0\n";

const NO_SPILL: &str = "freeblock spill 1\nend 0 1\n";

// A puts file, and the note with the line and the reason for which it is refused.
const REFUSED: &[(&str, &str)] = &[
    ("reserve 12\n", "freeblock: puts: line 1: BadLine\n"),
    (
        "reserve 12 12\nx put 20 1\n",
        "freeblock: puts: line 2: BadTime\n",
    ),
    (
        "reserve 12 12\n0 put 20 y\n",
        "freeblock: puts: line 2: BadNumber 4\n",
    ),
    (
        "reserve 12 12\n1 put 20 1\n0 put 21 1\n",
        "freeblock: puts: line 3: OutOfOrder\n",
    ),
    ("reserve 12 0\n", "freeblock: puts: line 1: Empty\n"),
    ("reserve 90 7\n", "freeblock: puts: line 1: BeyondDisk\n"),
    ("reserve 0 12\n", "freeblock: puts: line 1: Touched\n"),
    (
        "reserve 12 12\n0 put 24 1\n",
        "freeblock: puts: line 2: OutsideReserve\n",
    ),
    (
        "reserve 12 12\n0 put 20 2\n0 put 21 1\n",
        "freeblock: puts: line 3: PutTwice\n",
    ),
];

const MOST_PUTS: u64 = 100_000;

const MAKE: &str = "freeblock make --params k --trace t --calls c --number 7 --requests 40";

// Words that name an order of service, without puts and with them.
const ORDERS: &[(&str, &str)] = &[
    (
        "freeblock replay --params k --trace t --policy fcfs --bytes sha256",
        "freeblock replay --params k --trace t --policy fcfs --bytes sha256 --puts u --spill v",
    ),
    (
        "freeblock replay --params k --trace t --policy sstf --bytes sha256",
        "freeblock replay --params k --trace t --policy sstf --bytes sha256 --puts u --spill v",
    ),
    (
        "freeblock replay --params k --trace t --policy clook --bytes sha256",
        "freeblock replay --params k --trace t --policy clook --bytes sha256 --puts u --spill v",
    ),
    (
        "freeblock replay --params k --trace t --policy sptf --bytes sha256",
        "freeblock replay --params k --trace t --policy sptf --bytes sha256 --puts u --spill v",
    ),
];

// Checks what is written in the gap before one read.
fn check_spill(rt: &impl Abort, alloc: Global, scene: &Scene, spill: &str) -> Result<(), Fail>
    requires { 0 < scene.now.piece }
{
    let ending = end(alloc, scene, WORDS)?;
    assert_eq!(rt; ending.status, 0);
    assert_eq!(rt; ending.note.len(), 0);
    assert_eq!(rt; ending.fore.as_slice(), FORE.as_bytes());
    assert_eq!(rt; ending.spill.as_slice(), spill.as_bytes());
    Ok(())
}

#[test]
fn puts_are_written_in_a_free_gap(rt: HostRuntime) -> Result<(), Fail> {
    let alloc = rt.alloc();
    let params = disk(alloc, "", TWELVE)?;
    let in_time = spilling(params.as_bytes(), LATE_READ, b"", IN_TIME);
    check_spill(&rt, alloc, &in_time, ONE_SPILL)?;
    let too_late = spilling(params.as_bytes(), LATE_READ, b"", TOO_LATE);
    check_spill(&rt, alloc, &too_late, NO_SPILL)
}

#[test]
fn refused_puts(rt: HostRuntime) -> Result<(), Fail> {
    let alloc = rt.alloc();
    let params = disk(alloc, "", TWELVE)?;
    for (puts, note) in REFUSED {
        let scene = spilling(params.as_bytes(), LATE_READ, b"", puts.as_bytes());
        check_refused(&rt, alloc, &scene, WORDS, 11, note)?;
    }
    Ok(())
}

#[test]
fn a_reserve_may_be_too_large(rt: HostRuntime) -> Result<(), Fail> {
    let alloc = rt.alloc();
    let scene = spilling(LARGE.as_bytes(), LATE_READ, b"", b"reserve 12 16000001\n");
    let note = "freeblock: puts: line 1: TooLarge\n";
    check_refused(&rt, alloc, &scene, WORDS, 11, note)
}

// A reserve, and so many puts of one sector each.
fn puts_of_one(alloc: Global, count: u64) -> Result<String, NoMemory>
    requires { count ≤ 200000 }
{
    let mut puts = String::from_str(alloc, "reserve 100 1000000\n")?;
    for put in 0..count {
        let lbn = 100 + put;
        let line = format!(in alloc; "0 put {lbn} 1\n")?;
        puts.push_str(line.as_str())?;
    }
    Ok(puts)
}

#[test]
fn puts_may_be_too_many(rt: HostRuntime) -> Result<(), Fail> {
    let alloc = rt.alloc();
    let puts = puts_of_one(alloc, MOST_PUTS + 1)?;
    let mut scene = spilling(LARGE.as_bytes(), LATE_READ, b"", puts.as_bytes());
    scene.piece = 65_536;
    let note = "freeblock: puts: line 100002: TooMany\n";
    check_refused(&rt, alloc, &scene, WORDS, 11, note)
}

// Checks that the foreground is the same with puts, and that some are written.
fn check_order(
    rt: &impl Abort,
    alloc: Global,
    scene: &Scene,
    alone: &str,
    beside: &str,
) -> Result<(), Fail>
    requires { 0 < scene.now.piece }
{
    let well = end(alloc, scene, alone)?;
    let ending = end(alloc, scene, beside)?;
    assert_eq!(rt; ending.status, 0, "{beside}");
    assert_eq!(rt; ending.fore.as_slice(), well.fore.as_slice(), "{beside}");
    assert!(rt; ending.spill.len() > NO_SPILL.len(), "{beside}");
    Ok(())
}

// Checks that in each order of service.
fn check_orders(rt: &impl Abort, alloc: Global, trace: &[u8]) -> Result<(), Fail> {
    let scene = spilling(
        LARGE.as_bytes(),
        trace,
        b"",
        b"reserve 0 2000\n0 put 0 2000\n",
    );
    for (alone, beside) in ORDERS {
        check_order(rt, alloc, &scene, alone, beside)?;
    }
    Ok(())
}

#[test]
fn puts_leave_the_foreground(rt: HostRuntime) -> Result<(), Fail> {
    let alloc = rt.alloc();
    let scene = unscripted(LARGE.as_bytes(), b"");
    let made = end(alloc, &scene, MAKE)?;
    check_orders(&rt, alloc, made.made_trace.as_slice())
}
