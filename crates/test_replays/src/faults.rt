// Calls of the desk that fail, and inputs that are too long.
ghost use Rattle.std.specs.Prelude.{◌<◌};

use fb_scene::{Ending, Scene, TWELVE, disk, end, scripted, spilling, unscripted};
use fb_units::NoMemory;
use std::alloc::Global;
use std::process::Abort;
use std::test::Fail;

const FORE: &str = "freeblock replay --params k --trace t --policy fcfs --bytes hex";

const BOTH: &str =
    "freeblock replay --params k --trace t --policy fcfs --bytes hex --calls c --back b";

const UNTIL: &str =
    "freeblock replay --params k --trace t --policy fcfs --bytes hex --calls c --back b --until 0.004";

const SPILL: &str = "freeblock replay --params k --trace t --policy fcfs --bytes hex --calls c \
    --back b --puts u --spill v";

const MAKE: &str = "freeblock make --params k --trace t --calls c --number 7 --requests 2";

const ONE_READ: &[u8] = b"0 0 5 1 1\n";

const WRITE_AND_READ: &[u8] = b"0 0 6 1 0\n0 0 6 1 1\n";

const TWO_READS: &[u8] = b"0 0 5 1 1\n0 0 24 1 1\n";

const THREE_BLOCKS: &[u8] = b"0 open a plain 1 1\n0 want a 6 2\n0 want a 35 1\n";

const OVERWRITING: &[u8] = b"0.000250 0 0 1 0\n";

const A_BACKUP: &[u8] = b"0 open b backup 1 2\n0 want b 0 4\n";

const LATE_READ: &[u8] = b"0.000700 0 11 1 1\n";

const TWO_SEGMENTS: &[u8] = b"0 open c clean 1 1\n0 segment c 0 4 10 a\n0 segment c 4 4 9 4\n";

const READ_BEHIND_A_GAP: &[u8] = b"0 0 11 1 1\n";

const NO_BLOCKS: &[u8] = b"0 open a plain 1 1\n";

const ONE_PUT: &[u8] = b"reserve 12 12\n0 put 20 1\n";

const PARAMS_LIMIT: usize = 1_048_576;

// A range of the desk's calls, each of which fails in turn, and how the command then ends.
struct Fault {
    first: u64,
    last: u64,
    status: u8,
    note: &'static str,
}

const FAULTS_OF_ONE_READ: &[Fault] = &[
    Fault {
        first: 1,
        last: 3,
        status: 6,
        note: "freeblock: read fault: params\n",
    },
    Fault {
        first: 4,
        last: 6,
        status: 6,
        note: "freeblock: read fault: trace\n",
    },
    Fault {
        first: 7,
        last: 10,
        status: 7,
        note: "freeblock: write fault: fore\n",
    },
];

const FAULTS_OF_WRITE_AND_READ: &[Fault] = &[Fault {
    first: 7,
    last: 11,
    status: 7,
    note: "freeblock: write fault: fore\n",
}];

const FAULTS_OF_BOTH: &[Fault] = &[
    Fault {
        first: 1,
        last: 3,
        status: 6,
        note: "freeblock: read fault: params\n",
    },
    Fault {
        first: 4,
        last: 6,
        status: 6,
        note: "freeblock: read fault: trace\n",
    },
    Fault {
        first: 7,
        last: 9,
        status: 6,
        note: "freeblock: read fault: calls\n",
    },
    Fault {
        first: 10,
        last: 14,
        status: 7,
        note: "freeblock: write fault: fore\n",
    },
    Fault {
        first: 15,
        last: 24,
        status: 7,
        note: "freeblock: write fault: back\n",
    },
];

const FAULTS_OF_A_BACKUP: &[Fault] = &[
    Fault {
        first: 7,
        last: 9,
        status: 6,
        note: "freeblock: read fault: calls\n",
    },
    Fault {
        first: 10,
        last: 13,
        status: 7,
        note: "freeblock: write fault: fore\n",
    },
    Fault {
        first: 14,
        last: 25,
        status: 7,
        note: "freeblock: write fault: back\n",
    },
];

const FAULTS_OF_A_CLEANER: &[Fault] = &[
    Fault {
        first: 10,
        last: 13,
        status: 7,
        note: "freeblock: write fault: fore\n",
    },
    Fault {
        first: 14,
        last: 26,
        status: 7,
        note: "freeblock: write fault: back\n",
    },
];

const FAULTS_OF_A_MAKE: &[Fault] = &[
    Fault {
        first: 1,
        last: 3,
        status: 6,
        note: "freeblock: read fault: params\n",
    },
    Fault {
        first: 4,
        last: 6,
        status: 7,
        note: "freeblock: write fault: trace\n",
    },
    Fault {
        first: 7,
        last: 8,
        status: 7,
        note: "freeblock: write fault: calls\n",
    },
];

const FAULTS_OF_A_SPILL: &[Fault] = &[
    Fault {
        first: 7,
        last: 9,
        status: 6,
        note: "freeblock: read fault: calls\n",
    },
    Fault {
        first: 10,
        last: 12,
        status: 6,
        note: "freeblock: read fault: puts\n",
    },
    Fault {
        first: 13,
        last: 16,
        status: 7,
        note: "freeblock: write fault: fore\n",
    },
    Fault {
        first: 17,
        last: 21,
        status: 7,
        note: "freeblock: write fault: back\n",
    },
    Fault {
        first: 22,
        last: 26,
        status: 7,
        note: "freeblock: write fault: spill\n",
    },
];

// Whether each output is a front of the same output of an ending that went well.
fn is_front(ending: &Ending, well: &Ending) -> bool {
    well.fore.as_slice().starts_with(ending.fore.as_slice())
        && well.back.as_slice().starts_with(ending.back.as_slice())
        && well.spill.as_slice().starts_with(ending.spill.as_slice())
        && well
            .made_trace
            .as_slice()
            .starts_with(ending.made_trace.as_slice())
        && well
            .made_calls
            .as_slice()
            .starts_with(ending.made_calls.as_slice())
}

// Whether each output was begun only after the one before it was whole.
fn is_in_order(ending: &Ending, well: &Ending) -> bool {
    (ending.back.is_empty() || ending.fore.len() == well.fore.len())
        && (ending.spill.is_empty() || ending.back.len() == well.back.len())
        && (ending.made_calls.is_empty() || ending.made_trace.len() == well.made_trace.len())
}

// Checks how a command ends when this call fails, against the same command that ends well.
fn check_call(rt: &impl Abort, ending: &Ending, fault: &Fault, well: &Ending, call: u64) {
    assert_eq!(rt; ending.status, fault.status, "call {call}");
    assert_eq!(rt;
        ending.note.as_slice(),
        fault.note.as_bytes(),
        "call {call}"
    );
    assert!(rt; is_front(ending, well), "call {call}");
    assert!(rt; is_in_order(ending, well), "call {call}");
    assert!(rt; fault.status == 7 || ending.is_silent(), "call {call}");
}

// How a command ends when its call of this number fails.
fn end_failing(alloc: Global, scene: &Scene, words: &str, call: u64) -> Result<Ending, NoMemory>
    requires { 0 < scene.now.piece }
{
    let mut scene = *scene;
    scene.failing = call;
    end(alloc, &scene, words)
}

// Makes each call of a fault fail in turn, and checks how the command ends.
fn check_fault(
    rt: &impl Abort,
    alloc: Global,
    scene: &Scene,
    words: &str,
    fault: &Fault,
    well: &Ending,
) -> Result<(), Fail>
    requires { 0 < scene.now.piece }
{
    for call in fault.first..=fault.last {
        let ending = end_failing(alloc, scene, words, call)?;
        check_call(rt, &ending, fault, well, call);
    }
    Ok(())
}

// Makes the calls of these faults fail in turn; the call after the last of them is never made.
fn check_faults(
    rt: &impl Abort,
    alloc: Global,
    scene: &Scene,
    words: &str,
    faults: &[Fault],
) -> Result<(), Fail>
    requires { 0 < scene.now.piece }
{
    let well = end(alloc, scene, words)?;
    assert_eq!(rt; well.status, 0);
    let mut calls: u64 = 0;
    for fault in faults {
        check_fault(rt, alloc, scene, words, fault, &well)?;
        calls = fault.last;
    }
    let ending = end_failing(alloc, scene, words, calls.saturating_add(1))?;
    assert_eq!(rt; ending.status, 0);
    Ok(())
}

#[test]
fn each_failing_call_is_told(rt: HostRuntime) -> Result<(), Fail> {
    let alloc = rt.alloc();
    let params = disk(alloc, "", TWELVE)?;
    let scene = unscripted(params.as_bytes(), ONE_READ);
    check_faults(&rt, alloc, &scene, FORE, FAULTS_OF_ONE_READ)?;
    let scene = unscripted(params.as_bytes(), WRITE_AND_READ);
    check_faults(&rt, alloc, &scene, FORE, FAULTS_OF_WRITE_AND_READ)
}

#[test]
fn each_failing_call_of_both_reports_is_told(rt: HostRuntime) -> Result<(), Fail> {
    let alloc = rt.alloc();
    let params = disk(alloc, "", TWELVE)?;
    let scene = scripted(params.as_bytes(), TWO_READS, THREE_BLOCKS);
    check_faults(&rt, alloc, &scene, BOTH, FAULTS_OF_BOTH)
}

#[test]
fn each_failing_call_of_a_backup_and_a_cleaner_is_told(rt: HostRuntime) -> Result<(), Fail> {
    let alloc = rt.alloc();
    let params = disk(alloc, "", TWELVE)?;
    let scene = scripted(params.as_bytes(), OVERWRITING, A_BACKUP);
    check_faults(&rt, alloc, &scene, UNTIL, FAULTS_OF_A_BACKUP)?;
    let scene = scripted(params.as_bytes(), LATE_READ, TWO_SEGMENTS);
    check_faults(&rt, alloc, &scene, UNTIL, FAULTS_OF_A_CLEANER)
}

#[test]
fn each_failing_call_of_a_spill_is_told(rt: HostRuntime) -> Result<(), Fail> {
    let alloc = rt.alloc();
    let params = disk(alloc, "", TWELVE)?;
    let scene = spilling(params.as_bytes(), READ_BEHIND_A_GAP, NO_BLOCKS, ONE_PUT);
    check_faults(&rt, alloc, &scene, SPILL, FAULTS_OF_A_SPILL)
}

#[test]
fn each_failing_call_of_a_make_is_told(rt: HostRuntime) -> Result<(), Fail> {
    let alloc = rt.alloc();
    let params = disk(alloc, "", TWELVE)?;
    let scene = unscripted(params.as_bytes(), b"");
    check_faults(&rt, alloc, &scene, MAKE, FAULTS_OF_A_MAKE)
}

#[test]
fn a_failing_write_leaves_what_was_written(rt: HostRuntime) -> Result<(), Fail> {
    let alloc = rt.alloc();
    let params = disk(alloc, "", TWELVE)?;
    let mut scene = unscripted(params.as_bytes(), ONE_READ);
    scene.piece = 16;
    scene.failing = 19;
    let ending = end(alloc, &scene, FORE)?;
    assert_eq!(rt; ending.status, 7);
    assert_eq!(rt; ending.fore.as_slice(), b"freeblock fore 1".as_slice());
    Ok(())
}

// The same byte `count` times.
fn repeated(alloc: Global, byte: u8, count: usize) -> Result<Vec<u8>, NoMemory> {
    let mut bytes = Vec::with_capacity(alloc, count)?;
    for _ in 0..count {
        bytes.push(byte)?;
    }
    Ok(bytes)
}

#[test]
fn a_parameter_file_may_be_too_long(rt: HostRuntime) -> Result<(), Fail> {
    let alloc = rt.alloc();
    let params = repeated(alloc, b'#', PARAMS_LIMIT + 1)?;
    let mut scene = unscripted(params.as_slice(), b"");
    scene.piece = 65_536;
    let ending = end(alloc, &scene, FORE)?;
    assert_eq!(rt; ending.status, 9);
    assert_eq!(rt;
        ending.note.as_slice(),
        b"freeblock: too long: params\n".as_slice()
    );
    Ok(())
}
