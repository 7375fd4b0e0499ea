// Scripts on a small disk and on a large one.
use crate::disks::{large_map, small_map};
use fb_calls::{CallsError, CallsFault, CallsReason, read_calls};
use fb_script::{Action, Calls, Live, promoted};
use fb_sectormap::SectorMap;
use fb_units::{Name, Request};
use std::alloc::Global;
use std::process::Abort;
use std::test::Fail;

// A script of two lines whose second breaks a limit, and how many requests the trace has.
struct Refused {
    text: &'static [u8],
    trace_count: u64,
    reason: CallsReason,
}

const REFUSED: &[Refused] = &[
    Refused {
        text: b"0 open a plain 1 1\n0 promote a 0 2049",
        trace_count: 1,
        reason: CallsReason::TooLarge,
    },
    Refused {
        text: b"0 open a plain 1 1\n0 want a 0 16000001",
        trace_count: 1,
        reason: CallsReason::TooManyBlocks,
    },
    Refused {
        text: b"0 open a plain 1 1\n0 promote a 5 1",
        trace_count: 1_000_000,
        reason: CallsReason::TooMany,
    },
];

fn check_refused(rt: &impl Abort, alloc: Global, map: &SectorMap, refused: &Refused) {
    let fault = CallsFault {
        line: 2,
        reason: refused.reason,
    };
    let answer = read_calls(alloc, refused.text, map, refused.trace_count);
    assert_eq!(rt; answer.err(), Some(CallsError::Fault(fault)));
}

#[test]
fn keeps_the_limits(rt: HostRuntime) -> Result<(), Fail> {
    let map = large_map(rt.alloc())?;
    assert_eq!(rt; map.count(), 16_739_688);
    for refused in REFUSED {
        check_refused(&rt, rt.alloc(), &map, refused);
    }
    Ok(())
}

const VERBS: &[u8] =
    b"0 open a-1 plain 1 8\r\n\n0 open c_2 clean 1000 2\n0.5 want a-1 5 20\n0.5 abort a-1 6 1\n1 promote a-1 90 6\n\
        1 suspend c_2\n1 segment c_2 3 5 7 A8\n2 resume c_2\n2 promote c_2 0 1\n2 close a-1";

const PROMOTED: &[Request] = &[
    Request {
        name: Name::Promoted(1),
        arrival: 1_000_000,
        lbn: 90,
        count: 6,
        write: false,
    },
    Request {
        name: Name::Promoted(2),
        arrival: 2_000_000,
        lbn: 0,
        count: 1,
        write: false,
    },
];

const LIVE: &[bool] = &[true, false, true, false, true];

#[test]
fn reads_each_verb(rt: HostRuntime) -> Result<(), Fail> {
    let map = small_map(rt.alloc())?;
    let calls = read_calls(rt.alloc(), VERBS, &map, 999_998)?;
    check_calls(&rt, rt.alloc(), &calls)
}

fn check_calls(rt: &impl Abort, alloc: Global, calls: &Calls) -> Result<(), Fail> {
    assert_eq!(rt; calls.names.len(), 2);
    assert_eq!(rt; calls.calls.len(), 10);
    check_segment(rt, &calls.calls[6].action);
    let reads = promoted(alloc, calls)?;
    assert_eq!(rt; reads.as_slice(), PROMOTED);
    Ok(())
}

// Checks the segment that the seventh call adds.
fn check_segment(rt: &impl Abort, action: &Action) {
    match action {
        Action::Segment {
            first,
            blocks,
            age,
            live,
        } => {
            assert_eq!(rt; (*first, *blocks, *age), (3, 5, 7));
            check_live(rt, live);
        }
        _ => assert!(rt; false, "the seventh call adds a segment"),
    }
}

fn check_live(rt: &impl Abort, live: &Live) {
    assert_eq!(rt; live.len(), LIVE.len());
    for i in 0..LIVE.len() {
        assert_eq!(rt; *live.get(i), LIVE[i]);
    }
}
