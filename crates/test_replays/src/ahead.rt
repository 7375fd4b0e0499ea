// No decision looks ahead: two replays that agree up to an instant have the same rows known by
// then.
ghost use Rattle.std.specs.Prelude.{◌<◌};

use fb_scene::{Ending, Scene, TWELVE, disk, end, scripted, unscripted};
use fb_units::{NoMemory, Ns, read_millis, read_number};
use std::alloc::Global;
use std::process::Abort;
use std::test::Fail;

// ---- rows that are known by an instant

// The field of a line, counted from 0.
fn field(line: &[u8], column: usize) -> &[u8] {
    match line.split(|byte| *byte == b' ').nth(column) {
        Some(text) => text,
        None => b"",
    }
}

// Which field of a row of either report tells when it is known, if it ever is.
fn column_of_instant(line: &[u8]) -> Option<usize> {
    if line.starts_with(b"gap ") {
        Some(4)
    } else if line.starts_with(b"idle ") || line.starts_with(b"seg ") {
        Some(3)
    } else if line.starts_with(b"got ") {
        Some(6)
    } else if line.starts_with(b"seal ") || line.starts_with(b"done ") {
        Some(2)
    } else if line.starts_with(b"freeblock ")
        || line.starts_with(b"task ")
        || line.starts_with(b"end ")
    {
        None
    } else {
        Some(5)
    }
}

// Whether the row is known by an instant; findings are not among these rows.
fn is_by(line: &[u8], instant: Ns) -> bool {
    match column_of_instant(line) {
        Some(column) => match read_number(field(line, column)) {
            Some(known) => known <= instant,
            None => false,
        },
        None => false,
    }
}

// The rows of a report that are known by an instant. A finding is known if the delivery before it
// is.
fn known(alloc: Global, report: &[u8], instant: Ns) -> Result<Vec<u8>, NoMemory> {
    let mut rows = Vec::new(alloc);
    let mut follows = false;
    for line in report.split(|byte| *byte == b'\n') {
        let is_finding = line.starts_with(b"bad ");
        let is_known = if is_finding {
            follows
        } else {
            is_by(line, instant)
        };
        follows = is_known && (is_finding || line.starts_with(b"got "));
        if is_known {
            rows.extend_from_slice(line)?;
            rows.push(b'\n')?;
        }
    }
    Ok(rows)
}

// Checks that both replays are done, and that the same rows of both are known by an instant.
fn check_alike(
    rt: &impl Abort,
    alloc: Global,
    one: &Ending,
    other: &Ending,
    instant: Ns,
) -> Result<(), Fail> {
    assert_eq!(rt; one.status, 0);
    assert_eq!(rt; other.status, 0);
    let fore = known(alloc, one.fore.as_slice(), instant)?;
    let other_fore = known(alloc, other.fore.as_slice(), instant)?;
    assert!(rt;
        fore.as_slice() == other_fore.as_slice(),
        "foreground by {instant}"
    );
    let back = known(alloc, one.back.as_slice(), instant)?;
    let other_back = known(alloc, other.back.as_slice(), instant)?;
    assert!(rt;
        back.as_slice() == other_back.as_slice(),
        "background by {instant}"
    );
    Ok(())
}

// ---- one more request

const READS: &str = "0 0 5 1 1\n0 0 24 1 1\n";

const MORE_READS: &str = "0 0 5 1 1\n0 0 24 1 1\n0.001260 0 72 1 1\n";

const WANTS: &str = "0 open a plain 1 1\n0 want a 6 2\n0 want a 35 1\n";

// The background rows up to 1,250 ns.
const KNOWN: &str = "gap 1 0.0 0.0 0 500 direct 0\n\
    gap 2 0.0 1.0 600 1200 direct 800\n\
    got a 0 6 1 600 700 gap 0 -\n\
    got a 1 7 1 700 800 gap 0 -\n\
    got a 2 35 1 1100 1200 gap 0 -\n\
    done a 1200\n";

// The background rows after that, first with two reads and then with three.
const REST: &str = "idle 1.0 1300 10000\ntask a plain 3 3 0 0 complete\nend 10000\n";

const MORE_REST: &str = "gap 3 1.0 3.0 1300 2400 direct 1300\n\
    idle 3.0 2500 10000\n\
    task a plain 3 3 0 0 complete\n\
    end 10000\n";

// Checks the whole background report.
fn check_back(rt: &impl Abort, alloc: Global, ending: &Ending, rest: &str) -> Result<(), Fail> {
    let report = format!(in alloc; "freeblock back 1\n{KNOWN}{rest}")?;
    assert_eq!(rt; ending.back.as_slice(), report.as_bytes());
    Ok(())
}

const UNTIL: &str =
    "freeblock replay --params k --trace t --policy fcfs --calls c --back b --until 0.01";

const AT_ONCE: &str = "freeblock replay --params k --trace t --policy fcfs --calls c --back b";

// Checks that a read that arrives at 1,260 ns changes nothing that is known by 1,250 ns.
fn check_more(rt: &impl Abort, alloc: Global, params: &[u8], words: &str) -> Result<(), Fail> {
    let few = end(
        alloc,
        &scripted(params, READS.as_bytes(), WANTS.as_bytes()),
        words,
    )?;
    let more = end(
        alloc,
        &scripted(params, MORE_READS.as_bytes(), WANTS.as_bytes()),
        words,
    )?;
    check_alike(rt, alloc, &few, &more, 1250)?;
    let back = known(alloc, few.back.as_slice(), 1250)?;
    assert_eq!(rt; back.as_slice(), KNOWN.as_bytes());
    Ok(())
}

#[test]
fn a_later_read_changes_nothing_known_before(rt: HostRuntime) -> Result<(), Fail> {
    let alloc = rt.alloc();
    let params = disk(alloc, "", TWELVE)?;
    check_more(&rt, alloc, params.as_bytes(), UNTIL)?;
    check_more(&rt, alloc, params.as_bytes(), AT_ONCE)
}

#[test]
fn a_later_read_comes_after_what_is_known(rt: HostRuntime) -> Result<(), Fail> {
    let alloc = rt.alloc();
    let params = disk(alloc, "", TWELVE)?;
    let few = end(
        alloc,
        &scripted(params.as_bytes(), READS.as_bytes(), WANTS.as_bytes()),
        UNTIL,
    )?;
    check_back(&rt, alloc, &few, REST)?;
    let more = end(
        alloc,
        &scripted(params.as_bytes(), MORE_READS.as_bytes(), WANTS.as_bytes()),
        UNTIL,
    )?;
    check_back(&rt, alloc, &more, MORE_REST)?;
    assert!(&rt;
        more.fore
            .as_slice()
            .ends_with(b"\n3 R 72 1 1260 1300 2400 2500 0 -\nend 3 0\n")
    );
    Ok(())
}

// ---- a made trace, changed after each arrival in turn

const MAKE: &str = "freeblock make --params k --trace t --calls c --number 7 --requests 40";

// The second in which the replays end comes after all that they serve.
const LONG: &str =
    "freeblock replay --params k --trace t --policy sptf --calls c --back b --until 1000000";

// When the request of a line arrives.
fn arrival(line: &[u8]) -> Option<Ns> {
    read_millis(field(line, 0))
}

// The trace in which each request that arrives after an instant reads the first sector.
fn changed(alloc: Global, trace: &[u8], instant: Ns) -> Result<Vec<u8>, NoMemory> {
    let mut text = Vec::new(alloc);
    for line in trace.split(|byte| *byte == b'\n') {
        match arrival(line) {
            Some(arrives) => {
                if arrives <= instant {
                    text.extend_from_slice(line)?;
                } else {
                    text.extend_from_slice(field(line, 0))?;
                    text.extend_from_slice(b" 0 0 1 1")?;
                }
                text.push(b'\n')?;
            }
            None => {}
        }
    }
    Ok(text)
}

// Checks that what is known by an instant stays as it is where later requests are changed.
fn check_changed(
    rt: &impl Abort,
    alloc: Global,
    scene: &Scene,
    whole: &Ending,
    instant: Ns,
) -> Result<(), Fail> {
    let trace = changed(alloc, scene.trace, instant)?;
    let ending = end(
        alloc,
        &scripted(scene.params, trace.as_slice(), scene.calls),
        LONG,
    )?;
    check_alike(rt, alloc, whole, &ending, instant)
}

#[test]
fn later_requests_change_nothing_known_before(rt: HostRuntime) -> Result<(), Fail> {
    let alloc = rt.alloc();
    let params = disk(alloc, "", TWELVE)?;
    let made = end(alloc, &unscripted(params.as_bytes(), b""), MAKE)?;
    let scene = scripted(
        params.as_bytes(),
        made.made_trace.as_slice(),
        made.made_calls.as_slice(),
    );
    let whole = end(alloc, &scene, LONG)?;
    for line in scene.trace.split(|byte| *byte == b'\n') {
        match arrival(line) {
            Some(instant) => check_changed(&rt, alloc, &scene, &whole, instant)?,
            None => {}
        }
    }
    Ok(())
}
