use fb_params::{ParamsError, ParamsFault, read_params};
use fb_units::KeyText;
use std::alloc::{AllocError, Global};
use std::process::Abort;
use std::test::Fail;

// A disk of 96 sectors: the keys up to its seek table, that table, and its zone.
const TOP: &str =
    "version = 1\nrotation_ns = 1200\nsector_bytes = 16\nheads = 2\nhead_switch_ns = 200\nwrite_settle_ns = 50\n";

// The same with a word for the heads, and with a rotation of no time.
const TOP_OF_WORD: &str =
    "version = 1\nrotation_ns = 1200\nsector_bytes = 16\nheads = \"2\"\nhead_switch_ns = 200\nwrite_settle_ns = 50\n";

const TOP_OF_ZERO: &str =
    "version = 1\nrotation_ns = 0\nsector_bytes = 16\nheads = 2\nhead_switch_ns = 200\nwrite_settle_ns = 50\n";

const SEEK: &str = "seek = [[1, 300], [3, 500]]\n";

const ZONE: &str = "[[zone]]\nfirst = 0\nlast = 3\nsectors = 12\n";

// The first with two spares at the end of each cylinder.
const TOP_OF_TWO: &str =
    "version = 2\nrotation_ns = 1200\nsector_bytes = 16\nheads = 2\nhead_switch_ns = 200\nwrite_settle_ns = 50\n";

const ZONE_OF_TWO: &str = "[[zone]]\nfirst = 0\nlast = 3\nsectors = 12\ncylinder_spares = 2\n";

#[test]
fn faults_of_keys(rt: HostRuntime) -> Result<(), Fail> {
    let rows = [
        (["", "", ""], "MissingKey version"),
        (["speed = 1\n", TOP, SEEK], "UnknownKey speed"),
        ([TOP_OF_WORD, SEEK, ZONE], "WrongKind heads"),
        ([TOP_OF_ZERO, SEEK, ZONE], "OutOfRange rotation_ns"),
        (["version = 1\n", TOP, SEEK], "NotToml"),
    ];
    for (parts, expected) in rows {
        check_answer(&rt, rt.alloc(), parts.as_slice(), expected)?;
    }
    Ok(())
}

#[test]
fn faults_of_zone_keys(rt: HostRuntime) -> Result<(), Fail> {
    let rows = [
        ([TOP, SEEK, ""], "MissingKey zone"),
        (
            [TOP, SEEK, "[[zone]]\nfirst = 0\nlast = 3\n"],
            "MissingKey zone.sectors",
        ),
        (
            [TOP, SEEK, "[[zone]]\nfirst = 0\nlast = 3\nsect"],
            "NotToml",
        ),
        (
            [
                TOP_OF_TWO,
                SEEK,
                "[[zone]]\nfirst = 0\nlast = 3\nsectors = 12\nspares = 2\ncylinder_spares = 2\n",
            ],
            "UnknownKey zone.spares",
        ),
    ];
    for (parts, expected) in rows {
        check_answer(&rt, rt.alloc(), parts.as_slice(), expected)?;
    }
    Ok(())
}

#[test]
fn faults_of_zones(rt: HostRuntime) -> Result<(), Fail> {
    let rows = [
        ([TOP, SEEK, ZONE, ""], "accepted"),
        ([TOP, SEEK, ZONE, "spares = 12\n"], "Geometry OutOfRange"),
        (
            [
                TOP,
                SEEK,
                "[[zone]]\nfirst = 1\nlast = 3\nsectors = 12\n",
                "",
            ],
            "Geometry ZonesNotContiguous(0)",
        ),
        (
            [TOP, SEEK, ZONE, "track_skew = 12\n"],
            "Geometry SkewTooLarge(0)",
        ),
    ];
    for (parts, expected) in rows {
        check_answer(&rt, rt.alloc(), parts.as_slice(), expected)?;
    }
    Ok(())
}

#[test]
fn faults_of_listed_places(rt: HostRuntime) -> Result<(), Fail> {
    let rows = [
        (
            "defects = [[4, 0, 0]]\n",
            "Geometry DefectOutside(Place { track: Track { cylinder: 4, head: 0 }, slot: 0 })",
        ),
        (
            "defects = [[0, 1, 3], [0, 1, 3]]\n",
            "Geometry DefectTwice(Place { track: Track { cylinder: 0, head: 1 }, slot: 3 })",
        ),
        (
            "defects = [[0, 1, 3]]\n",
            "Geometry TooManyDefects(Track { cylinder: 0, head: 1 })",
        ),
        ("latent = [96]\n", "LatentOutside 96"),
    ];
    for (listed, expected) in rows {
        check_answer(&rt, rt.alloc(), &[TOP, SEEK, listed, ZONE], expected)?;
    }
    Ok(())
}

#[test]
fn faults_of_grown_defects(rt: HostRuntime) -> Result<(), Fail> {
    let rows = [
        (
            "grown = [[4, 0, 0]]\n",
            "Geometry GrownOutside(Place { track: Track { cylinder: 4, head: 0 }, slot: 0 })",
        ),
        (
            "grown = [[0, 0, 3], [0, 0, 3]]\n",
            "Geometry GrownTwice(Place { track: Track { cylinder: 0, head: 0 }, slot: 3 })",
        ),
        (
            "grown = [[0, 0, 1], [0, 0, 2], [0, 0, 3]]\n",
            "Geometry TooManyInCylinder(0)",
        ),
    ];
    for (listed, expected) in rows {
        check_answer(
            &rt,
            rt.alloc(),
            &[TOP_OF_TWO, SEEK, listed, ZONE_OF_TWO],
            expected,
        )?;
    }
    Ok(())
}

#[test]
fn faults_of_seek_tables(rt: HostRuntime) -> Result<(), Fail> {
    let rows = [
        ("seek = []\n", "Seek NoPoints"),
        ("seek = [[2, 300], [3, 500]]\n", "Seek FirstNotOne"),
        ("seek = [[1, 300], [1, 500]]\n", "Seek DistanceNotRising(1)"),
        ("seek = [[1, 300], [3, 200]]\n", "Seek TimeFalls(1)"),
        ("seek = [[1, 300], [2, 400]]\n", "Seek TooShort"),
        ("seek = [[1, 0], [3, 500]]\n", "Seek OutOfRange"),
    ];
    for (seek, expected) in rows {
        check_answer(&rt, rt.alloc(), &[TOP, seek, ZONE], expected)?;
    }
    Ok(())
}

// Reading the text of these parts gives this answer.
fn check_answer(
    rt: &impl Abort,
    alloc: Global,
    parts: &[&str],
    expected: &str,
) -> Result<(), Fail> {
    let answer = answer(alloc, parts)?;
    assert_eq!(rt; answer.as_str(), expected, "for {parts:?}");
    Ok(())
}

// What reading the text of these parts gives.
fn answer(alloc: Global, parts: &[&str]) -> Result<String, AllocError> {
    let mut text = String::new(alloc);
    for part in parts {
        text.push_str(*part)?;
    }
    match read_params(alloc, text.as_bytes()) {
        Ok(_) => String::from_str(alloc, "accepted"),
        Err(error) => spelled(alloc, &error),
    }
}

fn spelled(alloc: Global, error: &ParamsError) -> Result<String, AllocError> {
    match error {
        ParamsError::Fault(fault) => fault_spelled(alloc, fault),
        ParamsError::NoMemory => String::from_str(alloc, "NoMemory"),
    }
}

fn fault_spelled(alloc: Global, fault: &ParamsFault) -> Result<String, AllocError> {
    match fault {
        ParamsFault::NotToml => String::from_str(alloc, "NotToml"),
        ParamsFault::UnknownKey(key) => with_key(alloc, "UnknownKey ", key),
        ParamsFault::MissingKey(key) => with_key(alloc, "MissingKey ", key),
        ParamsFault::WrongKind(key) => with_key(alloc, "WrongKind ", key),
        ParamsFault::OutOfRange(key) => with_key(alloc, "OutOfRange ", key),
        ParamsFault::Geometry(fault) => format!(in alloc; "Geometry {fault:?}"),
        ParamsFault::Seek(fault) => format!(in alloc; "Seek {fault:?}"),
        ParamsFault::LatentOutside(lbn) => format!(in alloc; "LatentOutside {lbn}"),
    }
}

fn with_key(alloc: Global, fault: &str, key: &KeyText) -> Result<String, AllocError> {
    let mut text = String::from_str(alloc, fault)?;
    for i in 0..key.len() {
        text.push(char::from(*key.get(i)))?;
    }
    Ok(text)
}
