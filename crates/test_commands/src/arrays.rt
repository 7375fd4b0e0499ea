// Arrays of devices, and replacements that are rebuilt.
ghost use Rattle.std.specs.Prelude.{◌<◌};

use crate::refused::check_refused;
use fb_scene::{Scene, TWELVE, disk, end, unscripted};
use std::alloc::Global;
use std::process::Abort;
use std::test::Fail;

const ONE_TRACK: &str = "version = 1\n\
    rotation_ns = 1200\n\
    sector_bytes = 16\n\
    heads = 1\n\
    head_switch_ns = 200\n\
    write_settle_ns = 50\n\
    seek = [[1, 300], [3, 500]]\n\
    [[zone]]\n\
    first = 0\n\
    last = 0\n\
    sectors = 12\n";

// A disk whose tracks give more blocks than a script may ask for.
const WIDE: &str = "version = 1\n\
    rotation_ns = 1200\n\
    sector_bytes = 16\n\
    heads = 64\n\
    head_switch_ns = 200\n\
    write_settle_ns = 50\n\
    seek = [[1, 300], [999999, 500]]\n\
    [[zone]]\n\
    first = 0\n\
    last = 999999\n\
    sectors = 12\n";

const TWO_DEVICES: &str =
    "freeblock array --params k --trace t --policy fcfs --devices 2 --bytes hex";

const SECTIONS: &str = "freeblock array 1\n\
    device 0\n\
    freeblock fore 1\n\
    1 R 5 1 0 0 500 600 0 00000000000000000000000000000005\n\
    end 1 1\n\
    device 1\n\
    freeblock fore 1\n\
    1 R 24 1 0 0 1200 1300 0 00000000000000000000000000000018\n\
    end 1 1\n\
    end 2\n";

const REBUILD: &str = "freeblock array --params k --trace t --policy fcfs --devices 1 \
    --rebuild 0 --back b --copy y --until 0.004";

const CUT_SHORT: &str = "freeblock array --params k --trace t --policy fcfs --devices 1 \
    --rebuild 0 --back b --copy y --until 0.003";

const ONE_WRITE: &[u8] = b"0.000250 0 0 1 0\n";

// The section of a device that serves one write, and the end of its array.
const WRITE_SECTION: &str = "freeblock array 1\n\
    device 0\n\
    freeblock fore 1\n\
    1 W 0 1 250 250 1200 1300 0 -\n\
    end 1 0\n\
    end 1\n";

const SEALED_BACK: &str = "freeblock back 1\n\
    idle 0.0 0 250\n\
    gap 1 0.0 0.0 250 1200 direct 250\n\
    idle 0.0 1300 4000\n\
    got rebuild 0 0 12 2400 3600 idle 0 -\n\
    seal rebuild 3600 12 -\n\
    done rebuild 3600\n\
    task rebuild backup 1 1 0 0 complete\n\
    end 4000\n";

const SEALED_COPY: &str = "freeblock copy 1\nsealed 3600\nrun 0 1 1\nrun 1 11 0\nend 12 0\n";

const OPEN_BACK: &str = "freeblock back 1\n\
    idle 0.0 0 250\n\
    gap 1 0.0 0.0 250 1200 direct 250\n\
    idle 0.0 1300 3000\n\
    task rebuild backup 1 0 0 1 open\n\
    end 3000\n";

const OPEN_COPY: &str = "freeblock copy 1\nopen\nrun 0 1 1\nrun 1 11 bad\nend 1 11\n";

// Checks what an array writes.
fn check_array(
    rt: &impl Abort,
    alloc: Global,
    scene: &Scene,
    words: &str,
    texts: [&str; 3],
) -> Result<(), Fail>
    requires { 0 < scene.now.piece }
{
    let array = end(alloc, scene, words)?;
    let [fore, back, copy] = texts;
    assert_eq!(rt; array.status, 0);
    assert_eq!(rt; array.note.len(), 0);
    assert_eq!(rt; array.fore.as_slice(), fore.as_bytes());
    assert_eq!(rt; array.back.as_slice(), back.as_bytes());
    assert_eq!(rt; array.copy.as_slice(), copy.as_bytes());
    Ok(())
}

#[test]
fn each_device_has_a_section(rt: HostRuntime) -> Result<(), Fail> {
    let alloc = rt.alloc();
    let params = disk(alloc, "", TWELVE)?;
    let scene = unscripted(params.as_bytes(), b"0 0 5 1 1\n0 1 24 1 1\n");
    check_array(&rt, alloc, &scene, TWO_DEVICES, [SECTIONS, "", ""])
}

#[test]
fn rebuilds_are_sealed_or_stay_open(rt: HostRuntime) -> Result<(), Fail> {
    let alloc = rt.alloc();
    let scene = unscripted(ONE_TRACK.as_bytes(), ONE_WRITE);
    check_array(
        &rt,
        alloc,
        &scene,
        REBUILD,
        [WRITE_SECTION, SEALED_BACK, SEALED_COPY],
    )?;
    check_array(
        &rt,
        alloc,
        &scene,
        CUT_SHORT,
        [WRITE_SECTION, OPEN_BACK, OPEN_COPY],
    )
}

#[test]
fn a_disk_of_too_many_blocks_is_not_rebuilt(rt: HostRuntime) -> Result<(), Fail> {
    let alloc = rt.alloc();
    let scene = unscripted(WIDE.as_bytes(), ONE_WRITE);
    let note = "freeblock: calls: line 2: TooManyBlocks\n";
    check_refused(&rt, alloc, &scene, REBUILD, 5, note)
}

#[test]
fn the_fault_of_the_least_device_is_told(rt: HostRuntime) -> Result<(), Fail> {
    let alloc = rt.alloc();
    let params = disk(alloc, "", TWELVE)?;
    let scene = unscripted(params.as_bytes(), b"0 1 95 2 1\n0 0 5 0 1\n");
    let note = "freeblock: trace: line 2: Empty\n";
    check_refused(&rt, alloc, &scene, TWO_DEVICES, 4, note)
}
