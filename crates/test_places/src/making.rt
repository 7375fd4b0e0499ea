// Traces from one seed, whose values were worked out apart from the program, and scripts for three
// disks.
ghost use Rattle.std.specs.Prelude.{◌≤◌, ◌^◌};

use crate::disks::{large_map, short_tracks, small_map};
use fb_maker::{Maker, made_calls};
use fb_sectormap::SectorMap;
use fb_units::NoMemory;
use std::alloc::Global;
use std::process::Abort;
use std::test::Fail;

// The first three lines for a disk with this number of sectors.
fn first_lines(alloc: Global, device: u64, sectors: u64) -> Result<Vec<u8>, NoMemory>
    requires device { device ≤ 10 ^ 15 }
    requires some { 1 ≤ sectors }
    requires few { sectors ≤ 10 ^ 12 }
{
    let mut maker = Maker::new(7, device, sectors);
    let mut text = maker.next_line(alloc)?;
    text.extend_from_slice(maker.next_line(alloc)?.as_slice())?;
    text.extend_from_slice(maker.next_line(alloc)?.as_slice())?;
    Ok(text)
}

fn check_lines(
    rt: &impl Abort,
    alloc: Global,
    device: u64,
    sectors: u64,
    expected: &str,
) -> Result<(), Fail>
    requires device { device ≤ 10 ^ 15 }
    requires some { 1 ≤ sectors }
    requires few { sectors ≤ 10 ^ 12 }
{
    let lines = first_lines(alloc, device, sectors)?;
    assert_eq!(rt; lines.as_slice(), expected.as_bytes());
    Ok(())
}

#[test]
fn lines_of_a_number(rt: HostRuntime) -> Result<(), Fail> {
    let small = "10.957685 0 0 96 0\n21.085527 0 61 16 0\n22.474220 0 6 80 1\n";
    check_lines(&rt, rt.alloc(), 0, 96, small)?;
    let large = "10.957685 3 4790676 104 0\n21.085527 3 6895462 16 0\n22.474220 3 3482184 80 1\n";
    check_lines(&rt, rt.alloc(), 3, 16_739_688, large)?;
    let least = "10.957685 0 0 5 0\n21.085527 0 0 5 0\n22.474220 0 0 5 1\n";
    check_lines(&rt, rt.alloc(), 0, 5, least)
}

const SMALL_SCRIPT: &str =
    "0.000000 open scrub scrub 1 16\n0.000000 want scrub 0 96\n0.000000 open backup backup 2 16\n0.000000 want backup 0 96\n";

const LARGE_SCRIPT: &str =
    "0.000000 open scrub scrub 1 16\n0.000000 want scrub 0 16739688\n0.000000 open backup backup 2 16\n0.000000 want backup 0 6639336\n";

const SHORT_SCRIPT: &str =
    "0.000000 open scrub scrub 1 16\n0.000000 want scrub 0 1000000\n0.000000 open backup backup 2 16\n0.000000 want backup 0 1000000\n";

// Checks the script that is made for a disk.
fn check_script(rt: &impl Abort, alloc: Global, map: SectorMap, script: &str) -> Result<(), Fail> {
    check_text(rt, made_calls(alloc, &map), script)
}

fn check_text(
    rt: &impl Abort,
    text: Result<Vec<u8>, NoMemory>,
    expected: &str,
) -> Result<(), Fail> {
    let text = text?;
    assert_eq!(rt; text.as_slice(), expected.as_bytes());
    Ok(())
}

#[test]
fn scripts_of_disks(rt: HostRuntime) -> Result<(), Fail> {
    let alloc = rt.alloc();
    check_script(&rt, alloc, small_map(alloc)?, SMALL_SCRIPT)?;
    check_script(&rt, alloc, large_map(alloc)?, LARGE_SCRIPT)?;
    check_script(&rt, alloc, short_tracks(alloc)?, SHORT_SCRIPT)
}
