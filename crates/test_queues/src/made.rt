// Many generated gaps, on disks of one, four and thirty cylinders and on one of 100,000.
ghost use Rattle.std.specs.Prelude.{◌<◌};

use crate::gaps::{LINEAR, STEEP, Setting, Wish, answers};
use fb_rows::Gap;
use fb_seek::SeekPoint;
use fb_units::{NoMemory, Track};
use std::alloc::Global;
use std::test::Fail;

const LONG: &[SeekPoint] = &[
    SeekPoint {
        distance: 1,
        time: 100,
    },
    SeekPoint {
        distance: 2,
        time: 260,
    },
    SeekPoint {
        distance: 9,
        time: 300,
    },
    SeekPoint {
        distance: 29,
        time: 700,
    },
];

const FLAT: &[SeekPoint] = &[
    SeekPoint {
        distance: 1,
        time: 100,
    },
    SeekPoint {
        distance: 99_999,
        time: 700,
    },
];

// The next number of a pseudorandom series.
fn next_number(number: u64) -> u64 {
    number
        .wrapping_mul(6_364_136_223_846_793_005)
        .wrapping_add(1_442_695_040_888_963_407)
}

// A part of the number's bits, reduced to less than the limit.
fn part(number: u64, shift: u32, limit: u64) -> u64
    requires some { 0 < limit }
    requires shift { shift < 64 }
    ensures { result < limit }
{
    (number >> shift) % limit
}

fn made_track(number: u64, cylinders: u32) -> Track
    requires { 0 < cylinders }
{
    Track {
        cylinder: part(number, 20, cylinders as u64) as u32,
        head: part(number, 40, 2) as u32,
    }
}

fn made_wish(number: u64, cylinders: u32) -> Wish
    requires { 0 < cylinders }
{
    let lbn = part(number, 10, 24 * cylinders as u64);
    let is_last_of_track = lbn % 12 == 11;
    Wish {
        lbn,
        count: if is_last_of_track {
            1
        } else {
            1 + part(number, 24, 2) as u32
        },
        weight: 1 + part(number, 32, 3) as u32,
        suspended: part(number, 40, 4) == 0,
    }
}

fn made_gap(number: u64, cylinders: u32) -> Gap
    requires { 0 < cylinders }
{
    let from = next_number(number);
    let now = part(from, 8, 1200);
    Gap {
        source: made_track(number, cylinders),
        target: made_track(from, cylinders),
        now,
        deadline: now + 750 + part(from, 40, 1500),
        write: part(number, 50, 4) == 0,
    }
}

// Whether both planners choose the same plan for the gap and the blocks that the number generates.
fn agree(alloc: Global, seek: &[SeekPoint], cylinders: u32, number: u64) -> Result<bool, NoMemory>
    requires { 0 < cylinders }
{
    let mut wishes = [made_wish(number, cylinders); 60];
    let mut last = number;
    for i in 0..60 {
        last = next_number(last);
        wishes[i] = made_wish(last, cylinders);
    }
    let many = 1 + part(last, 45, 60) as usize;
    let setting = Setting {
        seek,
        last_cylinder: cylinders - 1,
        track_skew: part(last, 35, 12) as u32,
        gap: made_gap(next_number(last), cylinders),
    };
    match answers(alloc, &setting, &wishes[..many])? {
        Some(answers) => Ok(answers.slow == answers.indexed),
        None => Ok(false),
    }
}

#[test]
fn planners_agree(rt: HostRuntime) -> Result<(), Fail> {
    let mut number = 1;
    for _ in 0..200 {
        number = next_number(number);
        assert!(rt;
            agree(rt.alloc(), LINEAR, 1, number)?,
            "other plans: {number}"
        );
        assert!(rt;
            agree(rt.alloc(), LINEAR, 4, number)?,
            "other plans: {number}"
        );
        assert!(rt;
            agree(rt.alloc(), STEEP, 4, number)?,
            "other plans: {number}"
        );
        assert!(rt;
            agree(rt.alloc(), LONG, 30, number)?,
            "other plans: {number}"
        );
    }
    Ok(())
}

#[test]
fn planners_agree_on_many_cylinders(rt: HostRuntime) -> Result<(), Fail> {
    let mut number = 2;
    for _ in 0..3 {
        number = next_number(number);
        assert!(rt;
            agree(rt.alloc(), FLAT, 100_000, number)?,
            "other plans: {number}"
        );
    }
    Ok(())
}
