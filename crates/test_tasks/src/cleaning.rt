// Tasks that clean the segments of a log.
use crate::played::{Step, follow};
use fb_rows::How;
use fb_wanted::State;
use std::test::Fail;

#[test]
fn the_segment_of_greatest_benefit_is_cleaned_first(rt: HostRuntime) -> Result<(), Fail> {
    let steps = [
        Step::Prepare(0),
        Step::Check(0, 0, State::Wanted),
        Step::Deliver(0, 0, How::Idle, 500, 600),
        Step::Prepare(700),
        Step::Prepare(1200),
        Step::Deliver(0, 1, How::Idle, 1200, 1300),
        Step::Deliver(0, 2, How::Idle, 1400, 1500),
        Step::Prepare(3000),
    ];
    follow(
        &rt,
        rt.alloc(),
        b"0 open c clean 1 1\n0 segment c 0 4 10 a\n0 segment c 4 4 9 4\n",
        &[],
        &steps,
        "got c 0 5 1 500 600 idle 0 [5]\nseg c 2 600 1 [5]\ngot c 1 0 1 1200 1300 idle 0 [0]\ngot c 2 2 1 1400 1500 idle 0 [2]\nseg c 1 1500 2 [0][2]\ndone c 1500\ntask c clean 3 3 0 0 complete\n",
    )
}

#[test]
fn a_segment_without_live_blocks_is_clean_at_once(rt: HostRuntime) -> Result<(), Fail> {
    let steps = [Step::Prepare(0)];
    follow(
        &rt,
        rt.alloc(),
        b"0 open c clean 1 1\n0 segment c 0 4 10 0\n",
        &[],
        &steps,
        "seg c 1 0 0 -\ndone c 0\ntask c clean 0 0 0 0 complete\n",
    )
}

#[test]
fn a_close_aborts_the_rest_of_the_chosen_segment(rt: HostRuntime) -> Result<(), Fail> {
    let steps = [
        Step::Prepare(0),
        Step::Prepare(150),
        Step::Check(0, 0, State::Wanted),
        Step::Deliver(0, 1, How::Idle, 200, 300),
        Step::Prepare(350),
        Step::Check(0, 0, State::Aborted),
        Step::Check(0, 1, State::Delivered),
        Step::Prepare(1200),
    ];
    follow(
        &rt,
        rt.alloc(),
        b"0 open c clean 1 1\n0.000150 segment c 0 4 10 a\n0.000350 close c\n",
        &[],
        &steps,
        "got c 1 2 1 200 300 idle 0 [2]\ndone c 350\ntask c clean 2 1 1 0 complete\n",
    )
}

#[test]
fn a_suspended_task_chooses_too(rt: HostRuntime) -> Result<(), Fail> {
    let steps = [
        Step::Prepare(0),
        Step::Check(0, 0, State::Suspended),
        Step::Check(0, 1, State::Suspended),
        Step::Prepare(150),
        Step::Deliver(0, 1, How::Idle, 200, 300),
        Step::Deliver(0, 0, How::Idle, 1200, 1300),
        Step::Prepare(2400),
    ];
    follow(
        &rt,
        rt.alloc(),
        b"0 open c clean 1 1\n0 suspend c\n0 segment c 0 4 10 a\n0.000150 resume c\n",
        &[],
        &steps,
        "got c 1 2 1 200 300 idle 0 [2]\ngot c 0 0 1 1200 1300 idle 0 [0]\nseg c 1 1300 2 [0][2]\ndone c 1300\ntask c clean 2 2 0 0 complete\n",
    )
}

#[test]
fn a_close_drops_a_segment_that_is_not_chosen(rt: HostRuntime) -> Result<(), Fail> {
    let steps = [
        Step::Prepare(0),
        Step::Check(0, 0, State::Wanted),
        Step::Prepare(100),
        Step::Check(0, 0, State::Aborted),
        Step::Prepare(1200),
    ];
    follow(
        &rt,
        rt.alloc(),
        b"0 open c clean 1 1\n0 segment c 0 4 10 a\n0 segment c 4 4 9 4\n0.000100 close c\n",
        &[],
        &steps,
        "done c 100\ntask c clean 1 0 1 0 complete\n",
    )
}
