// Tasks that read blocks.
use crate::played::{Step, follow};
use fb_rows::How;
use fb_wanted::State;
use std::test::Fail;

#[test]
fn a_delivered_block_completes_its_task(rt: HostRuntime) -> Result<(), Fail> {
    let steps = [
        Step::Prepare(0),
        Step::Deliver(0, 0, How::Idle, 500, 600),
        Step::Prepare(600),
        Step::Prepare(1300),
    ];
    follow(
        &rt,
        rt.alloc(),
        b"0 open a plain 1 1\n0 want a 5 1\n",
        &[],
        &steps,
        "got a 0 5 1 500 600 idle 0 [5]\ndone a 600\ntask a plain 1 1 0 0 complete\n",
    )
}

#[test]
fn a_task_without_blocks_is_open(rt: HostRuntime) -> Result<(), Fail> {
    follow(
        &rt,
        rt.alloc(),
        b"0 open a plain 1 1\n",
        &[],
        &[Step::Prepare(0)],
        "task a plain 0 0 0 0 open\n",
    )
}

#[test]
fn an_abort_between_decisions_waits_for_the_next(rt: HostRuntime) -> Result<(), Fail> {
    let steps = [
        Step::Prepare(0),
        Step::Prepare(600),
        Step::Deliver(0, 0, How::Gap, 600, 700),
        Step::Deliver(0, 1, How::Gap, 700, 800),
        Step::Deliver(0, 2, How::Gap, 1100, 1200),
        Step::Prepare(1300),
        Step::Check(0, 1, State::Delivered),
    ];
    follow(
        &rt,
        rt.alloc(),
        b"0 open a plain 1 1\n0 want a 6 2\n0 want a 35 1\n0.000650 abort a 7 1\n",
        &[],
        &steps,
        "got a 0 6 1 600 700 gap 0 [6]\ngot a 1 7 1 700 800 gap 0 [7]\ngot a 2 35 1 1100 1200 gap 0 [35]\ndone a 1200\ntask a plain 3 3 0 0 complete\n",
    )
}

#[test]
fn an_aborted_block_is_not_delivered(rt: HostRuntime) -> Result<(), Fail> {
    let steps = [
        Step::Prepare(0),
        Step::Check(0, 1, State::Wanted),
        Step::Prepare(600),
        Step::Deliver(0, 0, How::Gap, 600, 700),
        Step::Deliver(0, 2, How::Gap, 1100, 1200),
        Step::Prepare(1300),
        Step::Check(0, 1, State::Aborted),
    ];
    follow(
        &rt,
        rt.alloc(),
        b"0 open a plain 1 1\n0 want a 6 2\n0 want a 35 1\n0.000600 abort a 7 1\n",
        &[],
        &steps,
        "got a 0 6 1 600 700 gap 0 [6]\ngot a 2 35 1 1100 1200 gap 0 [35]\ndone a 1200\ntask a plain 3 2 1 0 complete\n",
    )
}

#[test]
fn a_suspended_task_stays_open(rt: HostRuntime) -> Result<(), Fail> {
    let steps = [
        Step::Prepare(0),
        Step::Prepare(600),
        Step::Check(0, 0, State::Suspended),
        Step::Check(0, 1, State::Suspended),
        Step::Check(0, 2, State::Suspended),
        Step::Prepare(1300),
    ];
    follow(
        &rt,
        rt.alloc(),
        b"0 open a plain 1 1\n0 want a 6 2\n0 want a 35 1\n0.000600 suspend a\n",
        &[],
        &steps,
        "task a plain 3 0 0 3 open\n",
    )
}

#[test]
fn a_closed_task_is_complete(rt: HostRuntime) -> Result<(), Fail> {
    let steps = [
        Step::Prepare(0),
        Step::Prepare(600),
        Step::Check(0, 0, State::Aborted),
        Step::Check(0, 1, State::Aborted),
        Step::Check(0, 2, State::Aborted),
        Step::Prepare(1300),
    ];
    follow(
        &rt,
        rt.alloc(),
        b"0 open a plain 1 1\n0 want a 6 2\n0 want a 35 1\n0.000600 close a\n",
        &[],
        &steps,
        "done a 600\ntask a plain 3 0 3 0 complete\n",
    )
}

#[test]
fn a_resume_of_a_task_never_suspended_does_nothing(rt: HostRuntime) -> Result<(), Fail> {
    let steps = [
        Step::Prepare(0),
        Step::Prepare(600),
        Step::Deliver(0, 0, How::Gap, 600, 700),
        Step::Deliver(0, 1, How::Gap, 700, 800),
        Step::Deliver(0, 2, How::Gap, 1100, 1200),
        Step::Prepare(1300),
    ];
    follow(
        &rt,
        rt.alloc(),
        b"0 open a plain 1 1\n0 want a 6 2\n0 want a 35 1\n0.000600 resume a\n",
        &[],
        &steps,
        "got a 0 6 1 600 700 gap 0 [6]\ngot a 1 7 1 700 800 gap 0 [7]\ngot a 2 35 1 1100 1200 gap 0 [35]\ndone a 1200\ntask a plain 3 3 0 0 complete\n",
    )
}

#[test]
fn each_task_has_its_own_blocks(rt: HostRuntime) -> Result<(), Fail> {
    let steps = [
        Step::Prepare(0),
        Step::Prepare(600),
        Step::Deliver(1, 0, How::Gap, 900, 1000),
        Step::Prepare(1300),
        Step::Check(0, 0, State::Wanted),
        Step::Check(0, 1, State::Wanted),
        Step::Check(1, 0, State::Delivered),
    ];
    follow(
        &rt,
        rt.alloc(),
        b"0 open a plain 1 1\n0 want a 6 2\n0 open b plain 5 1\n0 want b 33 1\n",
        &[],
        &steps,
        "got b 0 33 1 900 1000 gap 0 [33]\ndone b 1000\ntask a plain 2 0 0 2 open\ntask b plain 1 1 0 0 complete\n",
    )
}

#[test]
fn a_task_is_complete_again_after_a_new_want(rt: HostRuntime) -> Result<(), Fail> {
    let steps = [
        Step::Prepare(0),
        Step::Deliver(0, 0, How::Idle, 600, 700),
        Step::Prepare(700),
        Step::Write(6, 1, 1),
        Step::Prepare(1900),
        Step::Check(0, 0, State::Delivered),
        Step::Prepare(2000),
        Step::Check(0, 1, State::Wanted),
        Step::Deliver(0, 1, How::Idle, 3000, 3100),
        Step::Prepare(4000),
    ];
    follow(
        &rt,
        rt.alloc(),
        b"0 open a plain 1 1\n0 want a 6 1\n0.002000 want a 6 1\n",
        &[],
        &steps,
        "got a 0 6 1 600 700 idle 0 [6]\ndone a 700\ngot a 1 6 1 3000 3100 idle 0 [1:6]\ndone a 3100\ntask a plain 2 2 0 0 complete\n",
    )
}

#[test]
fn a_scrub_finds_a_sector_that_cannot_be_read(rt: HostRuntime) -> Result<(), Fail> {
    let steps = [
        Step::Prepare(0),
        Step::Deliver(0, 0, How::Idle, 400, 800),
        Step::Prepare(1200),
    ];
    follow(
        &rt,
        rt.alloc(),
        b"0 open s scrub 1 4\n0 want s 4 4\n",
        &[6],
        &steps,
        "got s 0 4 4 400 800 idle 1 [4][5][bad 6][7]\nbad s 6\ndone s 800\ntask s scrub 1 1 0 0 complete\n",
    )
}
