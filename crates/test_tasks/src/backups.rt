// Backups, and writes over their blocks.
use crate::played::{Step, follow};
use fb_rows::How;
use fb_wanted::State;
use std::test::Fail;

#[test]
fn an_overwritten_block_is_wanted_again(rt: HostRuntime) -> Result<(), Fail> {
    let steps = [
        Step::Prepare(0),
        Step::Deliver(0, 0, How::Idle, 0, 200),
        Step::Prepare(250),
        Step::Write(0, 1, 1),
        Step::Check(0, 0, State::Wanted),
        Step::Prepare(1300),
        Step::Deliver(0, 1, How::Idle, 1400, 1600),
        Step::Deliver(0, 0, How::Idle, 2400, 2600),
        Step::Prepare(4000),
    ];
    follow(
        &rt,
        rt.alloc(),
        b"0 open b backup 1 2\n0 want b 0 4\n",
        &[],
        &steps,
        "got b 0 0 2 0 200 idle 0 [0][1]\ngot b 1 2 2 1400 1600 idle 0 [2][3]\ngot b 0 0 2 2400 2600 idle 0 [1:0][1]\nseal b 2600 4 [1:0][1][2][3]\ndone b 2600\ntask b backup 2 2 0 0 complete\n",
    )
}

#[test]
fn a_sealed_block_is_not_wanted_again(rt: HostRuntime) -> Result<(), Fail> {
    let steps = [
        Step::Prepare(0),
        Step::Deliver(0, 0, How::Idle, 0, 200),
        Step::Prepare(250),
        Step::Write(0, 1, 1),
        Step::Check(0, 0, State::Delivered),
        Step::Prepare(1300),
        Step::Prepare(4000),
    ];
    follow(
        &rt,
        rt.alloc(),
        b"0 open b backup 1 2\n0 want b 0 4\n0 abort b 2 2\n",
        &[],
        &steps,
        "got b 0 0 2 0 200 idle 0 [0][1]\nseal b 200 2 [0][1]\ndone b 200\ntask b backup 2 1 1 0 complete\n",
    )
}

#[test]
fn an_overwritten_block_of_a_suspended_backup_waits(rt: HostRuntime) -> Result<(), Fail> {
    let steps = [
        Step::Prepare(0),
        Step::Deliver(0, 0, How::Idle, 0, 200),
        Step::Prepare(250),
        Step::Check(0, 0, State::Delivered),
        Step::Check(0, 1, State::Suspended),
        Step::Write(0, 1, 1),
        Step::Check(0, 0, State::Suspended),
        Step::Prepare(1300),
        Step::Prepare(2000),
        Step::Check(0, 0, State::Wanted),
        Step::Check(0, 1, State::Wanted),
        Step::Deliver(0, 0, How::Idle, 2400, 2600),
        Step::Deliver(0, 1, How::Idle, 2600, 2800),
        Step::Prepare(4000),
    ];
    follow(
        &rt,
        rt.alloc(),
        b"0 open b backup 1 2\n0 want b 0 4\n0.000250 suspend b\n0.002000 resume b\n",
        &[],
        &steps,
        "got b 0 0 2 0 200 idle 0 [0][1]\ngot b 0 0 2 2400 2600 idle 0 [1:0][1]\ngot b 1 2 2 2600 2800 idle 0 [2][3]\nseal b 2800 4 [1:0][1][2][3]\ndone b 2800\ntask b backup 2 2 0 0 complete\n",
    )
}
