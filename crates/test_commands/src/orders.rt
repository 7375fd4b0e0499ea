// Each order of service, chosen by the words of the command line.
ghost use Rattle.std.specs.Prelude.{◌<◌};

use fb_scene::{Scene, TWELVE, disk, end, unscripted};
use std::alloc::Global;
use std::process::Abort;
use std::test::Fail;

// Four requests: while the first is served three more arrive, one above the head and two below it.
const CROWD: &str = "0 0 48 1 1\n0.0001 0 24 1 1\n0.0001 0 72 1 1\n0.0001 0 24 1 1\n";

// Words that name an order of service, and the crowd's foreground report in it.
const ORDERS: &[(&str, &str)] = &[
    (
        "freeblock replay --params k --trace t --policy fcfs",
        "freeblock fore 1\n1 R 48 1 0 0 1200 1300 0 -\n2 R 24 1 100 1300 2400 2500 0 -\n3 R 72 1 100 2500 3600 3700 0 -\n4 R 24 1 100 3700 4800 4900 0 -\nend 4 0\n",
    ),
    (
        "freeblock replay --params k --trace t --policy sstf",
        "freeblock fore 1\n1 R 48 1 0 0 1200 1300 0 -\n2 R 24 1 100 1300 2400 2500 0 -\n4 R 24 1 100 2500 3600 3700 0 -\n3 R 72 1 100 3700 4800 4900 0 -\nend 4 0\n",
    ),
    (
        "freeblock replay --params k --trace t --policy clook",
        "freeblock fore 1\n1 R 48 1 0 0 1200 1300 0 -\n3 R 72 1 100 1300 2400 2500 0 -\n2 R 24 1 100 2500 3600 3700 0 -\n4 R 24 1 100 3700 4800 4900 0 -\nend 4 0\n",
    ),
    (
        "freeblock replay --params k --trace t --policy sptf",
        "freeblock fore 1\n1 R 48 1 0 0 1200 1300 0 -\n2 R 24 1 100 1300 2400 2500 0 -\n3 R 72 1 100 2500 3600 3700 0 -\n4 R 24 1 100 3700 4800 4900 0 -\nend 4 0\n",
    ),
];

// Checks the report of these requests in an order of service.
fn check_order(
    rt: &impl Abort,
    alloc: Global,
    scene: &Scene,
    words: &str,
    fore: &str,
) -> Result<(), Fail>
    requires { 0 < scene.now.piece }
{
    let ending = end(alloc, scene, words)?;
    assert_eq!(rt; ending.fore.as_slice(), fore.as_bytes(), "{words}");
    Ok(())
}

#[test]
fn orders_of_service(rt: HostRuntime) -> Result<(), Fail> {
    let alloc = rt.alloc();
    let params = disk(alloc, "", TWELVE)?;
    let scene = unscripted(params.as_bytes(), CROWD.as_bytes());
    for (words, fore) in ORDERS {
        check_order(&rt, alloc, &scene, words, fore)?;
    }
    Ok(())
}
