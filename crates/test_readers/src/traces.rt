// A trace with requests of two devices.
use fb_trace::read_trace;
use fb_units::{Name, Request};
use std::test::Fail;

#[test]
fn takes_in_one_device(rt: HostRuntime) -> Result<(), Fail> {
    let text = b"0 1 96 0 1\r\n\n0.000501 0 5 1 0X1\t7";
    let Ok(trace) = read_trace(rt.alloc(), text, 0, 96) else {
        panic!(rt; "the trace is accepted")
    };
    let request = Request {
        name: Name::Traced(1),
        arrival: 501,
        lbn: 5,
        count: 1,
        write: false,
    };
    assert_eq!(rt; trace.requests.as_slice(), [request].as_slice());
    assert_eq!(rt; trace.passed_over, 1);
    Ok(())
}
