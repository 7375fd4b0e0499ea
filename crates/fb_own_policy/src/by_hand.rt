// A replay that was worked out by hand, in which two reads pass a write that arrived first.
ghost use Rattle.std.specs.Prelude.{◌≡◌, ◌<◌, ◌%◌, length};
ghost use Rattle.std.specs.List.{AllByRecursion};
ghost use Rattle.fb_geometry.specs.Places.{places};
ghost use Rattle.fb_trace.specs.Servable.{IsTraceOf};

use crate::replay_reads_first;
use fb_params::{Parameters, read_params};
use fb_report::{Bytes, fore_text};
use fb_script::{Calls, Names};
use fb_trace::{Trace, read_trace};
use fb_units::NoMemory;
use std::alloc::Global;
use std::test::Fail;

// The disk of examples/small-disk.toml.
const DISK: &[u8] = b"version = 1\n\
    rotation_ns = 1200\n\
    sector_bytes = 16\n\
    heads = 2\n\
    head_switch_ns = 200\n\
    write_settle_ns = 50\n\
    seek = [[1, 300], [3, 500]]\n\
    [[zone]]\n\
    first = 0\n\
    last = 3\n\
    sectors = 12\n";

// The write arrives at 100, while request 1 is served up to 600.
const TRACE: &[u8] = b"0 0 5 1 1\n\
    0.000100 0 40 3 0\n\
    0.000200 0 41 2 1\n\
    0.001500 0 94 2 1\n";

// At 600 and at 1900 a read waits beside the write. The head is over track 1.1 by 900, over 3.1 by
// 2300, and back over 1.1, settled for the write, by 4050. On a track, slot k begins to pass at the
// angle 100 k of each turn of 1200.
const REPORT: &[u8] = b"freeblock fore 1\n\
    1 R 5 1 0 0 500 600 0 -\n\
    3 R 41 2 200 600 1700 1900 0 -\n\
    4 R 94 2 1500 1900 3400 3600 0 -\n\
    2 W 40 3 100 3600 5200 5500 0 -\n\
    end 4 0\n";

// The foreground report of a trace without a script.
#[tactic(auto, using(crate::proofs::Unscripted::is_accepted))]
fn unscripted(alloc: Global, params: &Parameters, trace: &Trace) -> Result<Vec<u8>, NoMemory>
    requires latent { AllByRecursion (λ lbn. lbn < length (places params.now.disk.map)) params.now.latent.items }
    requires trace { IsTraceOf (length (places params.now.disk.map)) trace.now.requests.items }
    requires bytes { params.now.disk.sector_bytes % 16 ≡ 0 }
{
    let calls = Calls {
        names: Names::new(alloc),
        calls: Vec::new(alloc),
    };
    let latent = params.latent.as_slice();
    let run = replay_reads_first(alloc, &params.disk, latent, trace, &calls, 0)?;
    fore_text(alloc, &run, params.disk.sector_bytes, Bytes::Nothing)
}

// The report of the replay, or none if the texts are refused.
fn replayed(alloc: Global) -> Result<Option<Vec<u8>>, NoMemory> {
    let Ok(params) = read_params(alloc, DISK) else {
        return Ok(None);
    };
    let Ok(trace) = read_trace(alloc, TRACE, 0, params.disk.map.count()) else {
        return Ok(None);
    };
    if params.disk.sector_bytes % 16 != 0 {
        return Ok(None);
    }
    Ok(Some(unscripted(alloc, &params, &trace)?))
}

#[test]
fn reads_pass_a_write(rt: HostRuntime) -> Result<(), Fail> {
    let text = match replayed(rt.alloc())? {
        Some(text) => text,
        None => Vec::new(rt.alloc()),
    };
    assert_eq!(rt; text.as_slice(), REPORT);
    Ok(())
}
