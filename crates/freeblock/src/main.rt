//! Freeblock replays a trace on a simulated disk, and reads background blocks in the rotational
//! waits.
//!
//! The program hands the words of its command line and the real files to `fb_top::run`, whose
//! contract says what is read, written and returned. It adds one exit status of its own, for a
//! runtime that doesn't give the command line.
#![tactic(auto)]

ghost use Rattle.std.specs.Prelude.{◌≡◌, IfOk};
ghost use Rattle.std.specs.Vec.Iter.{into_iter_items};

use fb_desk::RealDesk;
use fb_top::{Outcome, run, status};
use fb_units::NoMemory;
use std::alloc::Global;
use std::env;
use std::process::ExitCode;

// The exit status where the runtime doesn't give the command line; no outcome has it.
const NO_WORDS: u8 = 12;

// All words of the command line, in order. The only error is out of memory.
fn collected(alloc: Global, args: env::Args) -> Result<Vec<String>, NoMemory>
    ensures { IfOk result (λ words. words.items ≡ into_iter_items args) }
{
    let mut words = Vec::new(alloc);
    for word in args {
        words.push(word)?;
    }
    Ok(words)
}

fn main(rt: HostRuntime) -> ExitCode {
    let alloc = rt.alloc();
    let Ok(args) = env::args(&rt) else {
        return ExitCode::from(NO_WORDS);
    };
    let Ok(words) = collected(alloc, args) else {
        return ExitCode::from(status(&Outcome::NoMemory));
    };
    let mut desk = RealDesk::new(&rt);
    ExitCode::from(run(alloc, &mut desk, words.as_slice()))
}
