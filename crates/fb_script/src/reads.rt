// The reads that promote calls ask for.
ghost use Rattle.std.specs.Prelude.{◌≡◌, IfOk};
ghost use Rattle.fb_script.specs.Promoted.{promoted};

use crate::{Action, Calls};
use fb_units::{Name, NoMemory, Request};
use std::alloc::Global;

/// The foreground reads that promote calls ask for, in line order, named P1, P2, .. and arriving at
/// the instants of their calls. The only error is `NoMemory`.
pub fn promoted(alloc: Global, calls: &Calls) -> Result<Vec<Request>, NoMemory>
    ensures { IfOk result (λ reads. reads.items ≡ promoted calls.now.calls.items) }
{
    let mut reads = Vec::new(alloc);
    for call in &calls.calls {
        if let Action::Promote { first, count } = &call.action {
            let number = reads.len() as u64 + 1;
            reads.push(Request {
                name: Name::Promoted(number),
                arrival: call.instant,
                lbn: *first,
                count: *count,
                write: false,
            })?;
        }
    }
    Ok(reads)
}
