// Counting the blocks of a task by their states.
ghost use Rattle.std.specs.Prelude.{◌≡◌, [], ◌∷◌};
ghost use Rattle.fb_wanted.specs.Counting.{counts_of, no_counts, sum_of, recounted, AreNoMore, Fit};

use crate::{Counts, Entry, State};

/// The counts of a task with no block.
pub fn no_counts() -> Counts
    ensures { result ≡ no_counts }
{
    Counts {
        registered: 0,
        delivered: 0,
        aborted: 0,
    }
}

/// What the block adds to the counts of its task.
pub fn counts_of(entry: Entry) -> Counts
    ensures { result ≡ counts_of entry.block.task (entry ∷ []) }
{
    match entry.state {
        State::Delivered => Counts {
            registered: 1,
            delivered: 1,
            aborted: 0,
        },
        State::Aborted => Counts {
            registered: 1,
            delivered: 0,
            aborted: 1,
        },
        _ => Counts {
            registered: 1,
            delivered: 0,
            aborted: 0,
        },
    }
}

/// The counts without `lost` and with `gained`.
pub fn recounted(counts: Counts, lost: Counts, gained: Counts) -> Counts
    requires part { AreNoMore lost counts }
    requires room { Fit (sum_of counts gained) }
    ensures { result ≡ recounted lost gained counts }
{
    Counts {
        registered: counts.registered - lost.registered + gained.registered,
        delivered: counts.delivered - lost.delivered + gained.delivered,
        aborted: counts.aborted - lost.aborted + gained.aborted,
    }
}
