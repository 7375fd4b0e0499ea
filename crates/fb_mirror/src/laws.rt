// Laws of the events that make the replacement.
ghost use Rattle.std.specs.Prelude.{◌≡◌, ℕ, List, true, Some, None, if◌then◌else◌};
ghost use Rattle.std.specs.List.{AllByRecursion};
ghost use Rattle.fb_store.specs.declared.content.Content.{Content};
ghost use Rattle.fb_store.specs.declared.content.Content.TheVariants.{Filled};
ghost use Rattle.fb_store.specs.Sparse.{Gives};
ghost use Rattle.fb_store.specs.Writes.{is_within, writer_of};
ghost use Rattle.fb_rows.specs.declared.back.BackRow.TheVariants.{Got};
ghost use Rattle.fb_rows.specs.declared.back.DeliveryRow.{DeliveryRow};
ghost use Rattle.fb_rows.specs.declared.fore.ForeRow.{ForeRow};
ghost use Rattle.fb_mirror.specs.Replacement.{decided, Decides, deliveries_in, Event, given, writes_in};
ghost use Rattle.fb_mirror.specs.Survivor.{CoveredSectorsAreTheSurvivors, CoveredSectorsAreTheSurvivorsAtRest, RunsLieOnTheDisk};
ghost use Rattle.fb_mirror.specs.Survivor.{SealedRebuildsAreWhole, SealedRebuildsStayWhole};

use fb_model::{foreground_lists_ascend, one_plain_replay};

/// A write leaves its number in the sectors of its request, at its finish; a delivery gives the
/// sectors of its block what they held, at its end. Neither concerns any other sector.
#[tactic(auto, using(crate::proofs::EventLaws::write_gives, crate::proofs::EventLaws::delivery_gives))]
pub fn events_concern_their_sectors()
    ensures write { (row : ForeRow) (lbn : ℕ) → row.request.write ≡ true → decided lbn (writes_in row)
        ≡ if is_within row.request.lbn row.request.count lbn then Some (row.finish, Filled (writer_of row.request.name)) else None }
    ensures delivery { (row : DeliveryRow) (content_of : ℕ → Content) (lbn : ℕ) → Gives row.content content_of row.block.lbn row.block.count
        → decided lbn (deliveries_in (Got row)) ≡ if is_within row.block.lbn row.block.count lbn then Some (row.end, content_of lbn)
        else None }
{}

/// The event that decides for a sector is the latest of those that concern it, and of equals the
/// last; no other decides. Where none decides, none concerns it. So a copy has exactly one content.
#[tactic(auto, using(crate::proofs::EventLaws::latest_decides, crate::proofs::EventLaws::none_given))]
pub fn latest_events_decide()
    ensures decides { (lbn : ℕ) (events : List Event) (last : ℕ × Content) → decided lbn events ≡ Some last → Decides lbn events last }
    ensures only { (lbn : ℕ) (events : List Event) (last : ℕ × Content) → Decides lbn events last → decided lbn events ≡ Some last }
    ensures none { (lbn : ℕ) (events : List Event) → decided lbn events ≡ None → AllByRecursion (λ event. given lbn event ≡ None) events }
{}

/// All sectors that the events of a full run concern are sectors of its disk.
#[tactic(auto, using(crate::proofs::OnTheDisk::all_within))]
pub fn runs_lie_on_the_disk()
    ensures { RunsLieOnTheDisk }
{
    foreground_lists_ascend();
    one_plain_replay();
}

/// A sector that a write or a delivery of a full run concerned holds in the replacement what it
/// holds on the survivor: at the end of the run, and before it at each instant at which no write is
/// under way.
#[tactic(auto, using(crate::proofs::Survival::held_survives, crate::proofs::AtRest::held_at_rest))]
pub fn covered_sectors_are_the_survivors()
    ensures at_end { CoveredSectorsAreTheSurvivors }
    ensures at_rest { CoveredSectorsAreTheSurvivorsAtRest }
{
    foreground_lists_ascend();
    one_plain_replay();
}

/// If a rebuild was sealed, every sector is covered: the replacement is the survivor, from the seal
/// on whenever no write is under way, and so at the end of the run.
pub fn sealed_rebuilds_are_whole()
    ensures at_end { SealedRebuildsAreWhole }
    ensures at_rest { SealedRebuildsStayWhole }
{
    foreground_lists_ascend();
    one_plain_replay();
    covered_sectors_are_the_survivors();
}
