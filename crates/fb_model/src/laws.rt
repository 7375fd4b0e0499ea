// Laws of the definitions.
ghost use Rattle.fb_model.specs.Laws.{WaitsAreLeast, SlotsCoverRotation, AnglesHaveOneSlot, PassagesBeginFirst, PlacesAreOwn};
ghost use Rattle.fb_model.specs.Laws.{SectorsByZone, PicksAreFirstLeast, ReadyPicksAreFirstLeast, OnePick, OneReadyPick};
ghost use Rattle.fb_model.specs.Laws.{ForegroundListsAscend, ReplaysServeEachOnce, RequestsHaveOneRow, OnePlainReplay, OneBestPlan};
ghost use Rattle.fb_model.specs.Laws.{StatesBeginWithRegistration, ForegroundIsUntouched};
ghost use Rattle.fb_model.specs.Known.{OneFullRun, NoLookAhead};
ghost use Rattle.fb_model.specs.BestPlan.{BestPlansExist};
ghost use Rattle.fb_model.specs.TheRun.{FullRunsExist};

/// The wait for an angle is the shortest after which the platter stands at it.
pub fn waits_are_least()
    ensures { WaitsAreLeast }
{}

/// The slots of a track follow one another from angle 0 to the end of the rotation, if there are no
/// more of them than a rotation has nanoseconds. Each angle lies in exactly one slot.
#[tactic(auto, using(fb_geometry::proofs::Rotation::cover, crate::proofs::Slots::one_slot))]
pub fn slots_cover_rotation()
    ensures cover { SlotsCoverRotation }
    ensures one { AnglesHaveOneSlot }
{}

/// A sector's passage from an instant on begins at the first instant at which the platter stands at
/// the beginning of the sector's slot.
pub fn passages_begin_first()
    ensures { PassagesBeginFirst }
{}

/// No slot of a disk holds two sectors, and no bad slot holds any.
#[tactic(auto, using(crate::proofs::Disks::are_own))]
pub fn places_are_own()
    ensures { PlacesAreOwn }
{}

/// A disk has the sectors of its zones, and all cylinders of a zone have the same number.
#[tactic(auto, using(crate::proofs::Disks::places_length))]
pub fn sectors_by_zone()
    ensures { SectorsByZone }
{}

/// The pick is the first request with the least key, and the others keep their order. The same
/// holds among the requests that have arrived. There is no other pick.
pub fn picks_are_first_least()
    ensures all { PicksAreFirstLeast }
    ensures ready { ReadyPicksAreFirstLeast }
    ensures one { OnePick }
    ensures one_ready { OneReadyPick }
{}

/// The foreground list has each request of the trace and each promoted read once, in the order of
/// arrival.
pub fn foreground_lists_ascend()
    ensures { ForegroundListsAscend }
{}

/// A plain replay serves each request once, none before it arrives, one after another. So each
/// request has exactly one foreground row.
pub fn replays_serve_each_once()
    ensures served { ReplaysServeEachOnce }
    ensures rows { RequestsHaveOneRow }
{}

/// Only one list of services follows the rules of service: the plain replay.
pub fn one_plain_replay()
    ensures { OnePlainReplay }
{}

/// A gap has at most one best plan.
#[tactic(auto, using(crate::proofs::FullRuns::one_best))]
pub fn one_best_plan()
    ensures { OneBestPlan }
{}

/// A gap in which the head can go straight to the target, as in every gap of a run, has exactly one
/// best plan: the best of those whose leaves are worth a try.
#[tactic(auto, using(crate::proofs::BestPlans::best_plans_exist))]
pub fn best_plans_exist()
    ensures { BestPlansExist }
{}

/// The state of a registered block doesn't depend on the state that it is taken to have before the first
/// event.
#[tactic(auto, using(crate::proofs::States::states_begin), unfolding(crate::specs::History::bare_state))]
pub fn states_begin_with_registration()
    ensures { StatesBeginWithRegistration }
{}

/// Accepted inputs have at most one full run: they determine it to its last row.
pub fn one_full_run()
    ensures { OneFullRun }
{}

/// On a disk without a fault, accepted inputs have exactly one full run: the one that is made
/// decision by decision.
pub fn full_runs_exist()
    ensures { FullRunsExist }
{}

/// Background work leaves the foreground as it is: sound runs whose inputs ask for the same
/// foreground have the same foreground rows.
pub fn foreground_is_untouched()
    ensures { ForegroundIsUntouched }
{}

/// No decision looks ahead: on a disk without a fault, the full runs of accepted inputs that agree
/// up to an instant before both ends are the same in everything that is known by that instant.
pub fn nothing_looks_ahead()
    ensures { NoLookAhead }
{}
