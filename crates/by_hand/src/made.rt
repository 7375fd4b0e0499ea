// Runs by the definition of the full run.
ghost use Rattle.std.specs.Prelude.{◌≡◌};
ghost use Rattle.fb_model.specs.TheRun.{the_run};
ghost use Rattle.by_hand.specs.Gaps.{both_dwells, detour, detour_over_nothing, weight_decides};

/// The definition of the full run gives the runs that were worked out by hand.
///
/// A direct plan that leaves late, for the sake of both tracks. A detour to a block, and one over a
/// track without any. A block of greater weight than two others.
pub fn made_runs()
    ensures both_dwells { the_run both_dwells.inputs ≡ both_dwells.run }
    ensures detour { the_run detour.inputs ≡ detour.run }
    ensures detour_over_nothing { the_run detour_over_nothing.inputs ≡ detour_over_nothing.run }
    ensures weight_decides { the_run weight_decides.inputs ≡ weight_decides.run }
{}
