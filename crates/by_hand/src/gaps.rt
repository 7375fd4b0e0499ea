// Plans of gaps.
ghost use Rattle.fb_model.specs.FullRun.{IsFull};
ghost use Rattle.by_hand.specs.Gaps.{both_dwells, detour, no_time_to_settle, detour_on_the_way, detour_over_nothing, weight_decides};
ghost use Rattle.by_hand.specs.Gaps.{block_over_the_turn};

/// Full runs that show what the best plan of a gap delivers.
///
/// The two dwells of one gap deliver on both tracks. A detour delivers where neither of them would,
/// and is back in time; before a write there must be time to settle, too. A detour may go over a
/// track without a wanted block, if the head reaches the target sooner that way; the request begins
/// no sooner for it. The weight of a block counts. A block may go on over the end of a turn.
pub fn worked_gaps()
    ensures both_dwells { IsFull both_dwells.inputs both_dwells.run }
    ensures detour { IsFull detour.inputs detour.run }
    ensures no_time_to_settle { IsFull no_time_to_settle.inputs no_time_to_settle.run }
    ensures detour_on_the_way { IsFull detour_on_the_way.inputs detour_on_the_way.run }
    ensures detour_over_nothing { IsFull detour_over_nothing.inputs detour_over_nothing.run }
    ensures weight_decides { IsFull weight_decides.inputs weight_decides.run }
    ensures block_over_the_turn { IsFull block_over_the_turn.inputs block_over_the_turn.run }
{}
