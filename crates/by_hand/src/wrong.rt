// Wrong runs.
ghost use Rattle.fb_rows.specs.declared.gap.Plan.TheVariants.{Direct, Detour};
ghost use Rattle.fb_model.specs.Plans.{IsPlan, IsBest};
ghost use Rattle.fb_model.specs.SoundRun.{IsSound};
ghost use Rattle.fb_model.specs.FullRun.{IsFull};
ghost use Rattle.by_hand.specs.Rows.{at};
ghost use Rattle.by_hand.specs.SmallDisk.{small_disk, quick_disk};
ghost use Rattle.by_hand.specs.Wrong.{delivered_too_late, delivered_twice, delivered_after_abort, completion_left_out, delivery_left_out};
ghost use Rattle.by_hand.specs.Wrong.{contents_of_later, settling_gap, detour_without_settle, served_sooner, gap_with_three};
ghost use Rattle.by_hand.specs.Wrong.{three_blocks, gap_with_one, block_on_target, block_on_the_way};

/// Runs that are wrong in one way each, and that the definitions refuse.
///
/// A sound run delivers a block only where it passes whole, only once, never after an abort, and
/// with what it held as it passed. It gives each completion row, moves by one of the gap's plans,
/// and serves each request at its time. It may leave a delivery out, which a full run may not.
pub fn wrong_runs()
    ensures too_late { IsSound delivered_too_late.inputs delivered_too_late.run → ⊥ }
    ensures twice { IsSound delivered_twice.inputs delivered_twice.run → ⊥ }
    ensures after_abort { IsSound delivered_after_abort.inputs delivered_after_abort.run → ⊥ }
    ensures contents_of_later { IsSound contents_of_later.inputs contents_of_later.run → ⊥ }
    ensures completion { IsSound completion_left_out.inputs completion_left_out.run → ⊥ }
    ensures no_plan { IsPlan small_disk settling_gap (Detour (at 0 1) 900) → ⊥ }
    ensures without_settle { IsSound detour_without_settle.inputs detour_without_settle.run → ⊥ }
    ensures served_sooner { IsSound served_sooner.inputs served_sooner.run → ⊥ }
    ensures left_out { IsSound delivery_left_out.inputs delivery_left_out.run }
    ensures not_full { IsFull delivery_left_out.inputs delivery_left_out.run → ⊥ }
{}

/// Plans of a gap that aren't the best ones.
///
/// A nanosecond sooner loses a block of the source, and a nanosecond later one of the target. Of
/// two that are worth the same the one that leaves first is better. A detour is better than the
/// direct way where it reaches the target sooner, whatever is on its track.
pub fn wrong_plans()
    ensures late { IsBest small_disk gap_with_three three_blocks (Direct 801) → ⊥ }
    ensures soon { IsBest small_disk gap_with_three three_blocks (Direct 799) → ⊥ }
    ensures equal { IsBest quick_disk gap_with_one block_on_the_way (Detour (at 1 0) 201) → ⊥ }
    ensures direct { IsBest quick_disk gap_with_one block_on_target (Direct 0) → ⊥ }
{}
