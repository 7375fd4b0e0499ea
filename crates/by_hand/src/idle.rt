// Idle dwells and rides.
ghost use Rattle.fb_model.specs.FullRun.{IsFull};
ghost use Rattle.by_hand.specs.Idle.{idle_to_the_end, idle_too_short, grown_defect_cuts, promoted_read_carries, caught_not_carried};

/// Full runs that show what idle dwells and foreground reads deliver.
///
/// A block that ends as the dwell does is delivered, and a nanosecond less is too short. A sector
/// that has moved ends a block. A promoted read carries blocks, but none that its gap has caught.
pub fn worked_dwells()
    ensures idle_to_the_end { IsFull idle_to_the_end.inputs idle_to_the_end.run }
    ensures idle_too_short { IsFull idle_too_short.inputs idle_too_short.run }
    ensures grown_defect_cuts { IsFull grown_defect_cuts.inputs grown_defect_cuts.run }
    ensures promoted_read_carries { IsFull promoted_read_carries.inputs promoted_read_carries.run }
    ensures caught_not_carried { IsFull caught_not_carried.inputs caught_not_carried.run }
{}
