// What is known of a run before it ends.
ghost use Rattle.fb_model.specs.FullRun.{IsFull};
ghost use Rattle.fb_model.specs.Known.{AgreeUpTo, SameKnown};
ghost use Rattle.by_hand.specs.Known.{run_without_third, run_with_third};

/// Two full runs whose inputs agree up to an instant, and that are the same up to it.
///
/// In one of them a third request arrives a little later. The rows that are known by the instant
/// don't tell whether it will.
pub fn runs_known_in_part()
    ensures without { IsFull run_without_third.inputs run_without_third.run }
    ensures with { IsFull run_with_third.inputs run_with_third.run }
    ensures agree { AgreeUpTo 1250 run_without_third.inputs run_with_third.inputs }
    ensures same { SameKnown 1250 run_without_third.run run_with_third.run }
{}
