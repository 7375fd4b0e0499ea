// Accepted inputs.
ghost use Rattle.fb_model.specs.Accepted.{IsAccepted};
ghost use Rattle.by_hand.specs.Idle.{promoted_read_carries};
ghost use Rattle.by_hand.specs.Cleaning.{segments_by_benefit};

/// The inputs of two runs keep all rules that a trace and a script have to keep.
pub fn accepted_inputs()
    ensures wants_and_promote { IsAccepted promoted_read_carries.inputs }
    ensures segments { IsAccepted segments_by_benefit.inputs }
{}
