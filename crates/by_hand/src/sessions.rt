// Calls on sessions.
ghost use Rattle.fb_model.specs.FullRun.{IsFull};
ghost use Rattle.by_hand.specs.Sessions.{abort_while_waiting, abort_too_late, suspended, closed};

/// Full runs that show when a call takes effect.
///
/// An abort takes effect at the next decision, so it comes too late for a block of the gap in which
/// it is called. Nothing is delivered for a suspended session; a closed one is complete.
pub fn worked_sessions()
    ensures abort_while_waiting { IsFull abort_while_waiting.inputs abort_while_waiting.run }
    ensures abort_too_late { IsFull abort_too_late.inputs abort_too_late.run }
    ensures suspended { IsFull suspended.inputs suspended.run }
    ensures closed { IsFull closed.inputs closed.run }
{}
