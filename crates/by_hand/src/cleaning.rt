// Cleaning of segments.
ghost use Rattle.fb_model.specs.FullRun.{IsFull};
ghost use Rattle.by_hand.specs.Cleaning.{segments_by_benefit, segment_without_live_blocks, segment_keeps_its_passages};
ghost use Rattle.by_hand.specs.Cleaning.{closed_with_chosen_segment, suspended_session_chooses};

/// Full runs that show how segments are chosen and cleaned.
///
/// The segment with the greater ratio of benefit to cost is chosen first. One without live blocks
/// is cleaned as soon as it is chosen. The contents of a segment are what its blocks held as they
/// passed. When a session is closed, its chosen blocks are aborted and it is complete. A suspended
/// session chooses a segment, but reads it only after the resume.
pub fn worked_segments()
    ensures segments_by_benefit { IsFull segments_by_benefit.inputs segments_by_benefit.run }
    ensures segment_without_live_blocks { IsFull segment_without_live_blocks.inputs segment_without_live_blocks.run }
    ensures segment_keeps_its_passages { IsFull segment_keeps_its_passages.inputs segment_keeps_its_passages.run }
    ensures closed_with_chosen_segment { IsFull closed_with_chosen_segment.inputs closed_with_chosen_segment.run }
    ensures suspended_session_chooses { IsFull suspended_session_chooses.inputs suspended_session_chooses.run }
{}
