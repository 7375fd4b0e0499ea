// A law of the definitions.
ghost use Rattle.fb_bgwrite.specs.BestSpill.{BestSpillsExist};

/// A gap has exactly one best spill, over every track and every nanosecond, or none: that is where no
/// spill writes anything. It is the best of those whose leaves are worth a try.
pub fn one_best_spill()
    ensures { BestSpillsExist }
{}
