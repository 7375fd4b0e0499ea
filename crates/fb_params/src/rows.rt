// Small files, read by the definitions alone, without any code.
ghost use Rattle.fb_params.specs.SmallFiles.{Refusals, Acceptances};

#[tactic(auto, using(crate::proofs::SmallFiles::refusals, crate::proofs::SmallFiles::acceptances))]
fn worked_rows()
    ensures refused { Refusals }
    ensures accepted { Acceptances }
{}
