// Contents of deliveries.
ghost use Rattle.fb_model.specs.FullRun.{IsFull};
ghost use Rattle.by_hand.specs.Written.{overwritten_between, latent_until_written, read_as_the_write_ends, scrub_finds_latent};

/// Full runs that show the contents that deliveries find.
///
/// A delivery finds what the sectors hold as the block passes: before a write, after it, and just
/// as it ends. An unreadable sector is counted, is a finding of a scrub, and can be read once it
/// was written.
pub fn worked_contents()
    ensures overwritten_between { IsFull overwritten_between.inputs overwritten_between.run }
    ensures latent_until_written { IsFull latent_until_written.inputs latent_until_written.run }
    ensures read_as_the_write_ends { IsFull read_as_the_write_ends.inputs read_as_the_write_ends.run }
    ensures scrub_finds_latent { IsFull scrub_finds_latent.inputs scrub_finds_latent.run }
{}
