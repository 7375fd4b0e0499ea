// Backups.
ghost use Rattle.fb_model.specs.FullRun.{IsFull};
ghost use Rattle.by_hand.specs.Backups.{overwritten_backup, backup_without_aborted};

/// Full runs that show what a backup's image is.
///
/// A block that is written after its delivery is delivered again, and the image has the new
/// contents. An aborted block is not part of the image, and after the seal a write changes nothing.
pub fn worked_backups()
    ensures overwritten_backup { IsFull overwritten_backup.inputs overwritten_backup.run }
    ensures backup_without_aborted { IsFull backup_without_aborted.inputs backup_without_aborted.run }
{}
