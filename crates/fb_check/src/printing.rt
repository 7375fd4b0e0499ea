// Laws of what is printed.
ghost use Rattle.fb_check.specs.Printing.{RunsCanBePrinted, ScriptsNameTasks};

/// A full run of accepted inputs has what its printer needs: each read and each delivery has a
/// sector, and each sealed image has fewer than 2^64.
pub fn runs_can_be_printed()
    ensures { RunsCanBePrinted }
{}

/// A script that was read gives each of its tasks a name, of 1 to 32 letters, digits, underscores
/// and hyphens.
pub fn scripts_name_tasks()
    ensures { ScriptsNameTasks }
{}
