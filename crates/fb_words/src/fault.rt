// Why words are refused.
use fb_units::ReadError;

/// Why a word is refused.
#[derive(Clone, Copy)]
pub enum UsageReason {
    /// There is no command.
    NoCommand,
    /// The command isn't known.
    UnknownCommand,
    /// The word isn't an option of the command.
    UnknownOption,
    /// The value of the option is missing, is empty or begins with a dash.
    NoValue,
    /// The option was given before.
    OptionTwice,
    /// The value of the option isn't of its form, or is above its limit.
    BadValue,
    /// A required option is missing. It is named by its index, from 0, among those that the command
    /// requires: for a replay params, trace, policy; for a make params, trace, calls, number,
    /// requests; for a check params, trace, policy, calls, fore, back; for an array params, trace,
    /// policy, devices.
    MissingOption(u32),
    /// A replay has a call script but no background report, or the report but no script.
    CallsAndBack,
    /// A replay has a file of background writes but no file for the text of what was written, or
    /// that file but no background writes.
    PutsAndSpill,
    /// An array has some, but not all, of the three options of a rebuild: the device, the background
    /// report and the copy.
    RebuildIncomplete,
    /// The device that an array is to rebuild from isn't below the number of devices.
    RebuildBeyond,
}

/// The first faulty word, and why it is refused.
#[derive(Clone, Copy)]
pub struct UsageFault {
    /// The position of the word, where the name of the program has position 0. For `NoCommand`,
    /// `MissingOption`, `CallsAndBack`, `PutsAndSpill`, `RebuildIncomplete` and `RebuildBeyond` it
    /// is the number of words. A position that doesn't fit in 32 bits is the last one that does.
    pub place: u32,
    /// The reason.
    pub reason: UsageReason,
}

/// Why no command was read: the first faulty word, or out of memory.
pub type WordsError = ReadError<UsageFault>;

impl From<UsageFault> for WordsError {
    ghost use Rattle.std.specs.Prelude.{◌≡◌};
    ghost use Rattle.fb_units.specs.declared.read_error.ReadError.TheVariants.{Fault};

    ghost from_gives = { λ fault error. error ≡ Fault fault };

    fn from(fault: UsageFault) -> WordsError {
        WordsError::Fault(fault)
    }
}
