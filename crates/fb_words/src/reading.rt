// Reading the words after the command, from left to right.
ghost use Rattle.std.specs.Prelude.{◌≡◌, ◌+◌, map};
ghost use Rattle.std.specs.Option.{option_copied};
ghost use Rattle.std.specs.String.{string_bytes};
ghost use Rattle.fb_units.specs.Judging.{or_refuse};
ghost use Rattle.fb_words.specs.declared.fault.UsageReason.TheVariants.{UnknownOption};
ghost use Rattle.fb_words.specs.Names.{option_of};
ghost use Rattle.fb_words.specs.Given.{options};
ghost use Rattle.fb_words.specs.Reading.{parts_of, is_summary, fault_at, ready, with_summary, with_part, with_option, with_name, with_word};
ghost use Rattle.fb_words.specs.Reading.{at_end, options_from};
ghost use Rattle.fb_words.specs.Options.{no_options};
ghost use Rattle.fb_words.specs.Progress.{parts, progress};
ghost use Rattle.fb_words.specs.Verdict.{Agrees};

use crate::given::Given;
use crate::names::{OptionName, Verb, option_of};
use crate::values::with_value;
use crate::{UsageFault, UsageReason};

/// The name of an option, and its value if that is in the same word.
#[derive(Clone, Copy)]
pub struct Parts<'a> {
    /// The name.
    pub name: &'a str,
    /// The value, behind an equals sign.
    pub value: Option<&'a str>,
}

/// The options so far, and the option whose value is to be the next word, with the position of
/// its word.
#[derive(Clone, Copy)]
pub enum Progress<'a> {
    /// The next word is no value.
    Ready(Given<'a>),
    /// The next word is the value of this option.
    Awaits(Given<'a>, OptionName, usize),
}

/// A fault of the word at this position. A position that doesn't fit in 32 bits is the last one
/// that does.
pub fn fault_at(position: usize, reason: UsageReason) -> UsageFault
    ensures { result ≡ fault_at position reason }
{
    UsageFault {
        place: position.min(u32::MAX as usize) as u32,
        reason,
    }
}

/// The options that the words after the command give, or the first fault.
pub fn read_options(verb: Verb, words: &[String]) -> Result<Given<'_>, UsageFault>
    ensures { Agrees options result (options_from verb 2 (ready no_options) (map string_bytes words.now)) }
{
    let mut so_far = Progress::Ready(Given::none());
    for (index, word) in words.iter().enumerate() {
        so_far = with_word(verb, index + 2, so_far, word.as_str())?;
    }
    at_end(so_far)
}

// The options at the end of the words, unless a value is still missing.
fn at_end(so_far: Progress<'_>) -> Result<Given<'_>, UsageFault>
    ensures { Agrees options result (at_end (progress so_far.entry)) }
{
    match so_far {
        Progress::Ready(given) => Ok(given),
        Progress::Awaits(_, _, position) => Err(fault_at(position, UsageReason::NoValue)),
    }
}

// The options with one more word, which has this index. A fault of a value has the index of the
// word with its option.
#[tactic(auto, unfolding(crate::specs::Reading::with_word))]
fn with_word<'a>(
    verb: Verb,
    position: usize,
    so_far: Progress<'a>,
    word: &'a str,
) -> Result<Progress<'a>, UsageFault>
    ensures { Agrees progress result (with_word verb position (progress so_far.entry) word.now) }
{
    match so_far {
        Progress::Ready(given) => match with_name(verb, position, given, word) {
            Ok(now) => Ok(now),
            Err(reason) => Err(fault_at(position, reason)),
        },
        Progress::Awaits(given, option, at) => match with_value(given, option, word) {
            Ok(now) => Ok(Progress::Ready(now)),
            Err(reason) => Err(fault_at(at, reason)),
        },
    }
}

// The options with a word that isn't the value of the option before it.
#[tactic(auto, unfolding(crate::specs::Reading::with_name))]
fn with_name<'a>(
    verb: Verb,
    position: usize,
    given: Given<'a>,
    word: &'a str,
) -> Result<Progress<'a>, UsageReason>
    ensures { Agrees progress result (with_name verb position (options given.entry) word.now) }
{
    if is_summary(verb, word) {
        with_summary(given)
    } else {
        with_option(verb, position, given, parts_of(word))
    }
}

fn is_summary(verb: Verb, word: &str) -> bool
    ensures { result ≡ is_summary verb word.now }
{
    match verb {
        Verb::Replay => word == "--summary",
        Verb::Make => false,
        Verb::Check => false,
        Verb::Array => false,
    }
}

// The options with a summary, unless it was wanted before.
#[tactic(auto, unfolding(crate::specs::Reading::with_summary))]
fn with_summary(given: Given<'_>) -> Result<Progress<'_>, UsageReason>
    ensures { Agrees progress result (with_summary (options given.entry)) }
{
    if given.summary {
        return Err(UsageReason::OptionTwice);
    }
    Ok(Progress::Ready(Given {
        summary: true,
        ..given
    }))
}

// The name before and the value behind the first equals sign of a word.
#[tactic(auto, unfolding(crate::specs::Reading::parts_of))]
fn parts_of(word: &str) -> Parts<'_>
    ensures { parts result ≡ parts_of word.now }
{
    match word.split_once('=') {
        Some((name, value)) => Parts {
            name,
            value: Some(value),
        },
        None => Parts {
            name: word,
            value: None,
        },
    }
}

// The options with one more option, unless it is unknown or was given before.
#[tactic(auto, unfolding(crate::specs::Reading::with_option))]
fn with_option<'a>(
    verb: Verb,
    position: usize,
    given: Given<'a>,
    word: Parts<'a>,
) -> Result<Progress<'a>, UsageReason>
    ensures { Agrees progress result (with_option verb position (options given.entry) (parts word.entry)) }
{
    let option = named(verb, word.name)?;
    if given.has(option) {
        return Err(UsageReason::OptionTwice);
    }
    with_part(position, given, option, word.value)
}

fn named(verb: Verb, name: &str) -> Result<OptionName, UsageReason>
    ensures { result ≡ or_refuse UnknownOption (option_of verb name.now) }
{
    option_of(verb, name).ok_or(UsageReason::UnknownOption)
}

// The options with one more option, whose value is in the same word or will be the next word.
#[tactic(auto, unfolding(crate::specs::Reading::with_part))]
fn with_part<'a>(
    position: usize,
    given: Given<'a>,
    option: OptionName,
    value: Option<&'a str>,
) -> Result<Progress<'a>, UsageReason>
    ensures { Agrees progress result (with_part position (options given.entry) option (option_copied value.entry)) }
{
    match value {
        None => Ok(Progress::Awaits(given, option, position)),
        Some(value) => Ok(Progress::Ready(with_value(given, option, value)?)),
    }
}
