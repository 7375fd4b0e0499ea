// The command that the words of a command line give.
ghost use Rattle.std.specs.Prelude.{◌≡◌, IfOk, IfErr, Some, Err, map, not};
ghost use Rattle.std.specs.Option.{option_copied, option_map};
ghost use Rattle.std.specs.String.{string_bytes};
ghost use Rattle.fb_units.specs.Judging.{or_refuse, refuse, refused_as};
ghost use Rattle.fb_words.specs.declared.fault.UsageReason.TheVariants.{UnknownCommand, MissingOption};
ghost use Rattle.fb_words.specs.Names.{verb_of};
ghost use Rattle.fb_words.specs.Given.{options};
ghost use Rattle.fb_words.specs.Reading.{fault_at};
ghost use Rattle.fb_words.specs.Command.{array_of, check_of, command_of, go_together, make_of, rebuild_of, replay_of, terms_of, with_verb};
ghost use Rattle.fb_words.specs.Limits.{IsWithinLimits};
ghost use Rattle.fb_words.specs.Verdict.{Agrees, Answers, array_terms, check_terms, make_terms, rebuild_terms, replay_terms, terms};

use crate::given::Given;
use crate::names::{Verb, verb_of};
use crate::reading::{fault_at, read_options};
use crate::{
    ArrayWords, CheckWords, Command, MakeWords, Policy, RebuildWords, ReplayWords, UsageFault,
    UsageReason, WordsError,
};
use fb_report::Bytes;
use fb_units::NoMemory;
use std::alloc::Global;

const DEFAULT_BYTES: Bytes = Bytes::Nothing;

/// The command that the words of a command line give. The first word is the name of the program and
/// isn't looked at. An error names the first faulty word by its index, and the reason; or it is
/// `NoMemory`.
pub fn read_words(alloc: Global, words: &[String]) -> Result<Command, WordsError>
    ensures answer { Answers terms result (command_of (map string_bytes words.now)) }
    ensures limits { IfOk result (λ command. IsWithinLimits (terms command)) }
{
    command_of(alloc, words)
}

// The command that the words give, or their first fault.
fn command_of(alloc: Global, words: &[String]) -> Result<Command, WordsError>
    ensures { Answers terms result (command_of (map string_bytes words.now)) }
{
    match words {
        [_, name, options @ ..] => with_verb(alloc, words.len(), name.as_str(), options),
        _ => Err(WordsError::Fault(fault_at(words.len(), UsageReason::NoCommand))),
    }
}

// The command with this verb and these options, of `count` words in all.
#[tactic(auto, unfolding(crate::specs::Command::with_verb))]
fn with_verb(
    alloc: Global,
    count: usize,
    name: &str,
    options: &[String],
) -> Result<Command, WordsError>
    ensures { Answers terms result (with_verb count name.now (map string_bytes options.now)) }
{
    let verb = known_verb(name)?;
    let given = read_options(verb, options)?;
    command(alloc, count, verb, &given)
}

fn known_verb(name: &str) -> Result<Verb, UsageFault>
    ensures { result ≡ refused_as (fault_at 1) (or_refuse UnknownCommand (verb_of name.now)) }
{
    match verb_of(name) {
        Some(verb) => Ok(verb),
        None => Err(fault_at(1, UsageReason::UnknownCommand)),
    }
}

// The command with the options that were given.
#[tactic(auto, unfolding(crate::specs::Command::terms_of))]
fn command(
    alloc: Global,
    count: usize,
    verb: Verb,
    given: &Given<'_>,
) -> Result<Command, WordsError>
    ensures { Answers terms result (refused_as (fault_at count) (terms_of verb (options given.now))) }
{
    match verb {
        Verb::Replay => Ok(Command::Replay(replay(alloc, count, given)?)),
        Verb::Make => Ok(Command::Make(make(alloc, count, given)?)),
        Verb::Check => Ok(Command::Check(check(alloc, count, given)?)),
        Verb::Array => Ok(Command::Array(array(alloc, count, given)?)),
    }
}

#[tactic(auto, unfolding(crate::specs::Command::replay_of))]
fn replay(alloc: Global, count: usize, given: &Given<'_>) -> Result<ReplayWords, WordsError>
    ensures { Answers replay_terms result (refused_as (fault_at count) (replay_of (options given.now))) }
{
    let (params, trace, policy) = required_of_run(count, given)?;
    together(given.calls, given.back, count, UsageReason::CallsAndBack)?;
    together(given.puts, given.spill, count, UsageReason::PutsAndSpill)?;
    let (params, trace) = copy_both(alloc, params, trace)?;
    let (calls, back) = copy_both_given(alloc, given.calls, given.back)?;
    let (puts, spill) = copy_both_given(alloc, given.puts, given.spill)?;
    Ok(ReplayWords {
        params,
        trace,
        policy,
        calls,
        back,
        puts,
        spill,
        until: given.until.unwrap_or(0),
        device: given.device.unwrap_or(0),
        bytes: given.bytes.unwrap_or(DEFAULT_BYTES),
        summary: given.summary,
    })
}

#[tactic(auto, unfolding(crate::specs::Command::make_of))]
fn make(alloc: Global, count: usize, given: &Given<'_>) -> Result<MakeWords, WordsError>
    ensures { Answers make_terms result (refused_as (fault_at count) (make_of (options given.now))) }
{
    let params = required(given.params, count, 0)?;
    let trace = required(given.trace, count, 1)?;
    let calls = required(given.calls, count, 2)?;
    let number = required(given.number, count, 3)?;
    let requests = required(given.requests, count, 4)?;
    let calls = String::from_str(alloc, calls)?;
    let (params, trace) = copy_both(alloc, params, trace)?;
    Ok(MakeWords {
        params,
        trace,
        calls,
        number,
        requests,
        device: given.device.unwrap_or(0),
    })
}

#[tactic(auto, unfolding(crate::specs::Command::check_of))]
fn check(alloc: Global, count: usize, given: &Given<'_>) -> Result<CheckWords, WordsError>
    ensures { Answers check_terms result (refused_as (fault_at count) (check_of (options given.now))) }
{
    let (params, trace, policy) = required_of_run(count, given)?;
    let calls = required(given.calls, count, 3)?;
    let fore = required(given.fore, count, 4)?;
    let back = required(given.back, count, 5)?;
    let calls = String::from_str(alloc, calls)?;
    let (params, trace) = copy_both(alloc, params, trace)?;
    let (fore, back) = copy_both(alloc, fore, back)?;
    Ok(CheckWords {
        params,
        trace,
        policy,
        calls,
        fore,
        back,
        until: given.until.unwrap_or(0),
        device: given.device.unwrap_or(0),
        bytes: given.bytes.unwrap_or(DEFAULT_BYTES),
    })
}

#[tactic(auto, unfolding(crate::specs::Command::array_of))]
fn array(alloc: Global, count: usize, given: &Given<'_>) -> Result<ArrayWords, WordsError>
    ensures { Answers array_terms result (refused_as (fault_at count) (array_of (options given.now))) }
{
    let (params, trace, policy) = required_of_run(count, given)?;
    let devices = required(given.devices, count, 3)?;
    let rebuild = rebuild(alloc, count, devices, given)?;
    let (params, trace) = copy_both(alloc, params, trace)?;
    Ok(ArrayWords {
        params,
        trace,
        policy,
        devices,
        rebuild,
        until: given.until.unwrap_or(0),
        bytes: given.bytes.unwrap_or(DEFAULT_BYTES),
    })
}

// The rebuild of an array of so many devices, if its three options are given.
#[tactic(auto, unfolding(crate::specs::Command::rebuild_of))]
fn rebuild(
    alloc: Global,
    count: usize,
    devices: u32,
    given: &Given<'_>,
) -> Result<Option<RebuildWords>, WordsError>
    ensures { Answers (λ words. option_map rebuild_terms words) result
        (refused_as (fault_at count) (rebuild_of devices (options given.now))) }
{
    let (device, back, copy) = match (given.rebuild, given.back, given.copy) {
        (None, None, None) => return Ok(None),
        (Some(device), Some(back), Some(copy)) => (device, back, copy),
        _ => return Err(WordsError::Fault(fault_at(count, UsageReason::RebuildIncomplete))),
    };
    if device >= u64::from(devices) {
        return Err(WordsError::Fault(fault_at(count, UsageReason::RebuildBeyond)));
    }
    let (back, copy) = copy_both(alloc, back, copy)?;
    Ok(Some(RebuildWords {
        device: device as u32,
        back,
        copy,
    }))
}

// The parameter file, the trace and the policy, which a replay, a check and an array require first.
#[tactic(auto, unfolding(crate::specs::Command::replay_of, crate::specs::Command::check_of, crate::specs::Command::array_of))]
fn required_of_run<'a>(
    count: usize,
    given: &Given<'a>,
) -> Result<(&'a str, &'a str, Policy), UsageFault>
    ensures params { IfOk result (λ inputs. given.now.params ≡ Some inputs.0) }
    ensures trace { IfOk result (λ inputs. given.now.trace ≡ Some inputs.1) }
    ensures policy { IfOk result (λ inputs. given.now.policy ≡ Some inputs.2) }
    ensures replay { IfErr result (λ fault. refused_as (fault_at count) (replay_of (options given.now)) ≡ Err fault) }
    ensures check { IfErr result (λ fault. refused_as (fault_at count) (check_of (options given.now)) ≡ Err fault) }
    ensures array { IfErr result (λ fault. refused_as (fault_at count) (array_of (options given.now)) ≡ Err fault) }
{
    let params = required(given.params, count, 0)?;
    let trace = required(given.trace, count, 1)?;
    let policy = required(given.policy, count, 2)?;
    Ok((params, trace, policy))
}

// The value of a required option, which has this index among the required ones.
fn required<T: Copy>(value: Option<T>, count: usize, number: u32) -> Result<T, UsageFault>
    ensures { result ≡ refused_as (fault_at count) (or_refuse (MissingOption number) value) }
{
    match value {
        Some(value) => Ok(value),
        None => Err(fault_at(count, UsageReason::MissingOption(number))),
    }
}

// Ok if both options are given, or neither is; else this reason.
fn together(
    one: Option<&str>,
    other: Option<&str>,
    count: usize,
    reason: UsageReason,
) -> Result<(), UsageFault>
    ensures { result
        ≡ refused_as (fault_at count) (refuse reason (not (go_together (option_copied one.entry) (option_copied other.entry)))) }
{
    if one.is_some() != other.is_some() {
        return Err(fault_at(count, reason));
    }
    Ok(())
}

// Copies of two texts.
fn copy_both(alloc: Global, one: &str, other: &str) -> Result<(String, String), NoMemory>
    ensures one { IfOk result (λ copies. string_bytes copies.0 ≡ one.now) }
    ensures other { IfOk result (λ copies. string_bytes copies.1 ≡ other.now) }
{
    let one = String::from_str(alloc, one)?;
    Ok((one, String::from_str(alloc, other)?))
}

// Copies of two texts, each if it is given.
fn copy_both_given(
    alloc: Global,
    one: Option<&str>,
    other: Option<&str>,
) -> Result<(Option<String>, Option<String>), NoMemory>
    ensures one { IfOk result (λ copies. option_map string_bytes copies.0 ≡ option_copied one.entry) }
    ensures other { IfOk result (λ copies. option_map string_bytes copies.1 ≡ option_copied other.entry) }
{
    let one = copied(alloc, one)?;
    Ok((one, copied(alloc, other)?))
}

fn copied(alloc: Global, text: Option<&str>) -> Result<Option<String>, NoMemory>
    ensures { IfOk result (λ copy. option_map string_bytes copy ≡ option_copied text.entry) }
{
    match text {
        Some(text) => Ok(Some(String::from_str(alloc, text)?)),
        None => Ok(None),
    }
}
