// The words for commands, options and values.
ghost use Rattle.std.specs.Prelude.{◌≡◌};
ghost use Rattle.fb_words.specs.Names.{verb_of, option_of, meaning, run_options, policy_of, bytes_of};

use crate::Policy;
use fb_report::Bytes;

/// The verb of a command.
#[derive(Clone, Copy, PartialEq, Eq)]
pub enum Verb {
    /// Replays a trace.
    Replay,
    /// Generates a trace and a call script.
    Make,
    /// Judges two reports.
    Check,
    /// Replays a trace on several devices.
    Array,
}

/// An option that has a value.
#[derive(Clone, Copy, PartialEq, Eq)]
pub enum OptionName {
    /// The parameter file: `--params`.
    Params,
    /// The file of the trace: `--trace`.
    Trace,
    /// The order of service: `--policy`.
    Policy,
    /// The file of the call script: `--calls`.
    Calls,
    /// The file of the foreground report: `--fore`.
    Fore,
    /// The file of the background report: `--back`.
    Back,
    /// The file of background writes: `--puts`.
    Puts,
    /// The file for the text of what was written: `--spill`.
    Spill,
    /// The instant until which the head waits at the end: `--until`.
    Until,
    /// The device: `--device`.
    Device,
    /// How contents are shown: `--bytes`.
    Bytes,
    /// The seed of a generated trace: `--number`.
    Number,
    /// The number of requests of a generated trace: `--requests`.
    Requests,
    /// The number of devices of an array: `--devices`.
    Devices,
    /// The device to rebuild from: `--rebuild`.
    Rebuild,
    /// The file for the text of the replacement: `--copy`.
    Copy,
}

/// The command for which a word stands, if it is known.
#[tactic(auto, unfolding(crate::specs::Names::verb_of))]
pub fn verb_of(name: &str) -> Option<Verb>
    ensures { result ≡ verb_of name.now }
{
    match name {
        "replay" => Some(Verb::Replay),
        "make" => Some(Verb::Make),
        "check" => Some(Verb::Check),
        "array" => Some(Verb::Array),
        _ => None,
    }
}

/// The option of the command for which a word stands, if the command has it.
pub fn option_of(verb: Verb, name: &str) -> Option<OptionName>
    ensures { result ≡ option_of verb name.now }
{
    match verb {
        Verb::Replay => replay_option(name),
        Verb::Make => make_option(name),
        Verb::Check => check_option(name),
        Verb::Array => array_option(name),
    }
}

// A replay has the options that it shares with a check, and the two of background writes.
#[tactic(auto, unfolding(crate::specs::Names::option_of))]
fn replay_option(name: &str) -> Option<OptionName>
    ensures { result ≡ option_of Verb.Replay name.now }
{
    match name {
        "--puts" => Some(OptionName::Puts),
        "--spill" => Some(OptionName::Spill),
        _ => run_option(name),
    }
}

// The options that a replay and a check share.
fn run_option(name: &str) -> Option<OptionName>
    ensures { result ≡ meaning run_options name.now }
{
    match name {
        "--params" => Some(OptionName::Params),
        "--trace" => Some(OptionName::Trace),
        "--policy" => Some(OptionName::Policy),
        "--calls" => Some(OptionName::Calls),
        "--back" => Some(OptionName::Back),
        "--until" => Some(OptionName::Until),
        "--device" => Some(OptionName::Device),
        "--bytes" => Some(OptionName::Bytes),
        _ => None,
    }
}

#[tactic(auto, unfolding(crate::specs::Names::option_of))]
fn make_option(name: &str) -> Option<OptionName>
    ensures { result ≡ option_of Verb.Make name.now }
{
    match name {
        "--params" => Some(OptionName::Params),
        "--trace" => Some(OptionName::Trace),
        "--calls" => Some(OptionName::Calls),
        "--number" => Some(OptionName::Number),
        "--requests" => Some(OptionName::Requests),
        "--device" => Some(OptionName::Device),
        _ => None,
    }
}

// A check has the options that it shares with a replay, and the foreground report.
#[tactic(auto, unfolding(crate::specs::Names::option_of))]
fn check_option(name: &str) -> Option<OptionName>
    ensures { result ≡ option_of Verb.Check name.now }
{
    match name {
        "--fore" => Some(OptionName::Fore),
        _ => run_option(name),
    }
}

#[tactic(auto, unfolding(crate::specs::Names::option_of))]
fn array_option(name: &str) -> Option<OptionName>
    ensures { result ≡ option_of Verb.Array name.now }
{
    match name {
        "--params" => Some(OptionName::Params),
        "--trace" => Some(OptionName::Trace),
        "--policy" => Some(OptionName::Policy),
        "--devices" => Some(OptionName::Devices),
        "--rebuild" => Some(OptionName::Rebuild),
        "--back" => Some(OptionName::Back),
        "--copy" => Some(OptionName::Copy),
        "--until" => Some(OptionName::Until),
        "--bytes" => Some(OptionName::Bytes),
        _ => None,
    }
}

/// The policy for which a word stands, if it is known.
#[tactic(auto, unfolding(crate::specs::Names::policy_of))]
pub fn policy_of(name: &str) -> Option<Policy>
    ensures { result ≡ policy_of name.now }
{
    match name {
        "fcfs" => Some(Policy::Fcfs),
        "sstf" => Some(Policy::Sstf),
        "clook" => Some(Policy::Clook),
        "sptf" => Some(Policy::Sptf),
        _ => None,
    }
}

/// The way of showing contents for which a word stands, if it is known.
#[tactic(auto, unfolding(crate::specs::Names::bytes_of))]
pub fn bytes_of(name: &str) -> Option<Bytes>
    ensures { result ≡ bytes_of name.now }
{
    match name {
        "none" => Some(Bytes::Nothing),
        "sha256" => Some(Bytes::Digest),
        "hex" => Some(Bytes::Dump),
        _ => None,
    }
}
