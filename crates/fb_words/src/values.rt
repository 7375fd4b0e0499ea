// The values of options.
ghost use Rattle.std.specs.Prelude.{◌≡◌};
ghost use Rattle.fb_units.specs.Judging.{or_refuse};
ghost use Rattle.fb_units.specs.Numbers.{millis_of, number_of};
ghost use Rattle.fb_words.specs.declared.fault.UsageReason.TheVariants.{BadValue};
ghost use Rattle.fb_words.specs.Names.{policy_of, bytes_of};
ghost use Rattle.fb_words.specs.Given.{options};
ghost use Rattle.fb_words.specs.Values.{device_count_of, is_value, request_count_of, with_form, with_value};
ghost use Rattle.fb_words.specs.Verdict.{Agrees};

use crate::given::Given;
use crate::names::{OptionName, bytes_of, policy_of};
use crate::{Policy, UsageReason};
use fb_report::Bytes;
use fb_units::{Ns, read_millis, read_number};

const MOST_REQUESTS: u64 = 1_000_000;

const MOST_DEVICES: u64 = 16;

/// The options with the value of one more option, or why that value is refused.
#[tactic(auto, unfolding(crate::specs::Values::with_value))]
pub fn with_value<'a>(
    given: Given<'a>,
    option: OptionName,
    value: &'a str,
) -> Result<Given<'a>, UsageReason>
    ensures { Agrees options result (with_value (options given.entry) option value.now) }
{
    if !is_value(value) {
        return Err(UsageReason::NoValue);
    }
    with_form(given, option, value)
}

// Whether a word can be a value: it isn't empty and doesn't begin with a dash.
fn is_value(word: &str) -> bool
    ensures { result ≡ is_value word.now }
{
    match word.as_bytes() {
        [] => false,
        [b'-', ..] => false,
        _ => true,
    }
}

// The options with the value of one more option; `BadValue` if it isn't of the option's form.
#[tactic(auto, unfolding(crate::specs::Values::with_form))]
fn with_form<'a>(
    given: Given<'a>,
    option: OptionName,
    value: &'a str,
) -> Result<Given<'a>, UsageReason>
    ensures { Agrees options result (with_form (options given.entry) option value.now) }
{
    let mut now = given;
    match option {
        OptionName::Params => now.params = Some(value),
        OptionName::Trace => now.trace = Some(value),
        OptionName::Policy => now.policy = Some(policy(value)?),
        OptionName::Calls => now.calls = Some(value),
        OptionName::Fore => now.fore = Some(value),
        OptionName::Back => now.back = Some(value),
        OptionName::Puts => now.puts = Some(value),
        OptionName::Spill => now.spill = Some(value),
        OptionName::Until => now.until = Some(time(value)?),
        OptionName::Device => now.device = Some(number(value)?),
        OptionName::Bytes => now.bytes = Some(bytes(value)?),
        OptionName::Number => now.number = Some(number(value)?),
        OptionName::Requests => now.requests = Some(request_count(value)?),
        OptionName::Devices => now.devices = Some(device_count(value)?),
        OptionName::Rebuild => now.rebuild = Some(number(value)?),
        OptionName::Copy => now.copy = Some(value),
    }
    Ok(now)
}

fn policy(value: &str) -> Result<Policy, UsageReason>
    ensures { result ≡ or_refuse BadValue (policy_of value.now) }
{
    policy_of(value).ok_or(UsageReason::BadValue)
}

fn bytes(value: &str) -> Result<Bytes, UsageReason>
    ensures { result ≡ or_refuse BadValue (bytes_of value.now) }
{
    bytes_of(value).ok_or(UsageReason::BadValue)
}

fn time(value: &str) -> Result<Ns, UsageReason>
    ensures { result ≡ or_refuse BadValue (millis_of value.now) }
{
    read_millis(value.as_bytes()).ok_or(UsageReason::BadValue)
}

fn number(value: &str) -> Result<u64, UsageReason>
    ensures { result ≡ or_refuse BadValue (number_of value.now) }
{
    read_number(value.as_bytes()).ok_or(UsageReason::BadValue)
}

// A number of requests, which is at most a million.
#[tactic(auto, unfolding(crate::specs::Values::request_count_of))]
fn request_count(value: &str) -> Result<u64, UsageReason>
    ensures { result ≡ request_count_of value.now }
{
    let count = number(value)?;
    if count > MOST_REQUESTS {
        return Err(UsageReason::BadValue);
    }
    Ok(count)
}

// A number of devices, from 1 to 16.
#[tactic(auto, unfolding(crate::specs::Values::device_count_of))]
fn device_count(value: &str) -> Result<u32, UsageReason>
    ensures { result ≡ device_count_of value.now }
{
    let count = number(value)?;
    if count == 0 || count > MOST_DEVICES {
        return Err(UsageReason::BadValue);
    }
    Ok(count as u32)
}
