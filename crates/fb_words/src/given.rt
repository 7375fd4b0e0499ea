// The options that were given so far.
ghost use Rattle.std.specs.Prelude.{◌≡◌};
ghost use Rattle.fb_words.specs.Options.{no_options};
ghost use Rattle.fb_words.specs.Given.{options};
ghost use Rattle.fb_words.specs.Values.{is_given};

use crate::Policy;
use crate::names::OptionName;
use fb_report::Bytes;
use fb_units::Ns;

/// The value of each option that was given, and whether a summary is wanted.
#[derive(Clone, Copy)]
pub struct Given<'a> {
    /// The parameter file.
    pub params: Option<&'a str>,
    /// The file of the trace.
    pub trace: Option<&'a str>,
    /// The order in which requests are served.
    pub policy: Option<Policy>,
    /// The file of the call script.
    pub calls: Option<&'a str>,
    /// The file of the foreground report.
    pub fore: Option<&'a str>,
    /// The file of the background report.
    pub back: Option<&'a str>,
    /// The file of background writes.
    pub puts: Option<&'a str>,
    /// The file for the text of what was written.
    pub spill: Option<&'a str>,
    /// The instant until which the head waits at the end, in nanoseconds.
    pub until: Option<Ns>,
    /// The device of the requests.
    pub device: Option<u64>,
    /// How contents are shown.
    pub bytes: Option<Bytes>,
    /// The seed of a generated trace.
    pub number: Option<u64>,
    /// The number of requests of a generated trace.
    pub requests: Option<u64>,
    /// The number of devices of an array.
    pub devices: Option<u32>,
    /// The device to rebuild from.
    pub rebuild: Option<u64>,
    /// The file for the text of the replacement.
    pub copy: Option<&'a str>,
    /// Whether a summary is wanted.
    pub summary: bool,
}

impl Given<'_> {
    /// No option yet.
    pub fn none() -> Self
        ensures { options result ≡ no_options }
    {
        Given {
            params: None,
            trace: None,
            policy: None,
            calls: None,
            fore: None,
            back: None,
            puts: None,
            spill: None,
            until: None,
            device: None,
            bytes: None,
            number: None,
            requests: None,
            devices: None,
            rebuild: None,
            copy: None,
            summary: false,
        }
    }

    /// Whether an option was given.
    pub fn has(&self, option: OptionName) -> bool
        ensures { result ≡ is_given (options self.now) option }
    {
        match option {
            OptionName::Params => self.params.is_some(),
            OptionName::Trace => self.trace.is_some(),
            OptionName::Policy => self.policy.is_some(),
            OptionName::Calls => self.calls.is_some(),
            OptionName::Fore => self.fore.is_some(),
            OptionName::Back => self.back.is_some(),
            OptionName::Puts => self.puts.is_some(),
            OptionName::Spill => self.spill.is_some(),
            OptionName::Until => self.until.is_some(),
            OptionName::Device => self.device.is_some(),
            OptionName::Bytes => self.bytes.is_some(),
            OptionName::Number => self.number.is_some(),
            OptionName::Requests => self.requests.is_some(),
            OptionName::Devices => self.devices.is_some(),
            OptionName::Rebuild => self.rebuild.is_some(),
            OptionName::Copy => self.copy.is_some(),
        }
    }
}
