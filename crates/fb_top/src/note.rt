// The line that says why a command failed.
ghost use Rattle.std.specs.Prelude.{◌≡◌, ◌++◌, IfOk, OnOk};
ghost use Rattle.fb_top.specs.Notes.{cause_text, input_text, note_of, output_text};

use crate::Outcome;
use crate::note_faults::{
    push_calls_fault, push_params_fault, push_puts_fault, push_trace_fault, push_usage_fault,
};
use crate::verdicts::push_report;
use fb_desk::{Input, Output};
use fb_texts::{push_number, push_words};
use fb_units::NoMemory;
use std::alloc::Global;

/// The line that says why a command failed, with its line feed; empty where it was done.
///
/// The only error is out of memory.
pub fn note_text(alloc: Global, outcome: &Outcome) -> Result<Vec<u8>, NoMemory>
    ensures { IfOk result (λ text. text.items ≡ note_of outcome.now) }
{
    let mut text = Vec::new(alloc);
    match outcome {
        Outcome::Done(_) => Ok(text),
        Outcome::Made(_) => Ok(text),
        Outcome::Checked(_) => Ok(text),
        Outcome::Arrayed { .. } => Ok(text),
        Outcome::Spilled { .. } => Ok(text),
        _ => {
            push_words(&mut text, "freeblock: ")?;
            push_cause(&mut text, outcome)?;
            text.push(b'\n')?;
            Ok(text)
        }
    }
}

// Adds why a command failed.
fn push_cause(text: &mut Vec<u8>, outcome: &Outcome) -> Result<(), NoMemory>
    ensures { OnOk result (text.new.items ≡ text.old.items ++ cause_text outcome.now) }
{
    match outcome {
        Outcome::Done(_) => Ok(()),
        Outcome::Made(_) => Ok(()),
        Outcome::Checked(_) => Ok(()),
        Outcome::Arrayed { .. } => Ok(()),
        Outcome::Spilled { .. } => Ok(()),
        Outcome::Usage(fault) => push_usage_fault(text, fault),
        Outcome::Params(fault) => {
            push_words(text, "params: ")?;
            push_params_fault(text, fault)
        }
        Outcome::Trace(fault) => push_trace_fault(text, fault),
        Outcome::Calls(fault) => push_calls_fault(text, fault),
        Outcome::Puts(fault) => push_puts_fault(text, fault),
        Outcome::Reports(fault) => {
            push_words(text, "reports: ")?;
            push_report(text, fault.input)?;
            push_words(text, " line ")?;
            push_number(text, fault.line)
        }
        Outcome::TooLong(input) => push_input(text, "too long: ", *input),
        Outcome::ReadFault(input) => push_input(text, "read fault: ", *input),
        Outcome::WriteFault(output) => push_output(text, "write fault: ", *output),
        Outcome::NoMemory => push_words(text, "no memory"),
    }
}

// Adds what went wrong with an input.
fn push_input(text: &mut Vec<u8>, what: &str, input: Input) -> Result<(), NoMemory>
    ensures { OnOk result (text.new.items ≡ text.old.items ++ (what.now ++ input_text input)) }
{
    push_words(text, what)?;
    match input {
        Input::Params => push_words(text, "params"),
        Input::Trace => push_words(text, "trace"),
        Input::Calls => push_words(text, "calls"),
        Input::Puts => push_words(text, "puts"),
        Input::ForeReport => push_words(text, "fore report"),
        Input::BackReport => push_words(text, "back report"),
    }
}

// Adds what went wrong with an output.
fn push_output(text: &mut Vec<u8>, what: &str, output: Output) -> Result<(), NoMemory>
    ensures { OnOk result (text.new.items ≡ text.old.items ++ (what.now ++ output_text output)) }
{
    push_words(text, what)?;
    match output {
        Output::Fore => push_words(text, "fore"),
        Output::Back => push_words(text, "back"),
        Output::Spill => push_words(text, "spill"),
        Output::Note => push_words(text, "note"),
        Output::MadeTrace => push_words(text, "trace"),
        Output::MadeCalls => push_words(text, "calls"),
        Output::Copied => push_words(text, "copy"),
    }
}
