// The line that tells a verdict.
ghost use Rattle.std.specs.Prelude.{◌≡◌, ◌++◌, IfOk, OnOk};
ghost use Rattle.fb_top.specs.Verdicts.{mismatch_text, report_word, rule_word, verdict_line, verdict_text};

use fb_check::{Mismatch, Rule, Verdict};
use fb_desk::Input;
use fb_texts::{push_number, push_words};
use fb_units::NoMemory;
use std::alloc::Global;

/// The line that tells a verdict, with its line feed. The only error is out of memory.
pub fn verdict_line(alloc: Global, verdict: &Verdict) -> Result<Vec<u8>, NoMemory>
    ensures { IfOk result (λ text. text.items ≡ verdict_line verdict.now) }
{
    let mut text = Vec::new(alloc);
    push_words(&mut text, "freeblock check ")?;
    push_verdict(&mut text, verdict)?;
    text.push(b'\n')?;
    Ok(text)
}

// Adds whether the reports are right, and if not, what is wrong first.
fn push_verdict(text: &mut Vec<u8>, verdict: &Verdict) -> Result<(), NoMemory>
    ensures { OnOk result (text.new.items ≡ text.old.items ++ verdict_text verdict.now) }
{
    match verdict {
        Verdict::Yes => push_words(text, "yes"),
        Verdict::No(mismatch) => {
            push_words(text, "no ")?;
            push_mismatch(text, *mismatch)
        }
    }
}

// Adds the report, the line, the field and the rule.
fn push_mismatch(text: &mut Vec<u8>, mismatch: Mismatch) -> Result<(), NoMemory>
    ensures { OnOk result (text.new.items ≡ text.old.items ++ mismatch_text mismatch) }
{
    push_report(text, mismatch.input)?;
    text.push(b' ')?;
    push_number(text, mismatch.line)?;
    text.push(b' ')?;
    push_number(text, u64::from(mismatch.field))?;
    text.push(b' ')?;
    push_rule(text, mismatch.rule)
}

/// Adds what a report is called. The only error is out of memory.
pub fn push_report(text: &mut Vec<u8>, report: Input) -> Result<(), NoMemory>
    ensures { OnOk result (text.new.items ≡ text.old.items ++ report_word report) }
{
    match report {
        Input::ForeReport => push_words(text, "fore"),
        _ => push_words(text, "back"),
    }
}

// Adds what a rule is called.
fn push_rule(text: &mut Vec<u8>, rule: Rule) -> Result<(), NoMemory>
    ensures { OnOk result (text.new.items ≡ text.old.items ++ rule_word rule) }
{
    match rule {
        Rule::Foreground => push_words(text, "Foreground"),
        Rule::Timeline => push_words(text, "Timeline"),
        Rule::Plan => push_words(text, "Plan"),
        Rule::Delivery => push_words(text, "Delivery"),
        Rule::Event => push_words(text, "Event"),
        Rule::Tasks => push_words(text, "Tasks"),
        Rule::End => push_words(text, "End"),
    }
}
