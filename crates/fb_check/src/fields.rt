// The fields of a line.
ghost use Rattle.std.specs.Prelude.{◌≡◌, ◌≢◌, ◌≤◌, ◌+◌, ◌∷◌, ◌++◌, ◌↔◌, ℕ, List, length, IsTrue, MatchOption};
ghost use Rattle.std.specs.List.{join_with_byte};
ghost use Rattle.fb_report.specs.Grammar.{report_fields};
ghost use Rattle.fb_check.specs.Comparing.{FindsWrong};
ghost use Rattle.fb_check.specs.Verdict.{DifferFirstAt};

use fb_report::ReportLine;

/// The first field, counted from 1, in which a due line and printed fields differ, if they do. The
/// fields of the due line are what stands between its spaces.
pub fn wrong_field(due: &[u8], printed: &ReportLine) -> Option<u32>
    requires few { length printed.now ≤ 16 }
    ensures { FindsWrong result due.now printed.now }
{
    if are_joined(printed, due) {
        None
    } else {
        Some(first_wrong_field(due, printed))
    }
}

/// The same where the printed line is a text.
pub fn wrong_part(due: &[u8], printed: &[u8]) -> Option<u32>
    requires few { length (report_fields printed.now) ≤ 16 }
    ensures { FindsWrong result due.now (report_fields printed.now) }
{
    if due == printed {
        None
    } else {
        Some(first_wrong_part(due, printed))
    }
}

// Whether a text is these fields, with a space between each two.
fn are_joined(fields: &ReportLine, text: &[u8]) -> bool
    ensures { IsTrue result ↔ (text.now ≡ join_with_byte 32 fields.now) }
{
    if fields.len() == 0 {
        return text.is_empty();
    }
    let Some(mut rest) = text.strip_prefix(fields.get(0).as_slice()) else {
        return false;
    };
    for i in 1..fields.len() {
        match behind_field(rest, fields.get(i).as_slice()) {
            Some(behind) => rest = behind,
            None => return false,
        }
    }
    rest.is_empty()
}

// What stands behind a space and this field, if a text begins with them.
fn behind_field<'a>(text: &'a [u8], field: &[u8]) -> Option<&'a [u8]>
    ensures { MatchOption result ((rest : List ℕ) → text.now ≢ 32 ∷ (field.now ++ rest)) (λ rest. text.now ≡ 32 ∷ (field.now ++ rest.now)) }
{
    let behind = text.strip_prefix(b" ")?;
    behind.strip_prefix(field)
}

// The first field, counted from 1, in which a due line and printed fields differ.
fn first_wrong_field(due: &[u8], printed: &ReportLine) -> u32
    requires differ { report_fields due.now ≢ printed.now }
    requires few { length printed.now ≤ 16 }
    ensures { (index : ℕ) × (result ≡ index + 1) × DifferFirstAt index (report_fields due.now) printed.now }
{
    let fields = due.split(|byte| *byte == b' ').zip(printed.as_slice());
    let same = fields.take_while(|(due, printed)| *due == printed.as_slice());
    same.count() as u32 + 1
}

// The first field, counted from 1, in which two lines differ.
fn first_wrong_part(due: &[u8], printed: &[u8]) -> u32
    requires differ { report_fields due.now ≢ report_fields printed.now }
    requires few { length (report_fields printed.now) ≤ 16 }
    ensures { (index : ℕ) × (result ≡ index + 1) × DifferFirstAt index (report_fields due.now) (report_fields printed.now) }
{
    let fields = due
        .split(|byte| *byte == b' ')
        .zip(printed.split(|byte| *byte == b' '));
    fields.take_while(|(due, printed)| *due == *printed).count() as u32 + 1
}
