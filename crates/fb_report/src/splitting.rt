// Lines are split into their fields.
ghost use Rattle.std.specs.Prelude.{◌≡◌, length, IfOk};
ghost use Rattle.fb_report.specs.Grammar.{report_fields};

use crate::forms::split_once;
use crate::{FieldText, ReportLine};
use fb_units::NoMemory;
use std::alloc::Global;

// How many fields a line has.
fn count_fields(line: &[u8]) -> usize
    ensures { result ≡ length (report_fields line.now) }
{
    let mut spaces = 0;
    for byte in line {
        if *byte == b' ' {
            spaces += 1;
        }
    }
    spaces + 1
}

/// The fields of a line. The only error is out of memory.
pub fn fields_of(alloc: Global, line: &[u8]) -> Result<ReportLine, NoMemory>
    ensures { IfOk result (λ fields. fields ≡ report_fields line.now) }
{
    let mut fields = ReportLine::with_capacity(alloc, count_fields(line))?;
    let mut rest = line;
    while let Some((field, behind)) = split_once(rest, b' ') {
        fields.push(FieldText::from_slice(alloc, field)?)?;
        rest = behind;
    }
    fields.push(FieldText::from_slice(alloc, rest)?)?;
    Ok(fields)
}
