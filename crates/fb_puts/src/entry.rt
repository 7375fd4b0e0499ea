// The fields of a line.
ghost use Rattle.std.specs.Prelude.{◌≡◌, ◌≤◌, ◌^◌, [], ◌∷◌, IfOk, MatchResult};
ghost use Rattle.fb_units.specs.Judging.{or_refuse};
ghost use Rattle.fb_units.specs.Lines.{fields_of};
ghost use Rattle.fb_units.specs.Numbers.{millis_of};
ghost use Rattle.fb_puts.specs.declared.fault.PutsReason.TheVariants.{BadLine, BadTime};
ghost use Rattle.fb_puts.specs.Line.{number, put_of, reserve_of};

use crate::range::SectorRange;
use crate::{Put, PutsReason};
use fb_units::{Ns, next_field, read_millis, read_number};

/// The range of the reserve, from the line that names it.
#[tactic(auto, unfolding(crate::specs::Line::reserve_of))]
pub fn read_reserve(line: &[u8]) -> Result<SectorRange, PutsReason>
    ensures value { result ≡ reserve_of (fields_of line.now) }
    ensures first { IfOk result (λ range. range.first ≤ 10 ^ 15) }
    ensures count { IfOk result (λ range. range.count ≤ 10 ^ 15) }
{
    let (word, rest) = field(line)?;
    let (first, rest) = field(rest)?;
    let (count, rest) = field(rest)?;
    if next_field(rest).is_some() || word != b"reserve".as_slice() {
        return Err(PutsReason::BadLine);
    }
    let first = number(first, 2)?;
    let count = number(count, 3)?;
    Ok(SectorRange { first, count })
}

/// The put that a line asks for.
#[tactic(auto, unfolding(crate::specs::Line::put_of))]
pub fn read_put(line: &[u8]) -> Result<Put, PutsReason>
    ensures value { result ≡ put_of (fields_of line.now) }
    ensures instant { IfOk result (λ put. put.instant ≤ 10 ^ 15) }
    ensures first { IfOk result (λ put. put.first ≤ 10 ^ 15) }
    ensures count { IfOk result (λ put. put.count ≤ 10 ^ 15) }
{
    let (instant, rest) = field(line)?;
    let (word, rest) = field(rest)?;
    let (first, rest) = field(rest)?;
    let (count, rest) = field(rest)?;
    if next_field(rest).is_some() || word != b"put".as_slice() {
        return Err(PutsReason::BadLine);
    }
    let instant = time(instant)?;
    let first = number(first, 3)?;
    let count = number(count, 4)?;
    Ok(Put {
        instant,
        first,
        count,
    })
}

// The first field of a line and the rest of the line; `BadLine` if it has no field left.
fn field(line: &[u8]) -> Result<(&[u8], &[u8]), PutsReason>
    ensures { MatchResult result (λ found. fields_of line.now ≡ found.0.now ∷ fields_of found.1.now)
        (λ reason. (fields_of line.now ≡ []) × (reason ≡ BadLine)) }
{
    match next_field(line) {
        Some(found) => Ok(found),
        None => Err(PutsReason::BadLine),
    }
}

// The time in the first field.
fn time(text: &[u8]) -> Result<Ns, PutsReason>
    ensures value { result ≡ or_refuse BadTime (millis_of text.now) }
    ensures bound { IfOk result (λ time. time ≤ 10 ^ 15) }
{
    match read_millis(text) {
        Some(time) => Ok(time),
        None => Err(PutsReason::BadTime),
    }
}

// The number in a field; fields are counted from 1.
fn number(text: &[u8], field: u32) -> Result<u64, PutsReason>
    ensures value { result ≡ number field text.now }
    ensures bound { IfOk result (λ number. number ≤ 10 ^ 15) }
{
    match read_number(text) {
        Some(number) => Ok(number),
        None => Err(PutsReason::BadNumber(field)),
    }
}
