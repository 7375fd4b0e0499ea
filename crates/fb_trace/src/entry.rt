// The five fields of a line, and the request that they ask for.
ghost use Rattle.std.specs.Prelude.{◌≡◌, ◌≤◌, ◌^◌, [], ◌∷◌, IfOk, IfSome, MatchResult};
ghost use Rattle.fb_units.specs.Lines.{fields_of};
ghost use Rattle.fb_units.specs.Numbers.{millis_of, number_of, flags_of};
ghost use Rattle.fb_units.specs.Judging.{or_refuse};
ghost use Rattle.fb_trace.specs.Entry.{entry_of, spelled};
ghost use Rattle.fb_trace.specs.Line.{entry_after, request_of};
ghost use Rattle.fb_trace.specs.declared.trace.TraceReason.TheVariants.{TooFewFields, BadTime, BadNumber};

use crate::TraceReason;
use fb_units::{Name, Ns, Request, next_field, read_flags, read_millis, read_number};

const MOST_SECTORS: u64 = 2_048;

const MOST_REQUESTS: u64 = 1_000_000;

/// The values of the five fields of a line.
#[derive(Clone, Copy)]
pub struct Entry {
    /// The instant of arrival, in nanoseconds, at most 10^15.
    pub arrival: Ns,
    /// The device, at most 10^15.
    pub device: u64,
    /// The first sector, at most 10^15.
    pub first: u64,
    /// The number of sectors, at most 10^15.
    pub size: u64,
    /// The flags: 64 bits, of which the lowest one marks a read.
    pub flags: u64,
}

impl Entry {
    /// The request with this number that the values ask for, on a disk of this many sectors; or the
    /// first reason why there is none.
    #[tactic(auto, unfolding(crate::specs::Line::request_of))]
    pub fn request(&self, number: u64, sectors: u64) -> Result<Request, TraceReason>
        requires { self.now.first ≤ 10 ^ 15 }
        ensures { result ≡ request_of sectors number self.now }
    {
        if self.size == 0 {
            return Err(TraceReason::Empty);
        }
        if self.size > MOST_SECTORS {
            return Err(TraceReason::TooLarge);
        }
        if self.first + self.size > sectors {
            return Err(TraceReason::BeyondDisk);
        }
        if number > MOST_REQUESTS {
            return Err(TraceReason::TooMany);
        }
        Ok(Request {
            name: Name::Traced(number),
            arrival: self.arrival,
            lbn: self.first,
            count: self.size as u32,
            write: self.flags % 2 == 0,
        })
    }
}

/// The values of a line whose request may not arrive before this instant, or none if the line is
/// blank; or the first reason why the line is refused for every device.
pub fn entry_after(instant: Ns, line: &[u8]) -> Result<Option<Entry>, TraceReason>
    ensures value { result ≡ entry_after instant (fields_of line.now) }
    ensures first { IfOk result (λ entry. IfSome entry (λ entry. entry.first ≤ 10 ^ 15)) }
{
    if next_field(line).is_none() {
        return Ok(None);
    }
    let entry = read_entry(line)?;
    if entry.arrival < instant {
        return Err(TraceReason::OutOfOrder);
    }
    Ok(Some(entry))
}

// The values of the fields of a line that isn't blank, or the first reason why they have none.
#[tactic(auto, unfolding(crate::specs::Entry::entry_of))]
fn read_entry(line: &[u8]) -> Result<Entry, TraceReason>
    ensures value { result ≡ entry_of (fields_of line.now) }
    ensures first { IfOk result (λ entry. entry.first ≤ 10 ^ 15) }
{
    let (arrival, rest) = field(line)?;
    let (device, rest) = field(rest)?;
    let (first, rest) = field(rest)?;
    let (size, rest) = field(rest)?;
    let (flags, _) = field(rest)?;
    spelled(arrival, device, first, size, flags)
}

// The first field of a line and the rest of the line; `TooFewFields` if it has no field left.
fn field(line: &[u8]) -> Result<(&[u8], &[u8]), TraceReason>
    ensures { MatchResult result (λ found. fields_of line.now ≡ found.0.now ∷ fields_of found.1.now)
        (λ reason. (fields_of line.now ≡ []) × (reason ≡ TooFewFields)) }
{
    match next_field(line) {
        Some(found) => Ok(found),
        None => Err(TraceReason::TooFewFields),
    }
}

// The values of five fields.
#[tactic(auto, unfolding(crate::specs::Entry::spelled))]
fn spelled(
    arrival: &[u8],
    device: &[u8],
    first: &[u8],
    size: &[u8],
    flags: &[u8],
) -> Result<Entry, TraceReason>
    ensures value { result ≡ spelled arrival.now device.now first.now size.now flags.now }
    ensures first { IfOk result (λ entry. entry.first ≤ 10 ^ 15) }
{
    Ok(Entry {
        arrival: time(arrival)?,
        device: number(device, 2)?,
        first: number(first, 3)?,
        size: number(size, 4)?,
        flags: marks(flags, 5)?,
    })
}

// The time in the first field.
fn time(text: &[u8]) -> Result<Ns, TraceReason>
    ensures { result ≡ or_refuse BadTime (millis_of text.now) }
{
    match read_millis(text) {
        Some(time) => Ok(time),
        None => Err(TraceReason::BadTime),
    }
}

// The number in a field; fields are counted from 1.
fn number(text: &[u8], field: u32) -> Result<u64, TraceReason>
    ensures value { result ≡ or_refuse (BadNumber field) (number_of text.now) }
    ensures bound { IfOk result (λ number. number ≤ 10 ^ 15) }
{
    match read_number(text) {
        Some(number) => Ok(number),
        None => Err(TraceReason::BadNumber(field)),
    }
}

// The flags in a field; fields are counted from 1.
fn marks(text: &[u8], field: u32) -> Result<u64, TraceReason>
    ensures { result ≡ or_refuse (BadNumber field) (flags_of text.now) }
{
    match read_flags(text) {
        Some(flags) => Ok(flags),
        None => Err(TraceReason::BadNumber(field)),
    }
}
