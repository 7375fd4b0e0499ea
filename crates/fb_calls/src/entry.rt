// The fields of a line.
ghost use Rattle.std.specs.Prelude.{◌≡◌, ◌≤◌, ◌^◌, [], ◌∷◌, ◌==◌, length, true, IfOk, MatchResult};
ghost use Rattle.fb_units.specs.Judging.{or_refuse};
ghost use Rattle.fb_units.specs.Lines.{fields_of};
ghost use Rattle.fb_units.specs.Numbers.{millis_of, number_of};
ghost use Rattle.fb_calls.specs.declared.fault.CallsReason.TheVariants.{BadLine, BadTime};
ghost use Rattle.fb_calls.specs.Line.{number, range_of, asked_by, has_its_fields, entry_of};
ghost use Rattle.fb_calls.specs.declared.words.Verb.TheVariants.{Open as OpenVerb, Segment as SegmentVerb};
ghost use Rattle.fb_calls.specs.Reader.{said, asked, action, IsWithin, IsSmall, IsAskedWithin};
ghost use Rattle.fb_calls.specs.Verdict.{Agrees};

use crate::CallsReason;
use crate::live_digits::{is_live, read_live};
use crate::words::{Verb, fields_behind, kind_of, verb_of};
use fb_script::{Action, Kind, is_name};
use fb_units::{NoMemory, Ns, next_field, read_millis, read_number};
use std::alloc::Global;

/// What a line asks for, before it is judged. The live blocks of a segment are still digits.
#[derive(Clone, Copy)]
pub enum Asked<'a> {
    /// To open a task: its kind, weight, and block size in sectors.
    Open { kind: Kind, weight: u64, block: u64 },
    /// To want a range of sectors.
    Want { first: u64, count: u64 },
    /// To abort the blocks of a range of sectors.
    Abort { first: u64, count: u64 },
    /// To read a range of sectors in the foreground.
    Promote { first: u64, count: u64 },
    /// To suspend the task.
    Suspend,
    /// To resume the task.
    Resume,
    /// To close the task.
    Close,
    /// To add a log segment.
    Segment(SegmentFields<'a>),
}

/// The fields of a line that adds a log segment.
#[derive(Clone, Copy)]
pub struct SegmentFields<'a> {
    /// The first sector.
    pub first: u64,
    /// The number of blocks.
    pub blocks: u64,
    /// The age.
    pub age: u64,
    /// The digits of the live blocks.
    pub live: &'a [u8],
}

impl Asked<'_> {
    /// The action that is asked for.
    pub fn action(self, alloc: Global) -> Result<Action, NoMemory>
        requires within { IsWithin self }
        requires small { IsSmall self }
        ensures { IfOk result (λ made. made ≡ action self.entry) }
    {
        Ok(match self {
            Asked::Open {
                kind,
                weight,
                block,
            } => Action::Open {
                kind,
                weight: weight as u32,
                block: block as u32,
            },
            Asked::Want { first, count } => Action::Want { first, count },
            Asked::Abort { first, count } => Action::Abort { first, count },
            Asked::Promote { first, count } => Action::Promote {
                first,
                count: count as u32,
            },
            Asked::Suspend => Action::Suspend,
            Asked::Resume => Action::Resume,
            Asked::Close => Action::Close,
            Asked::Segment(segment) => Action::Segment {
                first: segment.first,
                blocks: segment.blocks as u32,
                age: segment.age,
                live: read_live(alloc, segment.blocks, segment.live)?,
            },
        })
    }
}

/// The values of the fields of a line: an instant in nanoseconds, the name of a task, and what is
/// asked for, or that the verb or the kind is unknown.
#[derive(Clone, Copy)]
pub struct Entry<'a> {
    /// The instant, in nanoseconds.
    pub instant: Ns,
    /// The name of the task.
    pub name: &'a [u8],
    /// What is asked for, or why that is unknown.
    pub asked: Result<Asked<'a>, CallsReason>,
}

/// The values of the fields of a line that isn't blank, or the first reason why they have none.
#[tactic(auto, unfolding(crate::specs::Line::entry_of))]
pub fn read_entry(line: &[u8]) -> Result<Entry<'_>, CallsReason>
    ensures value { Agrees said result (entry_of (fields_of line.now)) }
    ensures instant { IfOk result (λ entry. entry.instant ≤ 10 ^ 15) }
    ensures within { IfOk result (λ entry. IsAskedWithin entry.asked) }
{
    let (time_text, rest) = field(line)?;
    let (verb, rest) = field(rest)?;
    let (name, rest) = field(rest)?;
    let verb = verb_of(verb);
    if !has_its_fields(verb, rest) || !is_name(name) {
        return Err(CallsReason::BadLine);
    }
    let instant = time(time_text)?;
    let asked = asked_by(verb, rest)?;
    Ok(Entry {
        instant,
        name,
        asked,
    })
}

// The first field of a line and the rest of the line; `BadLine` if it has no field left.
fn field(line: &[u8]) -> Result<(&[u8], &[u8]), CallsReason>
    ensures { MatchResult result (λ found. fields_of line.now ≡ found.0.now ∷ fields_of found.1.now)
        (λ reason. (fields_of line.now ≡ []) × (reason ≡ BadLine)) }
{
    match next_field(line) {
        Some(found) => Ok(found),
        None => Err(CallsReason::BadLine),
    }
}

// Whether a known verb is followed by its number of fields; an unknown one may have any.
fn has_its_fields(verb: Option<Verb>, rest: &[u8]) -> bool
    ensures { result ≡ has_its_fields verb (length (fields_of rest.now)) }
{
    match verb {
        Some(verb) => has_fields(rest, fields_behind(verb)),
        None => true,
    }
}

// Whether a line has exactly this many fields.
fn has_fields(line: &[u8], count: usize) -> bool
    ensures { result ≡ (length (fields_of line.now) == count) }
{
    let mut rest = line;
    for _ in 0..count {
        match next_field(rest) {
            Some((_, others)) => rest = others,
            None => return false,
        }
    }
    next_field(rest).is_none()
}

// The time in the first field.
fn time(text: &[u8]) -> Result<Ns, CallsReason>
    ensures value { result ≡ or_refuse BadTime (millis_of text.now) }
    ensures bound { IfOk result (λ time. time ≤ 10 ^ 15) }
{
    match read_millis(text) {
        Some(time) => Ok(time),
        None => Err(CallsReason::BadTime),
    }
}

// The number in a field; fields are counted from 1.
fn number(text: &[u8], field: u32) -> Result<u64, CallsReason>
    ensures value { result ≡ number field text.now }
    ensures bound { IfOk result (λ number. number ≤ 10 ^ 15) }
{
    match read_number(text) {
        Some(number) => Ok(number),
        None => Err(CallsReason::BadNumber(field)),
    }
}

// What a verb and the fields behind the task's name ask for.
#[tactic(auto, unfolding(crate::specs::Line::asked_by))]
fn asked_by(verb: Option<Verb>, rest: &[u8]) -> Result<Result<Asked<'_>, CallsReason>, CallsReason>
    requires { has_its_fields verb (length (fields_of rest.now)) ≡ true }
    ensures value { Agrees asked result (asked_by verb (fields_of rest.now)) }
    ensures within { IfOk result IsAskedWithin }
{
    match verb {
        Some(Verb::Open) => open(rest),
        Some(Verb::Want) => {
            let (first, count) = range(rest)?;
            Ok(Ok(Asked::Want { first, count }))
        }
        Some(Verb::Abort) => {
            let (first, count) = range(rest)?;
            Ok(Ok(Asked::Abort { first, count }))
        }
        Some(Verb::Promote) => {
            let (first, count) = range(rest)?;
            Ok(Ok(Asked::Promote { first, count }))
        }
        Some(Verb::Suspend) => Ok(Ok(Asked::Suspend)),
        Some(Verb::Resume) => Ok(Ok(Asked::Resume)),
        Some(Verb::Close) => Ok(Ok(Asked::Close)),
        Some(Verb::Segment) => segment(rest),
        None => Ok(Err(CallsReason::UnknownVerb)),
    }
}

// The kind, the weight and the block size of an open.
#[tactic(auto, unfolding(crate::specs::Line::asked_by))]
fn open(rest: &[u8]) -> Result<Result<Asked<'_>, CallsReason>, CallsReason>
    requires { length (fields_of rest.now) ≡ 3 }
    ensures value { Agrees asked result (asked_by (Some OpenVerb) (fields_of rest.now)) }
    ensures within { IfOk result IsAskedWithin }
{
    let (kind, rest) = field(rest)?;
    let (weight, rest) = field(rest)?;
    let (block, _) = field(rest)?;
    let weight = number(weight, 5)?;
    let block = number(block, 6)?;
    match kind_of(kind) {
        Some(kind) => Ok(Ok(Asked::Open {
            kind,
            weight,
            block,
        })),
        None => Ok(Err(CallsReason::UnknownKind)),
    }
}

// The first sector of a range and the number of its sectors.
fn range(rest: &[u8]) -> Result<(u64, u64), CallsReason>
    requires { length (fields_of rest.now) ≡ 2 }
    ensures value { result ≡ range_of (fields_of rest.now) }
    ensures within { IfOk result (λ range. (range.0 ≤ 10 ^ 15) × (range.1 ≤ 10 ^ 15)) }
{
    let (first, rest) = field(rest)?;
    let (count, _) = field(rest)?;
    Ok((number(first, 4)?, number(count, 5)?))
}

// The first sector, the number of blocks, the age and the live blocks of a segment.
#[tactic(auto, unfolding(crate::specs::Line::asked_by))]
fn segment(rest: &[u8]) -> Result<Result<Asked<'_>, CallsReason>, CallsReason>
    requires { length (fields_of rest.now) ≡ 4 }
    ensures value { Agrees asked result (asked_by (Some SegmentVerb) (fields_of rest.now)) }
    ensures within { IfOk result IsAskedWithin }
{
    let (first, rest) = field(rest)?;
    let (blocks, rest) = field(rest)?;
    let (age, rest) = field(rest)?;
    let (live, _) = field(rest)?;
    let first = number(first, 4)?;
    let blocks = number(blocks, 5)?;
    let age = number(age, 6)?;
    if !is_live(blocks, live) {
        return Err(CallsReason::BadNumber(7));
    }
    Ok(Ok(Asked::Segment(SegmentFields {
        first,
        blocks,
        age,
        live,
    })))
}
