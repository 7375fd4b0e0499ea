// Reading a puts file, line by line.
ghost use Rattle.std.specs.Prelude.{◌≡◌, ◌+◌, ◌<◌, ◌≤◌, ◌^◌, [], length, map, true, false, Some, Ok, IfOk, IfSome, OnOk};
ghost use Rattle.std.specs.List.{AllByRecursion, list_any};
ghost use Rattle.fb_units.specs.Lines.{fields_of};
ghost use Rattle.fb_geometry.specs.Places.{places};
ghost use Rattle.fb_puts.specs.Asked.{asked};
ghost use Rattle.fb_puts.specs.Ranges.{lies_in, share, AreApart};
ghost use Rattle.fb_puts.specs.Reader.{progress, terms_of, with_step, IsNextPut, IsNextReserve, IsReader, IsWithin, MayFollow, AreTerms};
ghost use Rattle.fb_puts.specs.Reader.{IsApart};
ghost use Rattle.fb_puts.specs.Reading.{at_end, at_start, free_put, judged_put, judged_reserve, next_progress, next_read, puts_of};
ghost use Rattle.fb_puts.specs.Reading.{range_of, some_on_disk};
ghost use Rattle.fb_puts.specs.Reading as reading;
ghost use Rattle.fb_puts.specs.Rules.{ArePuts};
ghost use Rattle.fb_puts.specs.Taken.{HasTaken, IsKnown, IsSure};
ghost use Rattle.fb_puts.specs.Verdict.{accepted, reserve, Agrees, Answers};

use crate::asked::{block_sizes, is_touched};
use crate::entry::{read_put, read_reserve};
use crate::range::SectorRange;
use crate::taken::{Taken, are_apart};
use crate::{Put, Puts, PutsError, PutsFault, PutsReason};
use fb_script::Calls;
use fb_sectormap::SectorMap;
use fb_trace::Trace;
use fb_units::{NoMemory, Ns, next_field, next_line};
use std::alloc::Global;

const MOST_SECTORS: u64 = 16_000_000;

const MOST_PUTS: usize = 100_000;

// What a puts file is judged by.
#[derive(Drop)]
struct Terms<'a> {
    // The disk's number of sectors.
    sectors: u64,
    trace: &'a Trace,
    calls: &'a Calls,
    // The block size of each task of the script, in order of opening.
    sizes: Vec<u32>,
}

// What was read of the lines so far.
#[derive(Drop)]
struct Reader {
    // The reserve, once there was its line.
    reserve: Option<SectorRange>,
    // The instant of the last put.
    instant: Ns,
    puts: Vec<Put>,
    // The sectors of the puts.
    taken: Taken,
}

// What a line adds.
#[derive(Clone, Copy)]
enum Step {
    Blank,
    Reserve(SectorRange),
    Put(Put),
}

/// The reserve and the puts of a file, for a disk, a trace and a script. An error names the first
/// faulty line, counted from 1, and the first reason why it is refused; or it is `NoMemory`.
pub fn read_puts(
    alloc: Global,
    bytes: &[u8],
    map: &SectorMap,
    trace: &Trace,
    calls: &Calls,
) -> Result<Puts, PutsError>
    ensures answer { Answers accepted result
        (puts_of (record { sectors = length (places map.now); asked = asked trace.now.requests.items calls.now.calls.items }) bytes.now) }
    ensures rules { IfOk result (λ puts. ArePuts (length (places map.now)) (accepted puts)) }
    ensures untouched { IfOk result
        (λ puts. AllByRecursion (λ range. share (reserve puts) range ≡ false) (asked trace.now.requests.items calls.now.calls.items)) }
{
    let terms = Terms {
        sectors: map.count(),
        trace,
        calls,
        sizes: block_sizes(alloc, calls)?,
    };
    if let Some(puts) = read_apart(alloc, &terms, bytes)? {
        return Ok(puts);
    }
    let start = Reader::new(alloc, Taken::new(alloc));
    let reader = read_lines(&terms, bytes, start)?;
    Ok(reader.end())
}

// The reserve and the puts, unless a line is faulty. To keep the sectors of the puts would take most
// of the time, so here it is judged behind the last line whether two puts share one.
fn read_apart(alloc: Global, terms: &Terms, bytes: &[u8]) -> Result<Option<Puts>, NoMemory>
    requires terms { AreTerms terms.now }
    ensures answer { IfOk result (λ read. IfSome read (λ puts. puts_of (terms_of terms.now) bytes.now ≡ Ok (accepted puts))) }
    ensures rules { IfOk result (λ read. IfSome read (λ puts. ArePuts (terms_of terms.now).sectors (accepted puts))) }
    ensures untouched { IfOk result
        (λ read. IfSome read (λ puts. AllByRecursion (λ range. share (reserve puts) range ≡ false) (terms_of terms.now).asked)) }
{
    let start = Reader::new(alloc, Taken::Unknown);
    let reader = match read_lines(terms, bytes, start) {
        Ok(reader) => reader,
        Err(PutsError::Fault(_)) => return Ok(None),
        Err(PutsError::NoMemory) => return Err(NoMemory),
    };
    let ranges = ranges_of(alloc, &reader.puts)?;
    if are_apart(ranges) {
        Ok(Some(reader.end()))
    } else {
        Ok(None)
    }
}

// Reads all lines of a text, from this start. If the sectors of the puts aren't known, what was read
// is right only if no two puts share one.
fn read_lines(terms: &Terms, bytes: &[u8], start: Reader) -> Result<Reader, PutsError>
    requires terms { AreTerms terms.now }
    requires start { progress start ≡ at_start }
    requires reader { IsReader (terms_of terms.now) start }
    ensures apart { IfOk result
        (λ reader. AreApart (map range_of reader.puts.items) → puts_of (terms_of terms.now) bytes.now ≡ Ok (at_end (progress reader))) }
    ensures known { IsKnown start.taken → Answers (λ reader. at_end (progress reader)) result (puts_of (terms_of terms.now) bytes.now) }
    ensures known_apart { IsKnown start.taken → IfOk result (λ reader. AreApart (map range_of reader.puts.items)) }
    ensures sound { IfOk result (IsReader (terms_of terms.now)) }
{
    let mut reader = start;
    let mut rest = bytes;
    let mut number = 0;
    while let Some((line, others)) = next_line(rest) {
        number += 1;
        reader.read_line(terms, number, line)?;
        rest = others;
    }
    Ok(reader)
}

// The reserve, if it may be one.
#[tactic(auto, unfolding(crate::specs::Reading::judged_reserve))]
fn judged_reserve(terms: &Terms, range: SectorRange) -> Result<SectorRange, PutsReason>
    requires terms { AreTerms terms.now }
    requires within { IsWithin range }
    ensures value { result ≡ judged_reserve (terms_of terms.now) range }
    ensures next { IfOk result (IsNextReserve (terms_of terms.now)) }
{
    some_on_disk(terms.sectors, range)?;
    if range.count > MOST_SECTORS {
        return Err(PutsReason::TooLarge);
    }
    if is_touched(range, terms.trace, terms.calls, &terms.sizes) {
        return Err(PutsReason::Touched);
    }
    Ok(range)
}

// Ok if a range has sectors, and all of them are on the disk.
fn some_on_disk(sectors: u64, range: SectorRange) -> Result<(), PutsReason>
    requires within { IsWithin range }
    ensures value { result ≡ some_on_disk sectors range }
    ensures some { OnOk result (0 < range.count) }
    ensures on_disk { OnOk result (range.first + range.count ≤ sectors) }
{
    if range.count == 0 {
        return Err(PutsReason::Empty);
    }
    if range.first + range.count > sectors {
        return Err(PutsReason::BeyondDisk);
    }
    Ok(())
}

impl Reader {
    // Before the first line.
    fn new(alloc: Global, taken: Taken) -> Reader
        requires none { HasTaken taken [] }
        ensures start { progress result ≡ at_start }
        ensures taken { result.taken ≡ taken }
        ensures sound { (terms : reading.Terms) → IsReader terms result }
    {
        Reader {
            reserve: None,
            instant: 0,
            puts: Vec::new(alloc),
            taken,
        }
    }

    // Reads the next line, which has this number.
    fn read_line(&mut self, terms: &Terms, number: u64, line: &[u8]) -> Result<(), PutsError>
        requires terms { AreTerms terms.now }
        requires reader { IsReader (terms_of terms.now) self.old }
        ensures known { IsKnown self.old.taken
            → Answers (λ _. progress self.new) result (next_progress (terms_of terms.now) number (progress self.old) line.now) }
        ensures apart { OnOk result (AreApart (map range_of self.new.puts.items) → AreApart (map range_of self.old.puts.items)
            × (next_progress (terms_of terms.now) number (progress self.old) line.now ≡ Ok (progress self.new))) }
        ensures still { OnOk result (IsKnown self.old.taken → IsKnown self.new.taken) }
        ensures sound { OnOk result (IsReader (terms_of terms.now) self.new) }
    {
        match self.step(terms, line) {
            Ok(step) => Ok(self.add(step)?),
            Err(reason) => Err(PutsError::Fault(PutsFault {
                line: number,
                reason,
            })),
        }
    }

    // What a line adds.
    #[tactic(auto, unfolding(crate::specs::Reading::line_read))]
    fn step(&self, terms: &Terms, line: &[u8]) -> Result<Step, PutsReason>
        requires terms { AreTerms terms.now }
        requires reader { IsReader (terms_of terms.now) self.now }
        ensures known { IsKnown self.now.taken
            → Agrees (with_step (progress self.now)) result (next_read (terms_of terms.now) (progress self.now) (fields_of line.now)) }
        ensures apart { IfOk result (λ step. IsApart self.now.puts.items step
            → next_read (terms_of terms.now) (progress self.now) (fields_of line.now) ≡ Ok (with_step (progress self.now) step)) }
        ensures next { IfOk result (MayFollow (terms_of terms.now) self.now) }
    {
        if next_field(line).is_none() {
            return Ok(Step::Blank);
        }
        match self.reserve {
            Some(reserve) => {
                let put = read_put(line)?;
                Ok(Step::Put(self.judged_put(terms, reserve, put)?))
            }
            None => {
                let range = read_reserve(line)?;
                Ok(Step::Reserve(judged_reserve(terms, range)?))
            }
        }
    }

    // The put, if it may follow those so far.
    #[tactic(auto, unfolding(crate::specs::Reading::judged_put))]
    fn judged_put(&self, terms: &Terms, reserve: SectorRange, put: Put) -> Result<Put, PutsReason>
        requires terms { AreTerms terms.now }
        requires reader { IsReader (terms_of terms.now) self.now }
        requires reserve { self.now.reserve ≡ Some reserve }
        requires instant { put.instant ≤ 10 ^ 15 }
        requires within { IsWithin (range_of put) }
        ensures value { IsSure self.now.taken (map range_of self.now.puts.items) (range_of put)
            → result ≡ judged_put (terms_of terms.now) reserve self.now.instant self.now.puts.items put }
        ensures same { IfOk result (λ next. next ≡ put) }
        ensures next { IfOk result (IsNextPut (terms_of terms.now) self.now) }
    {
        if put.instant < self.instant {
            return Err(PutsReason::OutOfOrder);
        }
        some_on_disk(terms.sectors, range_of(put))?;
        self.free_put(reserve, put)
    }

    // The put, if it lies in the reserve apart from those so far.
    #[tactic(auto, unfolding(crate::specs::Reading::free_put))]
    fn free_put(&self, reserve: SectorRange, put: Put) -> Result<Put, PutsReason>
        requires taken { HasTaken self.now.taken (map range_of self.now.puts.items) }
        requires few { length self.now.puts.items ≤ 10 ^ 5 }
        requires reserve { reserve.first + reserve.count < 2 ^ 63 }
        requires some { 0 < put.count }
        requires within { IsWithin (range_of put) }
        ensures value { IsSure self.now.taken (map range_of self.now.puts.items) (range_of put)
            → result ≡ free_put reserve self.now.puts.items put }
        ensures same { IfOk result (λ next. next ≡ put) }
        ensures inside { OnOk result (lies_in (range_of put) reserve ≡ true) }
        ensures apart { OnOk result (IsKnown self.now.taken → list_any (share (range_of put)) (map range_of self.now.puts.items) ≡ false) }
        ensures room { OnOk result (length self.now.puts.items < 10 ^ 5) }
    {
        let range = range_of(put);
        if !range.lies_in(reserve) {
            return Err(PutsReason::OutsideReserve);
        }
        if self.taken.has(range) {
            return Err(PutsReason::PutTwice);
        }
        if self.puts.len() >= MOST_PUTS {
            return Err(PutsReason::TooMany);
        }
        Ok(put)
    }

    // Adds what a line adds.
    fn add(&mut self, step: Step) -> Result<(), NoMemory>
        requires next { (terms : reading.Terms) × IsReader terms self.old × MayFollow terms self.old step }
        ensures step { OnOk result (progress self.new ≡ with_step (progress self.old) step) }
        ensures still { OnOk result (IsKnown self.old.taken → IsKnown self.new.taken) }
        ensures sound { OnOk result ((terms : reading.Terms) → IsReader terms self.old → MayFollow terms self.old step
            → IsReader terms self.new) }
    {
        match step {
            Step::Blank => {}
            Step::Reserve(reserve) => self.reserve = Some(reserve),
            Step::Put(put) => {
                self.taken.add(range_of(put))?;
                self.puts.push(put)?;
                self.instant = put.instant;
            }
        }
        Ok(())
    }

    // The reserve and the puts, at the end of the text.
    fn end(self) -> Puts
        ensures { accepted result ≡ at_end (progress self) }
    {
        match self.reserve {
            Some(reserve) => Puts {
                first: reserve.first,
                count: reserve.count,
                puts: self.puts,
            },
            None => Puts {
                first: 0,
                count: 0,
                puts: self.puts,
            },
        }
    }
}

// The ranges of puts.
fn ranges_of(alloc: Global, puts: &[Put]) -> Result<Vec<SectorRange>, NoMemory>
    ensures { IfOk result (λ ranges. ranges.items ≡ map range_of puts.now) }
{
    let mut ranges = Vec::with_capacity(alloc, puts.len())?;
    for put in puts {
        ranges.push(range_of(*put))?;
    }
    Ok(ranges)
}

fn range_of(put: Put) -> SectorRange
    ensures { result ≡ range_of put }
{
    SectorRange {
        first: put.first,
        count: put.count,
    }
}
