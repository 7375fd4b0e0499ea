// A trace that is generated from a seed.
ghost use Rattle.std.specs.Prelude.{◌≡◌, ℕ, ◌+◌, ◌*◌, ◌<◌, ◌≤◌, ◌^◌, IfOk, OnOk, OnErr, Ok};
ghost use Rattle.fb_maker.specs.Words.{generator_after};
ghost use Rattle.fb_maker.specs.Trace.{arrival_before, request_at, made_requests, made_trace};
ghost use Rattle.fb_trace.specs.Reading.{trace_of};
ghost use Rattle.fb_maker.specs.Making.{begun, line_made};

use crate::line::line_of;
use fb_units::{Name, NoMemory, Ns, Request};
use rand_core::SeedableRng;
use rand_core::utils::NextWord;
use rand_xoshiro::SplitMix64;
use std::alloc::Global;
use std::marker::Model;

const LONGEST_PAUSE: u64 = 12_000_000;

/// Generates a trace, one line at a time, from the words of SplitMix64 (Steele, Lea and Flood,
/// "Fast splittable pseudorandom number generators", 2014). A request comes at most 12 ms after the
/// one before it, has 8 to 128 sectors, and is a write one time in three.
#[derive(Drop)]
pub struct Maker {
    number: u64,
    device: u64,
    sectors: u64,
    made: u64,
    // The next request, whose words have already been drawn.
    next: Request,
    words: SplitMix64,
}

impl Model for Maker {
    ghost use Rattle.fb_maker.specs.Making.{Making};
    ghost use Rattle.fb_maker.specs.Standing.{IsMaking};

    ghost Value = { Making };

    ghost view = { λ m. record { number = m.number; device = m.device; sectors = m.sectors; made = m.made } };

    ghost invariant = { λ m. IsMaking m.number m.device m.sectors m.made m.next m.words };
}

impl Maker {
    /// A trace without lines so far: `number` is its seed, `device` that of its lines (at most
    /// 10^15), and `sectors` the number of sectors of the disk (1 to 10^12).
    pub fn new(number: u64, device: u64, sectors: u64) -> Maker
        requires device { device ≤ 10 ^ 15 }
        requires some { 1 ≤ sectors }
        requires few { sectors ≤ 10 ^ 12 }
        ensures { result ≡ begun number device sectors }
    {
        let mut words = SplitMix64::seed_from_u64(number);
        let next = draw(&mut words, sectors, 0, 0);
        Maker {
            number,
            device,
            sectors,
            made: 0,
            next,
            words,
        }
    }

    /// The next line, with its line feed; a trace has at most a million lines. Out of memory, it
    /// returns `NoMemory`, and the same line is still the next one.
    pub fn next_line(&mut self, alloc: Global) -> Result<Vec<u8>, NoMemory>
        requires { self.old.made < 10 ^ 6 }
        ensures line { IfOk result (λ line. line.items ≡ line_made self.old) }
        ensures ok { OnOk result (self.new ≡ record self.old { made = self.old.made + 1 }) }
        ensures err { OnErr result (self.new ≡ self.old) }
    {
        let line = line_of(alloc, self.device, &self.next)?;
        self.made += 1;
        self.next = draw(&mut self.words, self.sectors, self.made, self.next.arrival);
        Ok(line)
    }
}

/// A generated trace can be read: a trace of n lines is accepted for its device, as its n requests.
pub fn made_traces_are_read()
    ensures { (number device sectors n : ℕ) → device ≤ 10 ^ 15 → 1 ≤ sectors → sectors ≤ 10 ^ 12 → n ≤ 10 ^ 6
        → trace_of device sectors (made_trace number device sectors n)
        ≡ Ok (record { requests = made_requests number sectors n; passed_over = 0 }) }
{}

// The request that follows `behind` others, made from the next four words.
fn draw(words: &mut SplitMix64, sectors: u64, behind: u64, before: Ns) -> Request
    requires some { 1 ≤ sectors }
    requires few { sectors ≤ 10 ^ 12 }
    requires early { before ≤ 12000000 * behind }
    requires room { behind ≤ 10 ^ 6 }
    ensures request { (number : ℕ) → words.old ≡ generator_after number (4 * behind) → before ≡ arrival_before number behind
        → result ≡ request_at number sectors behind }
    ensures words { (number : ℕ) → words.old ≡ generator_after number (4 * behind) → words.new ≡ generator_after number (4 * (behind + 1)) }
    ensures early { result.arrival ≤ 12000000 * (behind + 1) }
{
    let arrival = before + words.next_word() % (LONGEST_PAUSE + 1);
    let count = (8 * (1 + words.next_word() % 16)).min(sectors);
    let lbn = words.next_word() % (sectors - count + 1);
    let write = words.next_word() % 3 == 0;
    Request {
        name: Name::Traced(behind + 1),
        arrival,
        lbn,
        count: count as u32,
        write,
    }
}
