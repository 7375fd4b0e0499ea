// Bytes held under names, and inputs that are read from them.
ghost use Rattle.std.specs.Prelude.{◌≡◌, ◌≢◌, ℕ, List, [], length, take, drop, min, ◌<◌, is_some, slice_get, option_and_then, Some, None};
ghost use Rattle.std.specs.Prelude.{IfSome, IfOk, OnOk, OnErr};
ghost use Rattle.std.specs.Option.{option_map};
ghost use Rattle.fb_desk.specs.Holdings.{NamedBytes, held_under, bytes_at, left_of, left_in, IsWithin};
ghost use Rattle.fb_desk.specs.declared.desk.Input.{Input};

use crate::Input;
use crate::each::EachInput;
use fb_units::NoMemory;
use std::alloc::Global;
use std::marker::Model;

/// Bytes and the name that they are held under.
#[derive(Drop)]
struct Entry {
    name: String,
    bytes: Vec<u8>,
}

impl Model for Entry {
    ghost use Rattle.std.specs.String.{string_bytes};
    ghost use Rattle.fb_desk.specs.Holdings.{NamedBytes};

    ghost Value = { NamedBytes };

    ghost view = { λ e. record { name = string_bytes e.name; bytes = e.bytes.items } };
}

impl Entry {
    // Bytes under a name.
    fn new(alloc: Global, name: &str, bytes: &[u8]) -> Result<Entry, NoMemory>
        ensures { IfOk result (λ entry. entry ≡ record { name = name.now; bytes = bytes.now }) }
    {
        Ok(Entry {
            name: String::from_str(alloc, name)?,
            bytes: Vec::from_slice(alloc, bytes)?,
        })
    }
}

/// How far an input was read.
#[derive(Clone, Copy)]
pub enum Reading {
    /// It isn't opened.
    Unopened,
    /// It was opened with nothing left to read.
    Empty,
    /// It was opened on the entry with this index, and `done` of its bytes were read.
    At { index: usize, done: usize },
}

/// Bytes held under names, and how far each input was read.
///
/// An older entry of a name stays beside a newer one, since an input that was opened on it may
/// still be read.
#[derive(Drop)]
pub struct Holdings {
    alloc: Global,
    entries: Vec<Entry>,
    readings: EachInput<Reading>,
}

impl Model for Holdings {
    ghost use Rattle.fb_desk.specs.Holdings.{Held, AreWithin};

    ghost Value = { Held };

    ghost view = { λ h. record { entries = h.entries.items; readings = h.readings } };

    ghost invariant = { λ h. AreWithin h.entries.items h.readings };
}

// The index of the last entry with a name.
fn index_of(entries: &[Entry], name: &str) -> Option<usize>
    ensures value { option_and_then (bytes_at entries.now) result ≡ held_under entries.now name.now }
    ensures within { IfSome result (λ index. index < length entries.now) }
{
    let mut found = None;
    for (index, entry) in entries.iter().enumerate() {
        if entry.name.as_str() == name {
            found = Some(index);
        }
    }
    found
}

// Copies the first bytes, at most `piece` of them, and returns how many.
fn copy_front(from: &[u8], piece: usize, into: &mut [u8]) -> usize
    ensures count { result ≡ min piece (min (length from.now) (length into.old)) }
    ensures bytes { take result into.new ≡ take result from.now }
    ensures rest { drop result into.new ≡ drop result into.old }
{
    let count = piece.min(from.len()).min(into.len());
    into[..count].copy_from_slice(&from[..count]);
    count
}

// Reads the next bytes that a reading has left, at most `piece` of them, and returns how many.
fn read_on(entries: &[Entry], reading: &mut Reading, piece: usize, into: &mut [u8]) -> usize
    requires { IsWithin entries.now reading.old }
    ensures count { IfSome (left_of entries.now reading.old)
        (λ left. result ≡ min piece (min (length left) (length into.old))) }
    ensures bytes { IfSome (left_of entries.now reading.old)
        (λ left. take result into.new ≡ take result left) }
    ensures rest { drop result into.new ≡ drop result into.old }
    ensures left { left_of entries.now reading.new
        ≡ option_map (drop result) (left_of entries.now reading.old) }
    ensures within { IsWithin entries.now reading.new }
{
    let Reading::At { index, done } = *reading else {
        return 0;
    };
    let entry = &entries[index];
    let count = copy_front(&entry.bytes[done..], piece, into);
    *reading = Reading::At {
        index,
        done: done + count,
    };
    count
}

impl Holdings {
    /// Nothing is held, and no input is opened.
    pub fn new(alloc: Global) -> Holdings
        ensures entries { result.entries ≡ [] }
        ensures unopened { (which : Input) → left_in result which ≡ None }
    {
        Holdings {
            alloc,
            entries: Vec::new(alloc),
            readings: EachInput::all(Reading::Unopened),
        }
    }

    /// Holds the bytes under the name, in place of what was held there. What is left of an opened
    /// input stays as it is. Out of memory, it returns `NoMemory` and nothing has changed.
    pub fn hold(&mut self, name: &str, bytes: &[u8]) -> Result<(), NoMemory>
        ensures here { OnOk result (held_under self.new.entries name.now ≡ Some bytes.now) }
        ensures elsewhere { OnOk result ((other : List ℕ) → other ≢ name.now
            → held_under self.new.entries other ≡ held_under self.old.entries other) }
        ensures err { OnErr result (self.new.entries ≡ self.old.entries) }
        ensures left { (which : Input) → left_in self.new which ≡ left_in self.old which }
    {
        let entry = Entry::new(self.alloc, name, bytes)?;
        self.entries.push(entry)?;
        Ok(())
    }

    /// The index of the entry that is held under the name, if one is.
    pub fn find(&self, name: &str) -> Option<usize>
        ensures value { option_and_then (bytes_at self.now.entries) result
            ≡ held_under self.now.entries name.now }
        ensures within { IfSome result (λ index. index < length self.now.entries) }
        ensures found { is_some result ≡ is_some (held_under self.now.entries name.now) }
    {
        index_of(&self.entries, name)
    }

    /// Opens an input on the entry with this index.
    pub fn open(&mut self, which: Input, index: usize)
        requires { index < length self.old.entries }
        ensures left { left_in self.new which ≡ bytes_at self.old.entries index }
        ensures entries { self.new.entries ≡ self.old.entries }
        ensures others { (other : Input) → other ≢ which → left_in self.new other ≡ left_in self.old other }
    {
        *self.readings.of_mut(which) = Reading::At { index, done: 0 };
    }

    /// Opens an input with nothing left.
    pub fn open_empty(&mut self, which: Input)
        ensures left { left_in self.new which ≡ Some [] }
        ensures entries { self.new.entries ≡ self.old.entries }
        ensures others { (other : Input) → other ≢ which → left_in self.new other ≡ left_in self.old other }
    {
        *self.readings.of_mut(which) = Reading::Empty;
    }

    /// Reads the next bytes of an input, at most `piece` of them, and returns how many.
    pub fn read(&mut self, which: Input, piece: usize, into: &mut [u8]) -> usize
        ensures count { IfSome (left_in self.old which)
            (λ left. result ≡ min piece (min (length left) (length into.old))) }
        ensures bytes { IfSome (left_in self.old which) (λ left. take result into.new ≡ take result left) }
        ensures left { left_in self.new which ≡ option_map (drop result) (left_in self.old which) }
        ensures entries { self.new.entries ≡ self.old.entries }
        ensures others { (other : Input) → other ≢ which → left_in self.new other ≡ left_in self.old other }
    {
        read_on(&self.entries, self.readings.of_mut(which), piece, into)
    }
}
