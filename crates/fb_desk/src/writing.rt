// An output in memory.
ghost use Rattle.std.specs.Prelude.{◌≡◌, ◌-◌, ◌<◌, ◌≤◌, [], ◌++◌, length, take, min, nat_le, true, false, IfOk};
ghost use Rattle.fb_desk.specs.Writing.{Written};

use fb_units::NoMemory;
use std::alloc::Global;
use std::marker::Model;

/// An output in memory, with room for its name and for its bytes.
///
/// The room is allocated when it is made, so beginning it and writing to it don't allocate.
#[derive(Drop)]
pub struct Writing {
    begun: bool,
    name: String,
    bytes: Vec<u8>,
    room: usize,
}

impl Model for Writing {
    ghost use Rattle.std.specs.Prelude.{◌≤◌};
    ghost use Rattle.std.specs.String.{string_bytes, string_capacity};
    ghost use Rattle.std.specs.Vec.{vec_capacity};
    ghost use Rattle.fb_desk.specs.Writing.{Written, IsEmptyBefore};

    ghost Value = { Written };

    ghost view = { λ w. record {
      begun = w.begun;
      name = string_bytes w.name;
      bytes = w.bytes.items;
      room = w.room;
    } };

    ghost invariant = { λ w. (w.room ≤ string_capacity w.name) × (w.room ≤ vec_capacity w.bytes)
        × IsEmptyBefore w.begun (string_bytes w.name) w.bytes.items };
}

impl Writing {
    /// An output that isn't begun, with room for so many bytes of its name and as many to be
    /// written. The only error is `NoMemory`.
    pub fn new(alloc: Global, room: usize) -> Result<Writing, NoMemory>
        ensures { IfOk result (λ made. made ≡ record { begun = false; name = []; bytes = []; room = room }) }
    {
        Ok(Writing {
            begun: false,
            name: String::with_capacity(alloc, room)?,
            bytes: Vec::with_capacity(alloc, room)?,
            room,
        })
    }

    /// Whether there is room for the name.
    pub fn has_room_for_name(&self, name: &str) -> bool
        ensures { result ≡ nat_le (length name.now) self.now.room }
    {
        name.len() <= self.room
    }

    /// Begins the output under a name.
    pub fn begin(&mut self, name: &str)
        requires unbegun { self.old.begun ≡ false }
        requires room { length name.now ≤ self.old.room }
        ensures { self.new ≡ record { begun = true; name = name.now; bytes = []; room = self.old.room } }
    {
        if self.name.push_str(name).is_err() {
            unreachable!();
        }
        self.begun = true;
    }

    /// Whether there is no room left for bytes.
    pub fn is_full(&self) -> bool
        ensures { result ≡ nat_le self.now.room (length self.now.bytes) }
    {
        self.room <= self.bytes.len()
    }

    /// Appends the first of these bytes, at most `piece` of them and no more than there is room
    /// for, and returns how many.
    pub fn write(&mut self, piece: usize, bytes: &[u8]) -> usize
        requires begun { self.old.begun ≡ true }
        requires room { length self.old.bytes < self.old.room }
        ensures count { result ≡ min piece (min (self.old.room - length self.old.bytes) (length bytes.now)) }
        ensures written { self.new ≡ record self.old { bytes = self.old.bytes ++ take result bytes.now } }
    {
        let count = piece.min(self.room - self.bytes.len()).min(bytes.len());
        if self.bytes.extend_from_slice(&bytes[..count]).is_err() {
            unreachable!();
        }
        count
    }

    /// The name under which the output was begun; empty if it wasn't.
    pub fn name(&self) -> &str
        ensures value { result.now ≡ self.now.name }
        ensures unbegun { self.now.begun ≡ false → result.now ≡ [] }
    {
        self.name.as_str()
    }

    /// The bytes that were written to the output.
    pub fn bytes(&self) -> &[u8]
        ensures value { result.now ≡ self.now.bytes }
        ensures unbegun { self.now.begun ≡ false → result.now ≡ [] }
    {
        self.bytes.as_slice()
    }
}
