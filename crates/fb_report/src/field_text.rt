// The text of one field.
ghost use Rattle.std.specs.Prelude.{◌≡◌, ◌<◌, ◌^◌, [], ◌∷◌, ◌++◌, Some, length, IfOk, OnOk, OnErr, slice_get};

use fb_units::NoMemory;
use smallvec::SmallVec;
use std::alloc::Global;
use std::marker::Model;

/// The bytes of a field. Up to 16 of them take no memory of their own.
#[derive(Drop)]
pub struct FieldText {
    bytes: SmallVec<u8, 16>,
}

impl Model for FieldText {
    ghost use Rattle.std.specs.Prelude.{List, ℕ};

    ghost Value = { List ℕ };

    ghost view = { λ t. t.bytes.items };
}

impl FieldText {
    /// No bytes.
    pub fn new(alloc: Global) -> Self
        ensures { result ≡ [] }
    {
        FieldText {
            bytes: SmallVec::new(alloc),
        }
    }

    /// A copy of these bytes. The only error is `NoMemory`.
    pub fn from_slice(alloc: Global, bytes: &[u8]) -> Result<Self, NoMemory>
        ensures { IfOk result (λ text. text ≡ bytes.now) }
    {
        Ok(FieldText {
            bytes: SmallVec::from_slice(alloc, bytes)?,
        })
    }

    /// Adds a byte at the end. Out of memory, it returns `NoMemory` and nothing has changed.
    pub fn push(&mut self, item: u8) -> Result<(), NoMemory>
        ensures ok { OnOk result (self.new ≡ self.old ++ item ∷ []) }
        ensures err { OnErr result (self.new ≡ self.old) }
    {
        self.bytes.push(item)?;
        Ok(())
    }

    /// The number of bytes.
    pub fn len(&self) -> usize
        ensures value { result ≡ length self.now }
        ensures few { result < 2 ^ 63 }
    {
        self.as_slice().len()
    }

    /// The byte at this index, counted from 0.
    pub fn get(&self, i: usize) -> &u8
        requires { i < length self.now }
        ensures { slice_get self.now i ≡ Some result.now }
    {
        &self.as_slice()[i]
    }

    /// All bytes.
    pub fn as_slice(&self) -> &[u8]
        ensures { result.now ≡ self.now }
    {
        self.bytes.as_slice()
    }
}
