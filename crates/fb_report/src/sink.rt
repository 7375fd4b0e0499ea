// What the bytes of sectors are given to, piece by piece.
ghost use Rattle.std.specs.Prelude.{◌≡◌, ℕ, List, [], ◌∷◌, ◌++◌, OnOk};
ghost use Rattle.sha2.specs.Hashers.{Holds256};
ghost use Rattle.hex.specs.Hex.{encode_lower};

use fb_units::NoMemory;
use sha2::{Digest, Sha256};
use std::alloc::Global;

/// Takes bytes one piece after another.
pub trait Sink {
    /// The sink took these bytes so far.
    ghost took: { Self → List ℕ → Type 0 };

    fn take(&mut self, bytes: &[u8]) -> Result<(), NoMemory>
        ensures { OnOk result ((before : List ℕ) → took self.old before → took self.new (before ++ bytes.now)) };
}

/// Hexadecimal digits of the bytes.
#[derive(Drop)]
pub struct HexDump {
    text: Vec<u8>,
}

impl HexDump {
    pub fn new(alloc: Global) -> HexDump
        ensures { result.text.items ≡ [] }
    {
        HexDump {
            text: Vec::new(alloc),
        }
    }

    pub fn into_text(self) -> Vec<u8>
        ensures { result.items ≡ self.text.items }
    {
        let HexDump { text } = self;
        text
    }
}

impl Sink for HexDump {
    ghost took = { λ dump bytes. dump.text.items ≡ encode_lower bytes };

    fn take(&mut self, bytes: &[u8]) -> Result<(), NoMemory> {
        Ok(push_hex(&mut self.text, bytes)?)
    }
}

/// Adds two hexadecimal digits for each byte.
pub fn push_hex(text: &mut Vec<u8>, bytes: &[u8]) -> Result<(), NoMemory>
    ensures { OnOk result (text.new.items ≡ text.old.items ++ encode_lower bytes.now) }
{
    for byte in bytes {
        push_digits(text, *byte)?;
    }
    Ok(())
}

// Adds the two digits of a byte.
fn push_digits(text: &mut Vec<u8>, byte: u8) -> Result<(), NoMemory>
    ensures { OnOk result (text.new.items ≡ text.old.items ++ encode_lower (byte ∷ [])) }
{
    let mut digits = [0; 2];
    match hex::encode_to_slice([byte], &mut digits) {
        Ok(()) => text.extend_from_slice(&digits)?,
        Err(_) => unreachable!(),
    }
    Ok(())
}

impl Sink for Sha256 {
    ghost took = { λ hasher bytes. Holds256 hasher bytes };

    fn take(&mut self, bytes: &[u8]) -> Result<(), NoMemory> {
        self.update(bytes);
        Ok(())
    }
}
