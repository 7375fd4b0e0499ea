// Words and numbers in a line.
ghost use Rattle.std.specs.Prelude.{◌≡◌, ◌++◌, decimal, OnOk};

use fb_units::NoMemory;
use itoa::Buffer;

/// Adds words as they are. The only error is out of memory.
pub fn push_words(text: &mut Vec<u8>, words: &str) -> Result<(), NoMemory>
    ensures { OnOk result (text.new.items ≡ text.old.items ++ words.now) }
{
    text.extend_from_slice(words.as_bytes())?;
    Ok(())
}

/// Adds a number in decimal digits. The only error is out of memory.
pub fn push_number(text: &mut Vec<u8>, number: u64) -> Result<(), NoMemory>
    ensures { OnOk result (text.new.items ≡ text.old.items ++ decimal number) }
{
    let mut buffer = Buffer::new();
    text.extend_from_slice(buffer.format(number).as_bytes())?;
    Ok(())
}
