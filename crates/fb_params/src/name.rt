// How faults name a key.
ghost use Rattle.std.specs.Prelude.{◌≡◌, ◌++◌, IfOk, OnOk};
ghost use Rattle.fb_params.specs.Names.{spelled};

use fb_units::{KeyText, NoMemory};
use std::alloc::Global;

// A key as faults name it.
#[derive(Clone, Copy)]
pub enum KeyName<'a> {
    // A key of the file.
    Plain(&'a str),
    // A key of one of its zones.
    InZone(&'a str),
}

// The text of a name.
pub fn key_text(alloc: Global, name: KeyName<'_>) -> Result<KeyText, NoMemory>
    ensures { IfOk result (λ text. text ≡ spelled name.entry) }
{
    let (front, key) = match name {
        KeyName::Plain(key) => ("", key),
        KeyName::InZone(key) => ("zone.", key),
    };
    let mut text = KeyText::new(alloc);
    append(&mut text, front.as_bytes())?;
    append(&mut text, key.as_bytes())?;
    Ok(text)
}

fn append(text: &mut KeyText, bytes: &[u8]) -> Result<(), NoMemory>
    ensures { OnOk result (text.new ≡ text.old ++ bytes.now) }
{
    for byte in bytes {
        text.push(*byte)?;
    }
    Ok(())
}
