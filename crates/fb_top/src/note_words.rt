// Values in a note.
ghost use Rattle.std.specs.Prelude.{◌≡◌, ◌++◌, decimal, OnOk};
ghost use Rattle.fb_report.specs.Lines.{track_text};
ghost use Rattle.fb_top.specs.Notes.{numbered, place_text, valued};

use fb_texts::{push_number, push_words};
use fb_units::{KeyText, NoMemory, Place, Track};

/// Adds which word or line is meant. The only error is out of memory.
pub fn push_numbered(text: &mut Vec<u8>, what: &str, number: u64) -> Result<(), NoMemory>
    ensures { OnOk result (text.new.items ≡ text.old.items ++ numbered what.now number) }
{
    push_words(text, what)?;
    push_number(text, number)?;
    push_words(text, ": ")
}

// Adds a track: cylinder and head.
fn push_track(text: &mut Vec<u8>, track: Track) -> Result<(), NoMemory>
    ensures { OnOk result (text.new.items ≡ text.old.items ++ track_text track) }
{
    push_number(text, u64::from(track.cylinder))?;
    text.push(b'.')?;
    push_number(text, u64::from(track.head))
}

// Adds a place: cylinder, head and slot.
fn push_place(text: &mut Vec<u8>, place: Place) -> Result<(), NoMemory>
    ensures { OnOk result (text.new.items ≡ text.old.items ++ place_text place) }
{
    push_track(text, place.track)?;
    text.push(b'.')?;
    push_number(text, u64::from(place.slot))
}

/// Adds a reason that carries a number. The only error is out of memory.
pub fn push_with_number(text: &mut Vec<u8>, name: &str, number: u64) -> Result<(), NoMemory>
    ensures { OnOk result (text.new.items ≡ text.old.items ++ valued name.now (decimal number)) }
{
    push_words(text, name)?;
    text.push(b' ')?;
    push_number(text, number)
}

/// Adds a reason that carries a key. The only error is out of memory.
pub fn push_with_key(text: &mut Vec<u8>, name: &str, key: &KeyText) -> Result<(), NoMemory>
    ensures { OnOk result (text.new.items ≡ text.old.items ++ valued name.now key.now) }
{
    push_words(text, name)?;
    text.push(b' ')?;
    text.extend_from_slice(key.as_slice())?;
    Ok(())
}

/// Adds a reason that carries a track. The only error is out of memory.
pub fn push_with_track(text: &mut Vec<u8>, name: &str, track: Track) -> Result<(), NoMemory>
    ensures { OnOk result (text.new.items ≡ text.old.items ++ valued name.now (track_text track)) }
{
    push_words(text, name)?;
    text.push(b' ')?;
    push_track(text, track)
}

/// Adds a reason that carries a place. The only error is out of memory.
pub fn push_with_place(text: &mut Vec<u8>, name: &str, place: Place) -> Result<(), NoMemory>
    ensures { OnOk result (text.new.items ≡ text.old.items ++ valued name.now (place_text place)) }
{
    push_words(text, name)?;
    text.push(b' ')?;
    push_place(text, place)
}
