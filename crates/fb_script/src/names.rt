// The names of tasks.
ghost use Rattle.std.specs.Prelude.{◌≡◌};
ghost use Rattle.std.specs.List.{list_all};
ghost use Rattle.fb_script.specs.Names.{is_name_byte, is_name};

use fb_units::{Items, KeyText};

/// The names of the tasks, in order of opening.
pub type Names = Items<KeyText>;

/// Whether a text can be the name of a task: 1 to 32 letters, digits, underscores and hyphens.
pub fn is_name(text: &[u8]) -> bool
    ensures { result ≡ is_name text.now }
{
    text.len() >= 1 && text.len() <= 32 && are_name_bytes(text)
}

fn are_name_bytes(text: &[u8]) -> bool
    ensures { result ≡ list_all is_name_byte text.now }
{
    text.iter().all(|byte| is_name_byte(*byte))
}

fn is_name_byte(byte: u8) -> bool
    ensures { result ≡ is_name_byte byte }
{
    byte.is_ascii_alphanumeric() || byte == b'_' || byte == b'-'
}
