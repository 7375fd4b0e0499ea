// What the fields of a printed line must be.
ghost use Rattle.std.specs.Prelude.{◌≡◌, ◌+◌, ◌-◌, ◌*◌, ◌<◌, ◌≤◌, ◌==◌, ◌^◌, ◌&&◌, [], ◌∷◌, length, nat_lt, true, IfSome, IfNone, MatchOption};
ghost use Rattle.std.specs.Char.{is_ascii_digit};
ghost use Rattle.std.specs.List.{after_first, before_first, list_all, list_any, position_or_len, slice_split};
ghost use Rattle.std.specs.Str.{bytes_eq};
ghost use Rattle.fb_units.specs.Numbers.{digits_after};
ghost use Rattle.fb_report.specs.Forms.{fits};
ghost use Rattle.fb_report.specs.Grammar.{are_bytes, is_lower_hex, is_number, is_one_of, is_request, is_track};

use fb_script::is_name;
use fb_units::index_of;

// So many digits always give a number below 2^64.
const FREE_DIGITS: usize = 19;

/// What a field must be.
#[derive(Clone, Copy)]
pub enum Form {
    /// This word.
    Word(&'static [u8]),
    /// One of these words.
    OneOf(&'static [&'static [u8]]),
    /// A decimal number below 2^64, without a leading zero.
    Number,
    /// A cylinder and a head, joined by a point.
    Track,
    /// The name of a request.
    Request,
    /// The name of a task.
    Task,
    /// Bytes or a digest in hexadecimal digits, or a dash.
    Bytes,
}

impl Form {
    /// Whether a field is what this form asks for.
    pub fn fits(self, field: &[u8]) -> bool
        ensures { result ≡ fits self field.now }
    {
        match self {
            Form::Word(word) => field == word,
            Form::OneOf(words) => is_one_of(words, field),
            Form::Number => is_number(field),
            Form::Track => is_track(field),
            Form::Request => is_request(field),
            Form::Task => is_name(field),
            Form::Bytes => are_bytes(field),
        }
    }
}

// Whether a field is one of these words.
fn is_one_of(words: &[&[u8]], field: &[u8]) -> bool
    ensures { result ≡ list_any (λ word. bytes_eq field.now word.now) words.now }
{
    words.iter().any(|word| field == *word)
}

// Whether a text is a decimal number below 2^64, without a leading zero.
fn is_number(text: &[u8]) -> bool
    ensures { result ≡ is_number text.now }
{
    if text.is_empty() || (text[0] == b'0' && text.len() > 1) {
        return false;
    }
    stays_small(text)
}

fn are_all_digits(text: &[u8]) -> bool
    ensures { result ≡ list_all is_ascii_digit text.now }
{
    text.iter().all(|byte| byte.is_ascii_digit())
}

// Whether a text is digits alone, which give a number below 2^64.
#[tactic(auto, using(crate::proofs::Numbers::few_stay_below, crate::proofs::Numbers::stays_below_end))]
fn stays_small(text: &[u8]) -> bool
    ensures { result ≡ (list_all is_ascii_digit text.now && nat_lt (digits_after 0 text.now) (2 ^ 64)) }
{
    if text.len() <= FREE_DIGITS {
        return are_all_digits(text);
    }
    let mut value = 0;
    for byte in text {
        match with_digit(value, *byte) {
            Some(longer) => value = longer,
            None => return false,
        }
    }
    true
}

// The number with one more digit behind it, if that is a digit and the number stays below 2^64.
fn with_digit(value: u64, byte: u8) -> Option<u64>
    ensures some { IfSome result (λ longer. (is_ascii_digit byte ≡ true) × (longer ≡ 10 * value + (byte - 48))) }
    ensures none { IfNone result (is_ascii_digit byte ≡ true → 2 ^ 64 ≤ 10 * value + (byte - 48)) }
{
    if !byte.is_ascii_digit() {
        return None;
    }
    value.checked_mul(10)?.checked_add(byte as u64 - 48)
}

fn is_track(text: &[u8]) -> bool
    ensures { result ≡ is_track text.now }
{
    match split_once(text, b'.') {
        Some((cylinder, head)) => is_number(cylinder) && is_number(head),
        None => false,
    }
}

fn is_request(text: &[u8]) -> bool
    ensures { result ≡ is_request text.now }
{
    match text {
        [b'P', number @ ..] => is_number(number),
        _ => is_number(text),
    }
}

fn are_bytes(text: &[u8]) -> bool
    ensures { result ≡ are_bytes text.now }
{
    text == b"-".as_slice() || (!text.is_empty() && are_lower_hex(text))
}

fn are_lower_hex(text: &[u8]) -> bool
    ensures { result ≡ list_all is_lower_hex text.now }
{
    text.iter().all(|byte| is_lower_hex(*byte))
}

fn is_lower_hex(byte: u8) -> bool
    ensures { result ≡ is_lower_hex byte }
{
    byte.is_ascii_digit() || (byte >= b'a' && byte <= b'f')
}

/// The text before the first `stop` byte and the text behind it; none if there is no such byte.
#[tactic(auto, using(crate::proofs::Cuts::cut_at, crate::proofs::Cuts::cut_nowhere))]
pub fn split_once(text: &[u8], stop: u8) -> Option<(&[u8], &[u8])>
    ensures some { IfSome result (λ parts. (position_or_len (λ byte. byte == stop) text.now < length text.now)
        × (parts.0.now ≡ before_first (λ byte. byte == stop) text.now) × (parts.1.now ≡ after_first (λ byte. byte == stop) text.now)) }
    ensures none { IfNone result (position_or_len (λ byte. byte == stop) text.now ≡ length text.now) }
    ensures shorter { IfSome result (λ parts. length parts.1.now < length text.now) }
    ensures split { MatchOption result (slice_split (λ byte. byte == stop) text.now ≡ text.now ∷ [])
        (λ parts. slice_split (λ byte. byte == stop) text.now ≡ parts.0.now ∷ slice_split (λ byte. byte == stop) parts.1.now) }
{
    let index = index_of(text, stop);
    if index < text.len() {
        Some((&text[..index], &text[index + 1..]))
    } else {
        None
    }
}
