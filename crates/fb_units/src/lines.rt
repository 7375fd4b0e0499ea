// A text is split into lines, and a line into fields.
ghost use Rattle.std.specs.Prelude.{◌≡◌, ◌<◌, ◌≤◌, [], ◌∷◌, ◌==◌, length, drop, IfSome, MatchOption, slice_index};
ghost use Rattle.std.specs.List.{before_first, after_first, position_or_len, prefix_len};
ghost use Rattle.std.specs.Str.Lines.{strip_carriage_return};
ghost use Rattle.fb_units.specs.Lines.{is_blank, lines_of, fields_of};

/// The first line of a text, without its line feed and without one carriage return at its end, and
/// the text behind that line. None if the text is empty.
pub fn next_line(text: &[u8]) -> Option<(&[u8], &[u8])>
    ensures line { MatchOption result (lines_of text.now ≡ []) (λ found. lines_of text.now ≡ found.0.now ∷ lines_of found.1.now) }
    ensures shorter { IfSome result (λ found. length found.1.now < length text.now) }
{
    if text.is_empty() {
        return None;
    }
    let (line, rest) = around_first(text, b'\n');
    Some((without_return(line), rest))
}

/// The first field of a line, which ends before the next space or tab, and the rest of the line.
/// None if the line has no field left.
pub fn next_field(line: &[u8]) -> Option<(&[u8], &[u8])>
    ensures field { MatchOption result (fields_of line.now ≡ []) (λ found. fields_of line.now ≡ found.0.now ∷ fields_of found.1.now) }
{
    let text = behind_blanks(line);
    if text.is_empty() {
        return None;
    }
    Some(text.split_at(first_blank(text)))
}

// The text before the first `stop` byte, and the text after it; the whole text and an empty one if
// there is none.
pub fn around_first(text: &[u8], stop: u8) -> (&[u8], &[u8])
    ensures front { result.0.now ≡ before_first (λ c. c == stop) text.now }
    ensures back { result.1.now ≡ after_first (λ c. c == stop) text.now }
{
    let index = index_of(text, stop);
    if index < text.len() {
        (&text[..index], &text[index + 1..])
    } else {
        (text, &text[index..])
    }
}

/// The index of the first `stop` byte, or the length of the text if there is none.
pub fn index_of(text: &[u8], stop: u8) -> usize
    ensures index { result ≡ position_or_len (λ c. c == stop) text.now }
    ensures within { result ≤ length text.now }
{
    for (index, byte) in text.iter().enumerate() {
        if *byte == stop {
            return index;
        }
    }
    text.len()
}

// A line without the carriage return at its end, where it has one.
fn without_return(line: &[u8]) -> &[u8]
    ensures { result.now ≡ strip_carriage_return line.now }
{
    match line {
        [front @ .., b'\r'] => front,
        _ => line,
    }
}

fn is_blank(byte: u8) -> bool
    ensures { result ≡ is_blank byte }
{
    byte == b' ' || byte == b'\t'
}

// A line without the spaces and tabs at its front.
fn behind_blanks(line: &[u8]) -> &[u8]
    ensures { result.now ≡ drop (prefix_len is_blank line.now) line.now }
{
    for (index, byte) in line.iter().enumerate() {
        if !is_blank(*byte) {
            return &line[index..];
        }
    }
    &line[line.len()..]
}

// The index of the first space or tab, or the length of the text if there is none.
fn first_blank(text: &[u8]) -> usize
    ensures index { result ≡ position_or_len is_blank text.now }
    ensures within { result ≤ length text.now }
{
    for (index, byte) in text.iter().enumerate() {
        if is_blank(*byte) {
            return index;
        }
    }
    text.len()
}
