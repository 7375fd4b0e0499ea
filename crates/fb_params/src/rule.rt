// The rules that each key has to obey.
ghost use Rattle.std.specs.Prelude.{◌≡◌, option_map, map};
ghost use Rattle.std.specs.List.{list_all};
ghost use Rattle.toml.specs.View.{view};
ghost use Rattle.fb_params.specs.Keys.{key_of};
ghost use Rattle.fb_params.specs.Rules.{is_integer, is_table, is_row, is_of, is_within, is_row_within, are_all_within, breaks};

use crate::key::{Key, Kind, Range};
use crate::table::elements;
use toml::Value;

// The rules that each key has to obey, in the order in which they are checked.
#[derive(Clone, Copy)]
pub enum Rule {
    // There are no unknown keys.
    Known,
    // Each required key is there.
    Present,
    // Each value is of the kind that its key requires.
    OfKind,
    // Each number is in its key's range.
    InRange,
}

// Whether a key with this value, or without one, breaks a rule.
pub fn breaks(rule: Rule, key: &Key, value: Option<&Value>) -> bool
    ensures { result ≡ breaks rule (key_of key.now) (option_map (λ v. view v.now) value.entry) }
{
    match (rule, value) {
        (Rule::Present, None) => key.required,
        (Rule::OfKind, Some(value)) => !is_of(key.kind, value),
        (Rule::InRange, Some(value)) => !are_all_within(key.range, value),
        _ => false,
    }
}

// Whether a value is of a kind.
fn is_of(kind: Kind, value: &Value) -> bool
    ensures { result ≡ is_of kind (view value.now) }
{
    match kind {
        Kind::Number => value.is_integer(),
        Kind::Numbers => value.is_array() && are_integers(elements(value)),
        Kind::Rows(width) => value.is_array() && are_rows(width, elements(value)),
        Kind::Tables => value.is_array() && are_tables(elements(value)),
    }
}

fn are_integers(values: &[Value]) -> bool
    ensures { result ≡ list_all is_integer (map view values.now) }
{
    values.iter().all(|value| value.is_integer())
}

fn are_tables(values: &[Value]) -> bool
    ensures { result ≡ list_all is_table (map view values.now) }
{
    values.iter().all(|value| value.is_table())
}

fn are_rows(width: usize, values: &[Value]) -> bool
    ensures { result ≡ list_all (is_row width) (map view values.now) }
{
    values.iter().all(|value| is_row(width, value))
}

// Whether a value is an array of exactly `width` integers.
fn is_row(width: usize, value: &Value) -> bool
    ensures { result ≡ is_row width (view value.now) }
{
    let row = elements(value);
    value.is_array() && are_integers(row) && row.len() == width
}

// Whether a value is a number in the range, or not a number at all.
fn is_within(range: Range, value: &Value) -> bool
    ensures { result ≡ is_within range (view value.now) }
{
    match value.as_integer() {
        Some(z) => match u64::try_from(z) {
            Ok(n) => range.low <= n && n <= range.high && n.is_multiple_of(range.multiple),
            Err(_) => false,
        },
        None => true,
    }
}

fn are_within(range: Range, values: &[Value]) -> bool
    ensures { result ≡ list_all (is_within range) (map view values.now) }
{
    values.iter().all(|value| is_within(range, value))
}

fn is_row_within(range: Range, value: &Value) -> bool
    ensures { result ≡ is_row_within range (view value.now) }
{
    is_within(range, value) && are_within(range, elements(value))
}

fn are_rows_within(range: Range, values: &[Value]) -> bool
    ensures { result ≡ list_all (is_row_within range) (map view values.now) }
{
    values.iter().all(|value| is_row_within(range, value))
}

// Whether each number in a value is in the range.
fn are_all_within(range: Range, value: &Value) -> bool
    ensures { result ≡ are_all_within range (view value.now) }
{
    is_within(range, value) && are_rows_within(range, elements(value))
}
