// The values of a table's keys.
ghost use Rattle.std.specs.Prelude.{◌≡◌, ◌<◌, ◌^◌, map, option_map};
ghost use Rattle.toml.specs.Data.{get_member};
ghost use Rattle.toml.specs.View.{view, table_view};
ghost use Rattle.fb_params.specs.Tables.{elements, elements_at, number_of, number_at, layout_of};
ghost use Rattle.fb_params.specs.ParamsValue.{nth};

use fb_geometry::Layout;
use toml::{Table, Value};

// The value of a key. None if the table doesn't have the key.
#[tactic(auto, using(toml::proofs::Views::table_get))]
pub fn member<'a>(table: &'a Table, name: &str) -> Option<&'a Value>
    ensures { option_map (λ v. view v.now) result ≡ get_member name.now (table_view table.now) }
{
    table.get(name)
}

// The elements of an array; no elements for any other value.
#[tactic(auto, using(crate::proofs::Views::listed_items_of, crate::proofs::Views::elements_array))]
pub fn elements(value: &Value) -> &[Value]
    ensures { map view result.now ≡ elements (view value.now) }
{
    match value.as_array() {
        Some(items) => items.as_slice(),
        None => &[],
    }
}

// The elements of the array at a key; no elements if there is no array.
pub fn elements_at<'a>(table: &'a Table, name: &str) -> &'a [Value]
    ensures { map view result.now ≡ elements_at name.now (table_view table.now) }
{
    match member(table, name) {
        Some(value) => elements(value),
        None => &[],
    }
}

// The number that a value is, or 0 if it isn't one.
pub fn number(value: &Value) -> u64
    ensures { result ≡ number_of (view value.now) }
{
    match value.as_integer() {
        Some(z) => u64::try_from(z).unwrap_or(0),
        None => 0,
    }
}

// The number at a key, or 0 if there is none.
pub fn number_at(table: &Table, name: &str) -> u64
    ensures { result ≡ number_at name.now (table_view table.now) }
{
    match member(table, name) {
        Some(value) => number(value),
        None => 0,
    }
}

// The number at a key, or 0 if there is none, for a number of 32 bits.
pub fn small_number_at(table: &Table, name: &str) -> u32
    requires { number_at name.now (table_view table.now) < 2 ^ 32 }
    ensures { result ≡ number_at name.now (table_view table.now) }
{
    number_at(table, name) as u32
}

// The i-th number of a row, from 0, or 0 if there is none, for a number of 32 bits.
#[tactic(auto, using(crate::proofs::Views::nth_at))]
pub fn nth(row: &Value, i: usize) -> u32
    requires { nth i (view row.now) < 2 ^ 32 }
    ensures { result ≡ nth i (view row.now) }
{
    let values = elements(row);
    if i < values.len() {
        number(&values[i]) as u32
    } else {
        0
    }
}

// Where the spares are: at the end of each cylinder in a file of version 2, else of each track.
pub fn layout_of(table: &Table) -> Layout
    ensures { result ≡ layout_of (table_view table.now) }
{
    if number_at(table, "version") == 2 {
        Layout::PerCylinder
    } else {
        Layout::PerTrack
    }
}
