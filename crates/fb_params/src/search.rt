// The first key of a file that breaks a rule.
ghost use Rattle.std.specs.Prelude.{◌≡◌, map, not, codes, ◌++◌, option_map, option_copied, option_and_then, string_bytes};
ghost use Rattle.std.specs.List.{find};
ghost use Rattle.std.specs.Option.{option_or};
ghost use Rattle.std.specs.List.Sorted.{IsStrictlySortedBy};
ghost use Rattle.std.specs.String.{string_cmp};
ghost use Rattle.std.specs.BTreeMap.{keys};
ghost use Rattle.toml.specs.Data.{get_member, as_table};
ghost use Rattle.toml.specs.View.{view, table_view};
ghost use Rattle.fb_params.specs.Keys.{key_of, front_keys, back_keys, zone_keys};
ghost use Rattle.fb_params.specs.Names.{spelled};
ghost use Rattle.fb_params.specs.Tables.{zones_of};
ghost use Rattle.fb_params.specs.Rules.{breaks, is_name_of, first_in, first_some, first_in_zones, first_key};

use crate::key::{Key, back_keys, front_keys, zone_keys};
use crate::name::KeyName;
use crate::rule::{Rule, breaks};
use crate::table::{elements_at, member};
use fb_geometry::Layout;
use toml::{Table, Value};

// The first key that breaks the rule. Unknown and missing keys of zones come after those of the
// file; wrong values of zones come at the place of `zone` among the file's keys.
pub fn first_key(rule: Rule, layout: Layout, table: &Table) -> Option<KeyName<'_>>
    ensures { option_map spelled result ≡ first_key rule layout (table_view table.now) }
{
    match rule {
        Rule::Known => {
            unknown_key(layout, table).or_else(|| first_in_zones(rule, layout, table))
        }
        Rule::Present => plain_key(rule, front_keys(), table)
            .or_else(|| plain_key(rule, back_keys(layout), table))
            .or_else(|| first_in_zones(rule, layout, table)),
        Rule::OfKind | Rule::InRange => plain_key(rule, front_keys(), table)
            .or_else(|| first_in_zones(rule, layout, table))
            .or_else(|| plain_key(rule, back_keys(layout), table)),
    }
}

// The first of these keys of the file that breaks the rule.
fn plain_key<'a>(rule: Rule, known: &'static [Key], table: &'a Table) -> Option<KeyName<'a>>
    ensures { option_map spelled result ≡ first_in rule (map key_of known.now) (table_view table.now) }
{
    let name = first_in(rule, known, table)?;
    Some(KeyName::Plain(name))
}

// The unknown key of the file that is first in the order of bytes.
fn unknown_key(layout: Layout, table: &Table) -> Option<KeyName<'_>>
    ensures { option_map spelled result ≡ first_in Rule.Known (front_keys ++ back_keys layout) (table_view table.now) }
{
    let name = unknown_in(front_keys(), back_keys(layout), table)?;
    Some(KeyName::Plain(name))
}

// The first key of a zone that breaks the rule, zone by zone.
fn first_in_zones(rule: Rule, layout: Layout, table: &Table) -> Option<KeyName<'_>>
    ensures { option_map spelled result ≡ first_in_zones rule layout (table_view table.now) }
{
    for value in elements_at(table, "zone") {
        if let Some(name) = first_in_zone(rule, layout, value) {
            return Some(KeyName::InZone(name));
        }
    }
    None
}

// The first key of the zone that breaks the rule, if the value is a table.
fn first_in_zone(rule: Rule, layout: Layout, value: &Value) -> Option<&str>
    ensures { option_copied result ≡ option_and_then (first_in rule (zone_keys layout)) (as_table (view value.now)) }
{
    let zone = value.as_table()?;
    first_in(rule, zone_keys(layout), zone)
}

// The first of these keys that breaks the rule in the table.
fn first_in<'a>(rule: Rule, known: &'static [Key], table: &'a Table) -> Option<&'a str>
    ensures { option_copied result ≡ first_in rule (map key_of known.now) (table_view table.now) }
{
    match rule {
        Rule::Known => unknown_in(known, &[], table),
        _ => broken_in(rule, known, table),
    }
}

// The name in the table that is first in the order of bytes among those that no key has.
fn unknown_in<'a>(front: &[Key], back: &[Key], table: &'a Table) -> Option<&'a str>
    ensures { option_copied result ≡ first_in Rule.Known (map key_of front.now ++ map key_of back.now) (table_view table.now) }
{
    let name = unknown_name(front, back, table)?;
    Some(name.as_str())
}

fn unknown_name<'a>(front: &[Key], back: &[Key], table: &'a Table) -> Option<&'a String>
    ensures first { option_copied result
        ≡ find (λ name. not (is_name_of (map key_of front.now ++ map key_of back.now) (string_bytes name))) (keys table.now) }
    ensures ordered { IsStrictlySortedBy string_cmp (keys table.now) }
{
    table
        .keys()
        .find(|name| !is_known(front, back, name.as_str()))
}

fn is_known(front: &[Key], back: &[Key], name: &str) -> bool
    ensures { result ≡ is_name_of (map key_of front.now ++ map key_of back.now) name.now }
{
    is_name_of(front, name) || is_name_of(back, name)
}

// Whether a key has this name.
fn is_name_of(known: &[Key], name: &str) -> bool
    ensures { result ≡ is_name_of (map key_of known.now) name.now }
{
    known.iter().any(|key| key.name == name)
}

// The first of these keys that breaks the rule with its value, or without one.
fn broken_in(rule: Rule, known: &'static [Key], table: &Table) -> Option<&'static str>
    ensures { option_copied result ≡ option_map (λ key. key.name.now)
        (find (λ key. breaks rule (key_of key) (get_member key.name.now (table_view table.now))) known.now) }
{
    let key = known
        .iter()
        .find(|key| breaks(rule, key, member(table, key.name)))?;
    Some(key.name)
}
