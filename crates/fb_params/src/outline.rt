// The outline that a file describes.
ghost use Rattle.std.specs.Prelude.{◌≡◌, ◌++◌, true, map, option_map, option_and_then, option_to_list, IfOk, OnOk};
ghost use Rattle.std.specs.List.{list_all, filter_map};
ghost use Rattle.toml.specs.Data.{as_table};
ghost use Rattle.toml.specs.View.{view, table_view};
ghost use Rattle.fb_params.specs.Keys.{from_to, zone_keys};
ghost use Rattle.fb_params.specs.Rules.{is_row_within, first_in, first_some};
ghost use Rattle.fb_params.specs.ParamsValue.{place_of, zone_of, grown_of, outline_of};
ghost use Rattle.fb_params.specs.Reading.{Answers, keeps, possible_outline};

use crate::rule::Rule;
use crate::table::{elements_at, nth, number_at, small_number_at};
use crate::{ParamsError, ParamsFault};
use fb_geometry::{Geometry, GeometryError, Layout, Zone};
use fb_units::{NoMemory, Place, Track};
use std::alloc::Global;
use toml::{Table, Value};

// The geometry of the file's outline, or its first fault, or `NoMemory`.
#[tactic(auto, using(crate::proofs::Fields::heads_within, crate::proofs::Fields::defects_within, crate::proofs::Fitting::fits_layout))]
pub fn geometry_of(alloc: Global, layout: Layout, table: &Table) -> Result<Geometry, ParamsError>
    requires { keeps Rule.InRange layout (table_view table.now) ≡ Ok tt }
    ensures { Answers (λ geometry. geometry) result (possible_outline (outline_of layout (table_view table.now))) }
{
    let rotation = number_at(table, "rotation_ns");
    let heads = small_number_at(table, "heads");
    let zones = zones(alloc, layout, elements_at(table, "zone"))?;
    let defects = places(alloc, elements_at(table, "defects"))?;
    let grown = grown(alloc, layout, table)?;
    match Geometry::new(alloc, layout, rotation, heads, zones, defects, grown) {
        Ok(geometry) => Ok(geometry),
        Err(GeometryError::Fault(fault)) => Err(ParamsError::Fault(ParamsFault::Geometry(fault))),
        Err(GeometryError::NoMemory) => Err(ParamsError::NoMemory),
    }
}

// The zones that these values describe; values that aren't tables are left out.
fn zones(alloc: Global, layout: Layout, values: &[Value]) -> Result<Vec<Zone>, NoMemory>
    requires { first_some (first_in Rule.InRange (zone_keys layout)) (filter_map as_table (map view values.now)) ≡ None }
    ensures { IfOk result (λ zones. zones.items ≡ map (zone_of layout) (filter_map as_table (map view values.now))) }
{
    let mut zones = Vec::new(alloc);
    for value in values {
        push_zone(&mut zones, layout, value)?;
    }
    Ok(zones)
}

// Adds the zone that a value describes, if it is a table.
fn push_zone(zones: &mut Vec<Zone>, layout: Layout, value: &Value) -> Result<(), NoMemory>
    requires { option_and_then (first_in Rule.InRange (zone_keys layout)) (as_table (view value.now)) ≡ None }
    ensures { OnOk result (zones.new.items ≡ zones.old.items ++ option_to_list (option_map (zone_of layout) (as_table (view value.now)))) }
{
    if let Some(table) = value.as_table() {
        zones.push(zone(layout, table))?;
    }
    Ok(())
}

#[tactic(auto, using(crate::proofs::Fields::zone_within, crate::proofs::Fields::spares_within))]
fn zone(layout: Layout, table: &Table) -> Zone
    requires { first_in Rule.InRange (zone_keys layout) (table_view table.now) ≡ None }
    ensures { result ≡ zone_of layout (table_view table.now) }
{
    let (spares, cylinder_spares) = match layout {
        Layout::PerTrack => (small_number_at(table, "spares"), 0),
        Layout::PerCylinder => (0, small_number_at(table, "cylinder_spares")),
    };
    Zone {
        first: small_number_at(table, "first"),
        last: small_number_at(table, "last"),
        sectors: small_number_at(table, "sectors"),
        track_skew: small_number_at(table, "track_skew"),
        cylinder_skew: small_number_at(table, "cylinder_skew"),
        spares,
        cylinder_spares,
    }
}

// The grown defects of a file; none in a file with spares per track.
#[tactic(auto, using(crate::proofs::Fields::grown_within))]
fn grown(alloc: Global, layout: Layout, table: &Table) -> Result<Vec<Place>, NoMemory>
    requires { keeps Rule.InRange layout (table_view table.now) ≡ Ok tt }
    ensures { IfOk result (λ grown. grown.items ≡ grown_of layout (table_view table.now)) }
{
    match layout {
        Layout::PerTrack => Ok(Vec::new(alloc)),
        Layout::PerCylinder => places(alloc, elements_at(table, "grown")),
    }
}

// The places that these rows of cylinder, head and slot describe.
#[tactic(auto, using(crate::proofs::Views::each_row))]
fn places(alloc: Global, rows: &[Value]) -> Result<Vec<Place>, NoMemory>
    requires { list_all (is_row_within (from_to 0 999999)) (map view rows.now) ≡ true }
    ensures { IfOk result (λ places. places.items ≡ map place_of (map view rows.now)) }
{
    let mut places = Vec::new(alloc);
    for row in rows {
        places.push(place(row))?;
    }
    Ok(places)
}

#[tactic(auto, using(crate::proofs::Numbers::nth_within))]
fn place(row: &Value) -> Place
    requires { is_row_within (from_to 0 999999) (view row.now) ≡ true }
    ensures { result ≡ place_of (view row.now) }
{
    Place {
        track: Track {
            cylinder: nth(row, 0),
            head: nth(row, 1),
        },
        slot: nth(row, 2),
    }
}
