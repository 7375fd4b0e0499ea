// The arm that a file describes.
ghost use Rattle.std.specs.Prelude.{◌≡◌, ◌^◌, true, codes, map, IfOk};
ghost use Rattle.std.specs.List.{list_all};
ghost use Rattle.toml.specs.View.{view, table_view};
ghost use Rattle.fb_params.specs.Keys.{from_to};
ghost use Rattle.fb_params.specs.Tables.{elements_at};
ghost use Rattle.fb_params.specs.Rules.{is_row_within};
ghost use Rattle.fb_params.specs.ParamsValue.{point_of, mechanics_of};
ghost use Rattle.fb_params.specs.Reading.{Answers, possible_arm};

use crate::table::{elements_at, nth, number_at};
use crate::{ParamsError, ParamsFault};
use fb_seek::{Mechanism, SeekPoint};
use fb_units::NoMemory;
use std::alloc::Global;
use toml::{Table, Value};

// The mechanism that a file describes for a disk of this many cylinders, or its first
// fault, or `NoMemory`.
pub fn mechanism_of(alloc: Global, cylinders: u32, table: &Table) -> Result<Mechanism, ParamsError>
    requires { list_all (is_row_within (from_to 0 (10 ^ 9))) (elements_at (codes "seek") (table_view table.now)) ≡ true }
    ensures value { Answers (λ mechanism. mechanism) result (possible_arm (mechanics_of cylinders (table_view table.now))) }
    ensures cylinders { IfOk result (λ mechanism. mechanism.cylinders ≡ cylinders) }
{
    let points = points(alloc, elements_at(table, "seek"))?;
    let head_switch = number_at(table, "head_switch_ns");
    let write_settle = number_at(table, "write_settle_ns");
    match Mechanism::new(points, cylinders, head_switch, write_settle) {
        Ok(mechanism) => Ok(mechanism),
        Err(fault) => Err(ParamsError::Fault(ParamsFault::Seek(fault))),
    }
}

// The points that these rows of distance and time describe.
#[tactic(auto, using(crate::proofs::Views::each_row))]
fn points(alloc: Global, rows: &[Value]) -> Result<Vec<SeekPoint>, NoMemory>
    requires { list_all (is_row_within (from_to 0 (10 ^ 9))) (map view rows.now) ≡ true }
    ensures { IfOk result (λ points. points.items ≡ map point_of (map view rows.now)) }
{
    let mut points = Vec::new(alloc);
    for row in rows {
        points.push(point(row))?;
    }
    Ok(points)
}

#[tactic(auto, using(crate::proofs::Numbers::nth_within))]
fn point(row: &Value) -> SeekPoint
    requires { is_row_within (from_to 0 (10 ^ 9)) (view row.now) ≡ true }
    ensures { result ≡ point_of (view row.now) }
{
    SeekPoint {
        distance: nth(row, 0),
        time: nth(row, 1) as u64,
    }
}
