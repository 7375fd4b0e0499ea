// The parameters of a file whose keys obey all rules.
ghost use Rattle.std.specs.Prelude.{◌≡◌, ◌<◌, length, Ok, IfOk};
ghost use Rattle.std.specs.List.{AllByRecursion};
ghost use Rattle.std.specs.List.Sorted.{IsStrictlyIncreasing};
ghost use Rattle.toml.specs.View.{table_view};
ghost use Rattle.fb_geometry.specs.Places.{places};
ghost use Rattle.fb_params.specs.Reading.{Answers, keeps, params_of_table, held};

use crate::ParamsError;
use crate::latent::latent_of;
use crate::outline::geometry_of;
use crate::rule::Rule;
use crate::seek::mechanism_of;
use crate::table::{elements_at, small_number_at};
use fb_geometry::Layout;
use fb_sectormap::SectorMap;
use fb_service::Disk;
use std::alloc::Global;
use toml::Table;

/// The value of an accepted parameter file.
#[derive(Drop)]
pub struct Parameters {
    /// The disk.
    pub disk: Disk,
    /// The LBNs of the sectors that cannot be read at first, in ascending order, each once.
    pub latent: Vec<u64>,
}

// The parameters that a table describes, or the first fault of the disk that it
// describes, or `NoMemory`.
#[tactic(auto, using(crate::proofs::Fields::mechanics_within), unfolding(crate::specs::Reading::params_of_table))]
pub fn params_of_table(
    alloc: Global,
    layout: Layout,
    table: &Table,
) -> Result<Parameters, ParamsError>
    requires present { keeps Rule.Present layout (table_view table.now) ≡ Ok tt }
    requires kind { keeps Rule.OfKind layout (table_view table.now) ≡ Ok tt }
    requires range { keeps Rule.InRange layout (table_view table.now) ≡ Ok tt }
    ensures value { Answers held result (params_of_table layout (table_view table.now)) }
    ensures latent_rises { IfOk result (λ params. IsStrictlyIncreasing params.latent.items) }
    ensures latent_on_disk { IfOk result (λ params. AllByRecursion (λ lbn. lbn < length (places params.disk.map)) params.latent.items) }
{
    let map = SectorMap::new(alloc, geometry_of(alloc, layout, table)?)?;
    let geometry = map.geometry();
    let mechanism = mechanism_of(alloc, geometry.cylinders(), table)?;
    let latent = latent_of(alloc, map.count(), elements_at(table, "latent"))?;
    let sector_bytes = small_number_at(table, "sector_bytes");
    let disk = Disk::new(map, mechanism, sector_bytes);
    Ok(Parameters { disk, latent })
}
