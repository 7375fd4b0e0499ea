// The latent sectors that a file lists.
ghost use Rattle.std.specs.Prelude.{◌≡◌, ◌<◌, map, IfOk};
ghost use Rattle.std.specs.List.{AllByRecursion};
ghost use Rattle.std.specs.List.Sorted.{IsStrictlyIncreasing};
ghost use Rattle.toml.specs.View.{view};
ghost use Rattle.fb_params.specs.Tables.{number_of};
ghost use Rattle.fb_params.specs.Reading.{Answers, latent_on};

use crate::table::number;
use crate::{ParamsError, ParamsFault};
use std::alloc::{AllocError, Global};
use std::collections::BTreeSet;
use toml::Value;

// The listed sectors in ascending order, each once; or as a fault the first listed one that isn't
// below the number of sectors.
pub fn latent_of(alloc: Global, count: u64, listed: &[Value]) -> Result<Vec<u64>, ParamsError>
    ensures value { Answers (λ latent. latent.items) result (latent_on count (map number_of (map view listed.now))) }
    ensures rises { IfOk result (λ latent. IsStrictlyIncreasing latent.items) }
    ensures on_disk { IfOk result (λ latent. AllByRecursion (λ lbn. lbn < count) latent.items) }
{
    let latent = latent_set(alloc, count, listed)?;
    Ok(numbers_in(alloc, &latent)?)
}

fn latent_set(alloc: Global, count: u64, listed: &[Value]) -> Result<BTreeSet<u64>, ParamsError>
    ensures value { Answers (λ latent. latent.keys) result (latent_on count (map number_of (map view listed.now))) }
    ensures on_disk { IfOk result (λ latent. AllByRecursion (λ lbn. lbn < count) latent.keys) }
{
    let mut latent = BTreeSet::new(alloc);
    for value in listed {
        let lbn = number(value);
        if lbn >= count {
            return Err(ParamsError::Fault(ParamsFault::LatentOutside(lbn)));
        }
        latent.insert(lbn)?;
    }
    Ok(latent)
}

fn numbers_in(alloc: Global, set: &BTreeSet<u64>) -> Result<Vec<u64>, AllocError>
    ensures items { IfOk result (λ numbers. numbers.items ≡ set.now.keys) }
    ensures rises { IsStrictlyIncreasing set.now.keys }
{
    set.iter().copied().collect(alloc)
}
