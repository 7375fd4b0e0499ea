// Reading a parameter file.
ghost use Rattle.std.specs.Prelude.{◌≡◌, ◌<◌, length, IfOk};
ghost use Rattle.std.specs.List.{AllByRecursion};
ghost use Rattle.std.specs.List.Sorted.{IsStrictlyIncreasing};
ghost use Rattle.toml.specs.View.{table_view};
ghost use Rattle.fb_geometry.specs.Places.{places};
ghost use Rattle.fb_params.specs.Reading.{Answers, or_fault, document_of, keeps, params_of, params_of_document, held, fault_of};

use crate::name::key_text;
use crate::parameters::params_of_table;
use crate::rule::Rule;
use crate::search::first_key;
use crate::table::layout_of;
use crate::{Parameters, ParamsError, ParamsFault};
use fb_geometry::Layout;
use fb_units::KeyText;
use std::alloc::Global;
use toml::Table;

/// The disk and the latent sectors that the bytes of a parameter file describe; or the file's first
/// fault, or `NoMemory`.
///
/// Times in the file are whole nanoseconds. Zones, defects and points of the seek table keep the
/// order of the file. Latent sectors may be listed in any order, and more than once.
#[tactic(auto, unfolding(crate::specs::Reading::params_of))]
pub fn read_params(alloc: Global, bytes: &[u8]) -> Result<Parameters, ParamsError>
    ensures value { Answers held result (params_of bytes.now) }
    ensures latent_rises { IfOk result (λ params. IsStrictlyIncreasing params.latent.items) }
    ensures latent_on_disk { IfOk result (λ params. AllByRecursion (λ lbn. lbn < length (places params.disk.map)) params.latent.items) }
{
    let table = read_table(alloc, bytes)?;
    params_of_document(alloc, &table)
}

// The parameters that a document describes, or its first fault, or `NoMemory`.
#[tactic(auto, unfolding(crate::specs::Reading::params_of_document))]
fn params_of_document(alloc: Global, table: &Table) -> Result<Parameters, ParamsError>
    ensures value { Answers held result (params_of_document (table_view table.now)) }
    ensures latent_rises { IfOk result (λ params. IsStrictlyIncreasing params.latent.items) }
    ensures latent_on_disk { IfOk result (λ params. AllByRecursion (λ lbn. lbn < length (places params.disk.map)) params.latent.items) }
{
    let layout = layout_of(table);
    keep(alloc, Rule::Known, layout, table)?;
    keep(alloc, Rule::Present, layout, table)?;
    keep(alloc, Rule::OfKind, layout, table)?;
    keep(alloc, Rule::InRange, layout, table)?;
    params_of_table(alloc, layout, table)
}

// The TOML document of these bytes.
#[tactic(auto, using(crate::proofs::Documents::document_of_read, crate::proofs::Documents::document_of_refused))]
fn read_table(alloc: Global, bytes: &[u8]) -> Result<Table, ParamsError>
    ensures { Answers table_view result (or_fault ParamsFault.NotToml (document_of bytes.now)) }
{
    match toml::table_from_slice(alloc, bytes) {
        Ok(table) => Ok(table),
        Err(error) => {
            if error.is_memory() {
                Err(ParamsError::NoMemory)
            } else {
                Err(ParamsError::Fault(ParamsFault::NotToml))
            }
        }
    }
}

// Ok if all keys obey the rule, else the fault of the first key that breaks it.
#[tactic(auto, unfolding(crate::specs::Reading::keeps))]
fn keep(alloc: Global, rule: Rule, layout: Layout, table: &Table) -> Result<(), ParamsError>
    ensures { Answers (λ u. u) result (keeps rule layout (table_view table.now)) }
{
    match first_key(rule, layout, table) {
        Some(name) => {
            let text = key_text(alloc, name)?;
            Err(ParamsError::Fault(fault_of(rule, text)))
        }
        None => Ok(()),
    }
}

// The fault of a key that breaks a rule.
fn fault_of(rule: Rule, name: KeyText) -> ParamsFault
    ensures { result ≡ fault_of rule name }
{
    match rule {
        Rule::Known => ParamsFault::UnknownKey(name),
        Rule::Present => ParamsFault::MissingKey(name),
        Rule::OfKind => ParamsFault::WrongKind(name),
        Rule::InRange => ParamsFault::OutOfRange(name),
    }
}
