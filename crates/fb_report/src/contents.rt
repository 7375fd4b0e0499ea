// The contents of a row as they are shown.
ghost use Rattle.std.specs.Prelude.{◌≡◌, ◌%◌, IfOk};
ghost use Rattle.std.specs.List.{sum_by};
ghost use Rattle.fb_report.specs.declared.bytes.Bytes.{Bytes};
ghost use Rattle.fb_report.specs.Shown.{shown};

use crate::Bytes;
use crate::sectors::pour;
use crate::sink::{HexDump, push_hex};
use fb_store::Contents;
use fb_units::NoMemory;
use sha2::{Digest, Sha256};
use std::alloc::Global;

// The hexadecimal digits of a digest.
const DIGEST_DIGITS: usize = 64;

/// The bytes of contents as they are shown.
pub fn shown(
    alloc: Global,
    contents: &Contents,
    sector_bytes: u32,
    bytes: Bytes,
) -> Result<Vec<u8>, NoMemory>
    requires whole { sector_bytes % 16 ≡ 0 }
    ensures { IfOk result (λ field. field.items ≡ shown bytes sector_bytes contents.now) }
{
    match bytes {
        Bytes::Nothing => Ok(b"-".to_vec(alloc)?),
        Bytes::Digest => digest(alloc, contents, sector_bytes),
        Bytes::Dump => dump(alloc, contents, sector_bytes),
    }
}

/// How many sectors there are.
pub fn sectors(contents: &Contents) -> u128
    ensures { result ≡ sum_by (λ run. run.count) contents.now }
{
    let mut sectors = 0;
    for index in 0..contents.len() {
        sectors += contents.get(index).count as u128;
    }
    sectors
}

fn digest(alloc: Global, contents: &Contents, sector_bytes: u32) -> Result<Vec<u8>, NoMemory>
    requires whole { sector_bytes % 16 ≡ 0 }
    ensures { IfOk result (λ field. field.items ≡ shown Bytes.Digest sector_bytes contents.now) }
{
    let mut hasher = Sha256::new();
    pour(alloc, &mut hasher, contents, sector_bytes)?;
    let mut text = Vec::with_capacity(alloc, DIGEST_DIGITS)?;
    push_hex(&mut text, &hasher.finalize())?;
    Ok(text)
}

#[tactic(auto, using(crate::proofs::Digits::no_digits))]
fn dump(alloc: Global, contents: &Contents, sector_bytes: u32) -> Result<Vec<u8>, NoMemory>
    requires whole { sector_bytes % 16 ≡ 0 }
    ensures { IfOk result (λ field. field.items ≡ shown Bytes.Dump sector_bytes contents.now) }
{
    let mut dump = HexDump::new(alloc);
    pour(alloc, &mut dump, contents, sector_bytes)?;
    Ok(dump.into_text())
}
