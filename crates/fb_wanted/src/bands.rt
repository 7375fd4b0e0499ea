// Bands of neighbouring cylinders.
ghost use Rattle.std.specs.Prelude.{◌≡◌, ℕ, ◌≤◌, ◌<◌, length, get_or, OnOk};
ghost use Rattle.fb_wanted.specs.Tracks.{band_of};

use crate::Block;
use fb_units::NoMemory;

/// The number of cylinders of a band. Band k has the cylinders from 64 k to 64 k + 63.
pub const BAND: u32 = 64;

/// The band of a block's cylinder.
pub fn band_of(block: Block) -> u32
    ensures { result ≡ band_of block }
{
    block.track.cylinder / BAND
}

/// Makes room for all bands up to this one, with the value `nothing` for new ones. The values of
/// bands stay as they are, also out of memory.
pub fn add_bands<T: Copy>(bands: &mut Vec<T>, band: u32, nothing: T) -> Result<(), NoMemory>
    ensures stay { (k : ℕ) → get_or bands.new.items k nothing ≡ get_or bands.old.items k nothing }
    ensures longer { length bands.old.items ≤ length bands.new.items }
    ensures no_longer { (n : ℕ) → length bands.old.items ≤ n → band < n → length bands.new.items ≤ n }
    ensures there { OnOk result (band < length bands.new.items) }
{
    for _ in bands.len()..band as usize + 1 {
        bands.push(nothing)?;
    }
    Ok(())
}
