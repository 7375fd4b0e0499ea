// The call script of a rebuild.
ghost use Rattle.std.specs.Prelude.{◌≡◌, ℕ, IfOk, OnOk};
ghost use Rattle.fb_calls.specs.Reading.{calls_of};
ghost use Rattle.fb_mirror.specs.Script.{rebuild_text, rebuild_reading};

use fb_sectormap::SectorMap;
use fb_units::NoMemory;
use itoa::Buffer;
use std::alloc::Global;

/// The text of the call script that rebuilds a disk: a backup of all its sectors, wanted from
/// instant 0 on. The only error is `NoMemory`.
pub fn rebuild_script(alloc: Global, map: &SectorMap) -> Result<Vec<u8>, NoMemory>
    ensures { IfOk result (λ text. text.items ≡ rebuild_text map.now) }
{
    let mut buffer = Buffer::new();
    let mut text = Vec::new(alloc);
    text.extend_from_slice(b"0 open rebuild backup 1 16\n0 want rebuild 0 ")?;
    text.extend_from_slice(buffer.format(map.count()).as_bytes())?;
    text.push(b'\n')?;
    Ok(text)
}

/// The script of a rebuild, read for its disk with any trace, is accepted as its two calls, or its
/// second line is refused, since the disk has too many blocks.
pub fn rebuild_scripts_are_read(map: &SectorMap)
    ensures { (traced : ℕ) → calls_of map.now traced (rebuild_text map.now) ≡ rebuild_reading map.now }
{
    map.geometry().sound();
    // A disk has at most 10^12 sectors.
    let _sectors = map.count();
}
