// How many blocks a call can ask for.
ghost use Rattle.std.specs.Prelude.{◌≡◌, ◌+◌, ◌*◌, ◌<◌, ◌≤◌, ◌^◌, [], length, take, true, if◌then◌else◌, MatchOption};
ghost use Rattle.fb_geometry.specs.Places.{places};
ghost use Rattle.fb_sectormap.specs.Cutting.{cutting};
ghost use Rattle.fb_script.specs.Blocks.{live_cuts};
ghost use Rattle.fb_calls.specs.Live.{bits, is_live};

use crate::live_digits::is_live_block;
use fb_sectormap::SectorMap;

/// The number of blocks into which a range of sectors is cut, with a block size in sectors. None if
/// there are more than `most`.
#[tactic(auto, unfolding(fb_sectormap::specs::Cutting::cutting))]
pub fn count_cuts(map: &SectorMap, block: u32, first: u64, count: u64, most: u64) -> Option<u64>
    requires block { 0 < block }
    requires on_disk { first + count ≤ length (places map.now) }
    requires fits { first + count < 2 ^ 64 }
    ensures { MatchOption result (most < length (cutting map.now block first count))
        (λ cuts. (cuts ≡ length (cutting map.now block first count)) × (cuts ≤ most)) }
{
    if count / block as u64 > most {
        return None;
    }
    if count == 0 {
        return Some(0);
    }
    let mut span = map.span(first);
    let mut lbn = first;
    let mut left = count;
    let mut cuts = 0;
    while left > 0 {
        let cut = map.next_cut(&mut span, lbn, left, block);
        if cuts == most {
            return None;
        }
        lbn += cut.count as u64;
        left -= cut.count as u64;
        cuts += 1;
    }
    Some(cuts)
}

/// The number of blocks into which the live blocks of a segment are cut. None if there are more
/// than `most`.
pub fn count_live_cuts(
    map: &SectorMap,
    block: u32,
    first: u64,
    blocks: u64,
    live: &[u8],
    most: u64,
) -> Option<u64>
    requires block { 0 < block }
    requires live { is_live blocks live.now ≡ true }
    requires few { blocks ≤ 4096 }
    requires on_disk { first + blocks * block ≤ length (places map.now) }
    requires fits { first + blocks * block < 2 ^ 64 }
    ensures { MatchOption result (most < length (live_cuts map.now block first (take blocks (bits live.now))))
        (λ cuts. (cuts ≡ length (live_cuts map.now block first (take blocks (bits live.now)))) × (cuts ≤ most)) }
{
    let mut i = 0;
    let mut cuts = 0;
    while i < blocks {
        if i % 4 == 0 && live[(i / 4) as usize] == b'0' {
            // None of the digit's four blocks is live.
            i += 4;
        } else {
            let lbn = first + i * block as u64;
            cuts += count_block(map, block, lbn, is_live_block(live, i), most - cuts)?;
            i += 1;
        }
    }
    Some(cuts)
}

// The number of blocks into which a block of a segment is cut: 0 if it isn't live.
fn count_block(map: &SectorMap, block: u32, lbn: u64, live: bool, most: u64) -> Option<u64>
    requires block { 0 < block }
    requires on_disk { lbn + block ≤ length (places map.now) }
    requires fits { lbn + block < 2 ^ 64 }
    ensures { MatchOption result (most < length (if live then cutting map.now block lbn block else []))
        (λ cuts. (cuts ≡ length (if live then cutting map.now block lbn block else [])) × (cuts ≤ most)) }
{
    if live {
        count_cuts(map, block, lbn, block as u64, most)
    } else {
        Some(0)
    }
}
