// Keeping the offers of all tracks up to date.
ghost use Rattle.std.specs.Prelude.{◌≡◌, ◌≤◌, ◌<◌, ◌*◌, ◌+◌, ◌^◌, Some, length, set, slice_get, if◌then◌else◌};
ghost use Rattle.fb_units.specs.declared.types.Track.{Track};
ghost use Rattle.fb_units.specs.Tracks.{same_track};
ghost use Rattle.fb_wanted.specs.Numbering.{AreSmall, blocks_of};
ghost use Rattle.fb_wanted.specs.Offers.{offer_of};
ghost use Rattle.fb_wanted.specs.LookUp.{track_at, offers_at, with_offer, without_offer, last_of, with_state, indexes_of, is_of_track};
ghost use Rattle.fb_wanted.specs.LookUp.{AreOffered, IsChanged, IsThere};

use crate::offer::offer_of;
use crate::tracks::Tracks;
use crate::{Block, Entry, State};
use fb_units::Track;

// Offers a block that isn't offered.
fn give(tracks: &mut Tracks, offer_indexes: &mut Vec<u32>, index: u32, block: Block)
    requires there { IsThere tracks.old block.track }
    requires room { length (offers_at tracks.old block.track) < length (track_at tracks.old block.track).indexes }
    requires few { length (offers_at tracks.old block.track) < 2 ^ 32 }
    requires index { index < length offer_indexes.old.items }
    requires light { block.weight ≤ 1000 }
    requires short { block.count ≤ 2048 }
    ensures tracks { IsChanged tracks.old tracks.new block.track (with_offer (offer_of index block)) }
    ensures indexes { offer_indexes.new.items ≡ set offer_indexes.old.items index (length (offers_at tracks.old block.track)) }
    ensures length { length tracks.new ≡ length tracks.old }
{
    let offer_index = tracks.offer(block.track, offer_of(index, block));
    offer_indexes[index as usize] = offer_index;
}

// Takes an offer of a track away, by its index there.
fn take_away(tracks: &mut Tracks, offer_indexes: &mut Vec<u32>, track: Track, index: u32)
    requires there { IsThere tracks.old track }
    requires index { index < length (offers_at tracks.old track) }
    requires moved { (last_of (offers_at tracks.old track)).index < length offer_indexes.old.items }
    ensures tracks { IsChanged tracks.old tracks.new track (without_offer index) }
    ensures indexes { offer_indexes.new.items ≡ set offer_indexes.old.items (last_of (offers_at tracks.old track)).index index }
    ensures length { length tracks.new ≡ length tracks.old }
{
    let moved = tracks.withdraw(track, index);
    offer_indexes[moved as usize] = index;
}

/// Brings the offers up to date for a block that comes into another state. The entries are those
/// before; for each of them `offer_indexes` has the index of its offer among those of its track, if
/// it is wanted.
pub fn reoffer(
    tracks: &mut Tracks,
    offer_indexes: &mut Vec<u32>,
    entries: &[Entry],
    index: u32,
    state: State,
)
    requires there { index < length entries.now }
    requires small { AreSmall (blocks_of entries.now) }
    requires few { length entries.now ≤ 16000000 }
    requires indexes { (t : Track) → (track_at tracks.old t).indexes ≡ indexes_of (is_of_track t) entries.now }
    requires tracks { (e : Entry) → slice_get entries.now index ≡ Some e → IsThere tracks.old e.block.track }
    requires offered { AreOffered entries.now (offers_at tracks.old) offer_indexes.old.items }
    ensures offered { AreOffered (with_state state index entries.now) (offers_at tracks.new) offer_indexes.new.items }
    ensures indexes { (t : Track) → (track_at tracks.new t).indexes ≡ (track_at tracks.old t).indexes }
    ensures weights { (t : Track) → (track_at tracks.new t).weight ≡ (track_at tracks.old t).weight }
    ensures length { length tracks.new ≡ length tracks.old }
{
    let entry = entries[index as usize];
    if entry.state.is_wanted() {
        if !state.is_wanted() {
            take_away(
                tracks,
                offer_indexes,
                entry.block.track,
                offer_indexes[index as usize],
            );
        }
    } else if state.is_wanted() {
        give(tracks, offer_indexes, index, entry.block);
    }
}
