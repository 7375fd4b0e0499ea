// The next track with a block.
ghost use Rattle.std.specs.Prelude.{◌≡◌, ℕ, IfSome, IfNone};
ghost use Rattle.fb_units.specs.declared.types.Track.{Track};
ghost use Rattle.fb_wanted.specs.LookUp.{track_at, first_track, AreMarked, IsNextTrack, NoTrackIsNext};

use crate::bands::BAND;
use crate::depths::Depths;
use crate::on_track::OnTrack;
use crate::tracks::Tracks;
use fb_units::Track;

// The first track with a block on the cylinders from `start` on. Bands with no block are passed over.
fn first_from<'a>(tracks: &'a Tracks, depths: &Depths, start: usize) -> Option<&'a OnTrack>
    requires { AreMarked tracks.now depths.now }
    ensures some { IfSome result (λ on. (t : Track) × (on.now ≡ track_at tracks.now t) × IsNextTrack tracks.now (first_track start) t) }
    ensures none { IfNone result (NoTrackIsNext tracks.now (first_track start)) }
{
    let band_size = BAND as usize;
    let mut band = depths.next_with_block(start / band_size);
    while band <= tracks.len() / band_size {
        let begin = band * band_size;
        if let Some(on) = tracks.first_between(start.max(begin), begin + band_size) {
            return Some(on);
        }
        band = depths.next_with_block(band + 1);
    }
    None
}

/// The first track from one on that has a block.
pub fn next_track<'a>(tracks: &'a Tracks, depths: &Depths, from: Track) -> Option<&'a OnTrack>
    requires { AreMarked tracks.now depths.now }
    ensures some { IfSome result (λ on. (t : Track) × (on.now ≡ track_at tracks.now t) × IsNextTrack tracks.now from t) }
    ensures none { IfNone result (NoTrackIsNext tracks.now from) }
{
    let cylinder = from.cylinder as usize;
    match tracks.next_on(cylinder, from.head) {
        Some(on) => Some(on),
        None => first_from(tracks, depths, cylinder + 1),
    }
}
