// Upper bounds of the wanted weight of a track, for each cylinder and for each band of cylinders.
ghost use Rattle.std.specs.Prelude.{◌≡◌, ℕ, false, ◌≤◌, ◌<◌, ◌+◌, ◌*◌, ◌/◌, [], length, get_or, set, OnOk};
ghost use Rattle.fb_units.specs.declared.types.Track.{Track};
ghost use Rattle.fb_units.specs.Tracks.{same_track};
ghost use Rattle.fb_wanted.specs.LookUp.{weight_kept};

use crate::bands::{BAND, add_bands};
use crate::peaks::{Peaks, greatest_anew, greatest_of};
use crate::tracks::Tracks;
use fb_units::{NoMemory, Track};
use std::alloc::Global;
use std::marker::Model;

/// For each cylinder an upper bound on the weight of its tracks, and for each band one on the weight of
/// all tracks on its cylinders.
#[derive(Drop)]
pub struct Greatest {
    cylinders: Vec<u64>,
    bands: Peaks,
}

impl Model for Greatest {
    ghost use Rattle.std.specs.Prelude.{List, ℕ, ◌≤◌, ◌*◌, get_or};
    ghost use Rattle.fb_wanted.specs.LookUp.{ArePeaks};

    ghost Value = { List ℕ };

    ghost view = { λ g. g.cylinders.items };

    ghost invariant = { λ g. ArePeaks g.cylinders.items g.bands × ((c : ℕ) → get_or g.cylinders.items c 0 ≤ 16000000 * 2048000) };
}

impl Greatest {
    /// Without any cylinder.
    pub fn new(alloc: Global) -> Self
        ensures { result ≡ [] }
    {
        Greatest {
            cylinders: Vec::new(alloc),
            bands: Peaks::new(alloc),
        }
    }

    /// Makes room for all cylinders up to this one. Bounds stay as they are, also out of memory.
    pub fn add_room(&mut self, cylinder: u32) -> Result<(), NoMemory>
        ensures stay { (c : ℕ) → get_or self.new c 0 ≡ get_or self.old c 0 }
        ensures longer { length self.old ≤ length self.new }
        ensures there { OnOk result (cylinder < length self.new) }
    {
        self.bands.add_room(cylinder / BAND)?;
        add_bands(&mut self.cylinders, cylinder, 0)
    }

    /// The bound of a cylinder.
    pub fn at(&self, cylinder: u32) -> u64
        requires { cylinder < length self.now }
        ensures { result ≡ get_or self.now cylinder 0 }
    {
        self.cylinders[cylinder as usize]
    }

    /// Changes the bound of a cylinder.
    pub fn set(&mut self, cylinder: u32, weight: u64)
        requires there { cylinder < length self.old }
        requires small { weight ≤ 16000000 * 2048000 }
        ensures { self.new ≡ set self.old cylinder weight }
    {
        let band = cylinder / BAND;
        let was = self.cylinders[cylinder as usize];
        let greatest = self.bands.at(band);
        self.cylinders[cylinder as usize] = weight;
        let anew = greatest_anew(&self.cylinders, band as usize, greatest, was, weight);
        self.bands.set(band, anew);
    }

    /// An upper bound on the bounds of the cylinders from `from` up to the end: the greatest of these if
    /// there are fewer than 64 cylinders, else the greatest of those of the bands that they touch.
    pub fn among(&self, from: u32, end: u32) -> u64
        requires some { from < end }
        ensures each { (c : ℕ) → from ≤ c → c < end → get_or self.now c 0 ≤ result }
        ensures least { end < from + 64 → (most : ℕ) → ((c : ℕ) → from ≤ c → c < end → get_or self.now c 0 ≤ most) → result ≤ most }
        ensures small { result ≤ 16000000 * 2048000 }
    {
        if end - from < BAND {
            return greatest_of(&self.cylinders, from as usize, end as usize);
        }
        self.bands.among(from / BAND, (end - 1) / BAND + 1)
    }
}

/// Brings the bound of its cylinder up to date after the weight of a track has changed to `weight`,
/// by a gain or by a loss of at most `lost`.
pub fn update_greatest(
    greatest: &mut Greatest,
    tracks: &Tracks,
    track: Track,
    weight: u64,
    lost: u64,
)
    requires weight { weight ≡ weight_kept tracks.now track }
    requires there { track.cylinder < length greatest.old }
    requires small { (t : Track) → weight_kept tracks.now t ≤ 16000000 * 2048000 }
    requires others { (t : Track) → same_track track t ≡ false → weight_kept tracks.now t ≤ get_or greatest.old t.cylinder 0 }
    ensures weights { (t : Track) → weight_kept tracks.now t ≤ get_or greatest.new t.cylinder 0 }
    ensures least { get_or greatest.old track.cylinder 0 ≤ weight + lost → (most : ℕ)
        → ((t : Track) → t.cylinder ≡ track.cylinder → weight_kept tracks.now t ≤ most) → get_or greatest.new track.cylinder 0 ≤ most }
    ensures elsewhere { (c : ℕ) → (c ≡ track.cylinder → ⊥) → get_or greatest.new c 0 ≡ get_or greatest.old c 0 }
    ensures length { length greatest.new ≡ length greatest.old }
{
    let was = greatest.at(track.cylinder);
    if weight >= was {
        greatest.set(track.cylinder, weight);
    } else if was - weight <= lost {
        greatest.set(track.cylinder, tracks.greatest_on(track.cylinder));
    }
}
