// Pending blocks of a track in order of the angle at which they begin.
ghost use Rattle.std.specs.Prelude.{◌≡◌, ℕ, ◌+◌, ◌<◌, ◌≤◌, Some, length, slice_get, true, IfOk, OnOk};
ghost use Rattle.fb_bgwrite.specs.ByAngle.{AreByAngle, AreSpots, over_spots};
ghost use Rattle.fb_units.specs.declared.types.Sweep.{Sweep};
ghost use Rattle.fb_bgwrite.specs.declared.spots.Spot.{Spot};

use fb_units::{NoMemory, Sweep};
use fb_wanted::TrackBlocks;
use std::alloc::Global;

/// How a pending block passes, and what it is worth.
#[derive(Clone, Copy)]
pub struct Spot {
    /// The angle at which it begins, and how long it passes.
    pub sweep: Sweep,
    /// Weight times sectors.
    pub worth: u32,
}

/// How many of the spots begin before an angle, in ns of rotation.
pub fn count_before(spots: &[Spot], angle: u64) -> usize
    requires { AreByAngle spots.now }
    ensures some { result ≤ length spots.now }
    ensures before { (i : ℕ) (spot : Spot) → slice_get spots.now i ≡ Some spot → i < result → spot.sweep.begin < angle }
    ensures behind { (i : ℕ) (spot : Spot) → slice_get spots.now i ≡ Some spot → result ≤ i → angle ≤ spot.sweep.begin }
{
    spots.partition_point(|spot| (spot.sweep.begin as u64) < angle)
}

/// Puts a spot where its angle belongs.
pub fn put_in(spots: &mut Vec<Spot>, spot: Spot) -> Result<(), NoMemory>
    requires { AreByAngle spots.old.items }
    ensures by_angle { OnOk result (AreByAngle spots.new.items) }
    ensures more { OnOk result ((measure : Sweep → ℕ → ℕ)
        → over_spots measure spots.new.items ≡ over_spots measure spots.old.items + measure spot.sweep spot.worth) }
{
    let index = count_before(spots.as_slice(), spot.sweep.begin as u64);
    spots.insert(index, spot)?;
    Ok(())
}

// Whether a block that passes so and is worth so much has this spot.
fn is_of(spot: Spot, sweep: Sweep, worth: u64) -> bool
    ensures { result ≡ true → (spot.sweep ≡ sweep) × (spot.worth ≡ worth) }
{
    spot.sweep.begin == sweep.begin
        && spot.sweep.length == sweep.length
        && spot.worth as u64 == worth
}

/// Takes out the spot of a block that passes so and is worth so much, if it is the first at its angle.
/// Returns whether it was.
pub fn take_out(spots: &mut Vec<Spot>, sweep: Sweep, worth: u64) -> bool
    requires { AreByAngle spots.old.items }
    ensures by_angle { result ≡ true → AreByAngle spots.new.items }
    ensures less { result ≡ true → (measure : Sweep → ℕ → ℕ)
        → over_spots measure spots.new.items + measure sweep worth ≡ over_spots measure spots.old.items }
{
    let index = count_before(spots.as_slice(), sweep.begin as u64);
    if index >= spots.len() {
        return false;
    }
    if !is_of(spots[index], sweep, worth) {
        return false;
    }
    spots.remove(index);
    true
}

/// The spots of the pending ones of these blocks.
pub fn spots_of(alloc: Global, blocks: &TrackBlocks) -> Result<Vec<Spot>, NoMemory>
    ensures { IfOk result (λ spots. AreSpots spots.items blocks.now) }
{
    let offers = blocks.offers();
    let mut spots = Vec::new(alloc);
    for offer in offers {
        let spot = Spot {
            sweep: offer.sweep,
            worth: offer.worth,
        };
        put_in(&mut spots, spot)?;
    }
    Ok(spots)
}
