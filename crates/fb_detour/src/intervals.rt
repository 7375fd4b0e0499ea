// Upper bounds on the value of the plans of a way, by the instant at which the head leaves.
ghost use Rattle.std.specs.Prelude.{◌≡◌, ◌+◌, ◌*◌, ◌≤◌, ◌<◌, ◌^◌};
ghost use Rattle.fb_plan.specs.Ways.{arrival, move_on};
ghost use Rattle.fb_detour.specs.Bounds.{IsStopOf, AreCeilings, AreSmallSums, ceiling_at, IsSearch};

use crate::given::Search;
use crate::parts::{INTERVALS, LateParts, early_parts, late_at};
use crate::stop::Stop;
use fb_plan::Way;
use fb_units::Ns;

// What the track gives up to the end of each interval of leaves, and what the target gives after the move.
#[derive(Clone, Copy)]
pub struct Ceilings<'a> {
    // When the head arrives, in ns.
    pub begin: Ns,
    // How long each interval is, in ns.
    pub step: Ns,
    // What the track gives up to the end of each interval, in weight times sectors.
    pub early: [u64; INTERVALS],
    // How long the move on to the target takes, in ns.
    pub move_on: Ns,
    // What the target still gives after the move.
    pub late: &'a LateParts,
}

// The ceilings of the plans of a way, from its stop; `on` is the time of the move to the target, in
// ns.
pub fn ceilings_of<'a>(search: &Search<'a>, way: Way, stop: &Stop, on: Ns) -> Ceilings<'a>
    requires search { IsSearch search.now }
    requires stop { IsStopOf search.now way stop.now }
    requires arrive { stop.now.turning.from ≡ arrival search.now.disk.now search.now.gap.now way }
    requires on { on ≡ move_on search.now.disk.now search.now.gap.now way }
    requires soon { on ≤ 2 * 10 ^ 9 }
    requires in_time { stop.now.turning.from + on ≤ search.now.gap.now.deadline }
    ensures { AreCeilings search.now way result }
{
    let begin = stop.turning.from;
    let step = (search.gap.deadline - on - begin) / INTERVALS as u64 + 1;
    Ceilings {
        begin,
        step,
        early: early_parts(stop, step),
        move_on: on,
        late: search.late,
    }
}

// The upper bound on the value of the plan that leaves at this instant.
pub fn ceiling_at(ceilings: &Ceilings, leave: Ns) -> u64
    requires step { 0 < ceilings.now.step }
    requires begin { ceilings.now.begin ≤ leave }
    requires late_step { 0 < ceilings.now.late.now.step }
    requires late_begin { ceilings.now.late.now.begin ≤ leave }
    requires early_enough { leave + ceilings.now.move_on < 2 ^ 64 }
    requires small { AreSmallSums ceilings.now.early 16 }
    requires late_small { AreSmallSums ceilings.now.late.now.parts 32 }
    ensures { result ≡ ceiling_at ceilings.now leave }
{
    let k = (leave - ceilings.begin) / ceilings.step;
    ceilings.early[k.min(INTERVALS as u64 - 1) as usize]
        + late_at(ceilings.late, leave + ceilings.move_on)
}
