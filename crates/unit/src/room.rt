// The memory and the rings that a frame asks.
ghost use Rattle.std.specs.Prelude.{◌≡◌, cond, replicate};
ghost use Rattle.samples.specs.Sizes.{frame_ok};
ghost use Rattle.unit.specs.UnitState.{of_state};
ghost use Rattle.unit.specs.Layout.{wall};
ghost use Rattle.unit.specs.Room.{rings_with, unit_rings, rings_hold, passes_are, lent_ok, room_ok};

use crate::layout::{LINES, PASS_LENGTHS, PASS_RINGS, lengths};
use crate::range::cursors_in;
use crate::sizes::{is_store, store_ok, work_ok};
use crate::{AllpassRings, LineRings, Rings, State};
use delay::LONGEST_RING;
use samples::frame_ok;

// Whether the store, the work memory and the output have the lengths that a unit asks (R1.19, R1.21,
// R1.25).
pub fn lent_ok(s: State, store: usize, work: usize, output: usize) -> bool
    ensures { result ≡ lent_ok wall (of_state s) store work output }
{
    store_ok(s, store) & (work_ok(s.frame, work) & (output == s.frame))
}

// Whether rings of the lengths `ls` can hold a frame of `frame` samples, and none is too long for a
// ring (R1.4).
pub fn rings_hold(frame: usize, ls: [usize; LINES]) -> bool
    ensures { result ≡ rings_hold frame ls }
{
    ls.iter().all(|l| (frame <= *l) & (*l <= LONGEST_RING))
}

// Whether allpass rings have the unit's lengths.
fn passes_are(ls: [usize; PASS_RINGS]) -> bool
    ensures { result ≡ passes_are wall ls }
{
    ls.iter().zip(PASS_LENGTHS.iter()).all(|(l, k)| *l == *k)
}

// The rings of a unit (R1.10, R1.12). Where its frame is out of range there is no such unit, and its lines have no
// rings.
pub fn rings_of(s: State) -> Rings
    ensures { result ≡ cond (frame_ok s.frame) (unit_rings wall (of_state s)) (rings_with wall (of_state s) (replicate wall.lines 0)) }
{
    let lines = s.lines;
    let passes = s.passes;
    Rings {
        lines: LineRings {
            lengths: lengths(s),
            cursors: lines,
        },
        passes: AllpassRings {
            lengths: PASS_LENGTHS,
            cursors: passes,
        },
    }
}

// Whether a frame of `frame` samples can be played on these rings, and in memory of these lengths (R3.37).
pub fn room_ok(frame: usize, rings: Rings, store: usize, work: usize, output: usize) -> bool
    ensures { result ≡ room_ok wall frame rings store work output }
{
    let lines = rings.lines;
    let passes = rings.passes;
    let held = rings_hold(frame, lines.lengths) & passes_are(passes.lengths);
    let within = cursors_in(&lines.lengths, &lines.cursors)
        & cursors_in(&passes.lengths, &passes.cursors);
    let lent = is_store(lines.lengths, store) & (work_ok(frame, work) & (output == frame));
    frame_ok(frame) & (held & (within & lent))
}
