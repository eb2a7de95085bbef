// The unit in whole frames.
ghost use Rattle.std.specs.Prelude.{◌≡◌, []};
ghost use Rattle.unit.specs.Layout.{wall};
ghost use Rattle.machine.specs.Ending.{lend, outcome_of};
ghost use Rattle.machine.specs.Whole as Play;
ghost use Rattle.machine.specs.Whole.{begun, silenced, at_once};
ghost use Rattle.machine.specs.Several.{several, frames_outcome_of};
ghost use Rattle.hall.specs.Face.{faced, faced_frames, times_of};

use crate::{HallAnswer, HallFramesAnswer};
use bands::Times;
use unit::State;

// A unit in which nothing has sounded yet, and its store cleared (R2.20, R4.24).
pub fn hall_fresh(rate: u32, frame: usize, store: &mut [f32]) -> HallAnswer
    ensures value { result ≡ faced (outcome_of (begun wall rate frame store.old)) }
    ensures store_after { store.new ≡ (begun wall rate frame store.old).memory.store }
{
    HallAnswer::from(reverb::fresh(rate, frame, store))
}

// Silences the unit: its store is cleared and no tail is left. Cursors and filters
// stay (R2.21, R4.25).
pub fn hall_reset(s: State, store: &mut [f32]) -> HallAnswer
    ensures value { result ≡ faced (outcome_of (silenced wall (lend s store.old []))) }
    ensures store_after { store.new ≡ (silenced wall (lend s store.old [])).memory.store }
{
    HallAnswer::from(reverb::reset(s, store))
}

// A frame of input: the lines sound through filters of the given coefficients, the input is added to
// each, and the tail that is to come is counted by the times (R2.22, R4).
pub fn hall_apply(
    s: State,
    t0: f32,
    t1: f32,
    t2: f32,
    coefficients: &[f32],
    input: &[f32],
    store: &mut [f32],
    work: &mut [f32],
    output: &mut [f32],
) -> HallAnswer
    ensures value { result ≡ faced (outcome_of (at_once wall (lend s store.old work.old) (Play.apply (times_of t0 t1 t2) coefficients.now input.now) output.old)) }
    ensures store_after { store.new ≡ (at_once wall (lend s store.old work.old) (Play.apply (times_of t0 t1 t2) coefficients.now input.now) output.old).memory.store }
    ensures work_after { work.new ≡ (at_once wall (lend s store.old work.old) (Play.apply (times_of t0 t1 t2) coefficients.now input.now) output.old).memory.work }
    ensures output_after { output.new ≡ (at_once wall (lend s store.old work.old) (Play.apply (times_of t0 t1 t2) coefficients.now input.now) output.old).output }
{
    let t = Times {
        low: t0,
        mid: t1,
        high: t2,
    };
    HallAnswer::from(reverb::apply(s, t, coefficients, input, store, work, output))
}

// Up to 1,024 frames of input, as the same applies made singly, with one set of times and coefficients. It
// stops at the first frame that is refused, and says how many were done (R10).
pub fn hall_apply_frames(
    s: State,
    t0: f32,
    t1: f32,
    t2: f32,
    coefficients: &[f32],
    input: &[f32],
    store: &mut [f32],
    work: &mut [f32],
    output: &mut [f32],
) -> HallFramesAnswer
    ensures value { result ≡ faced_frames (frames_outcome_of (several wall (lend s store.old work.old) (times_of t0 t1 t2) coefficients.now input.now output.old)) }
    ensures store_after { store.new ≡ (several wall (lend s store.old work.old) (times_of t0 t1 t2) coefficients.now input.now output.old).ending.memory.store }
    ensures work_after { work.new ≡ (several wall (lend s store.old work.old) (times_of t0 t1 t2) coefficients.now input.now output.old).ending.memory.work }
    ensures output_after { output.new ≡ (several wall (lend s store.old work.old) (times_of t0 t1 t2) coefficients.now input.now output.old).ending.output }
{
    let t = Times {
        low: t0,
        mid: t1,
        high: t2,
    };
    HallFramesAnswer::from(reverb::apply_frames(s, t, coefficients, input, store, work, output))
}

// A frame after the input has ended: the lines go on sounding through the filters kept, and one frame
// less is to come (R2.23, R4).
pub fn hall_tail(s: State, store: &mut [f32], work: &mut [f32], output: &mut [f32]) -> HallAnswer
    ensures value { result ≡ faced (outcome_of (at_once wall (lend s store.old work.old) Play.tail output.old)) }
    ensures store_after { store.new ≡ (at_once wall (lend s store.old work.old) Play.tail output.old).memory.store }
    ensures work_after { work.new ≡ (at_once wall (lend s store.old work.old) Play.tail output.old).memory.work }
    ensures output_after { output.new ≡ (at_once wall (lend s store.old work.old) Play.tail output.old).output }
{
    HallAnswer::from(reverb::tail(s, store, work, output))
}
