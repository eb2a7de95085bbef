// The unit's calls that aren't jobs: fresh and reset, which leave it silent, and the whole frames: apply,
// several applies at once, and tail. Each takes the state by value and gives it back.
//
// Their contracts cite the machine: how each call ends.
#![tactic(auto)]

mod filters;
mod several;
mod units;

ghost use Rattle.std.specs.Prelude.{◌≡◌, []};
ghost use Rattle.unit.specs.Layout.{wall};
ghost use Rattle.machine.specs.Ending.{lend, outcome_of};
ghost use Rattle.machine.specs.Whole as Play;
ghost use Rattle.machine.specs.Whole.{begun, silenced, at_once};
ghost use Rattle.machine.specs.Several.{several, frames_outcome_of};

use crate::several::play_frames;
use crate::units::whole_frame;
use bands::{Times, fallen, tail_count};
pub use filters::filters_of;
use judges::{judge_apply, judge_frames, judge_fresh, judge_reset, judge_tail};
use samples::{Frames, LOWEST_RATE, SHORTEST_FRAME, clear};
use unit::{FramesOutcome, Outcome, State, fresh_state, quiet};

// A unit in which nothing has sounded yet, and its store cleared (R2.20, R4.24).
pub fn fresh(rate: u32, frame: usize, store: &mut [f32]) -> Outcome
    ensures value { result ≡ outcome_of (begun wall rate frame store.old) }
    ensures store_after { store.new ≡ (begun wall rate frame store.old).memory.store }
{
    if let Err(refusal) = judge_fresh(rate, frame, store.len()) {
        return quiet(Err(refusal), fresh_state(LOWEST_RATE, SHORTEST_FRAME));
    }
    clear(store);
    quiet(Ok(()), fresh_state(rate, frame))
}

// Silences the unit: its store is cleared and no tail is left. Cursors and filters
// stay (R2.21, R4.25).
pub fn reset(s: State, store: &mut [f32]) -> Outcome
    ensures value { result ≡ outcome_of (silenced wall (lend s store.old [])) }
    ensures store_after { store.new ≡ (silenced wall (lend s store.old [])).memory.store }
{
    if let Err(refusal) = judge_reset(s, store.len()) {
        return quiet(Err(refusal), s);
    }
    clear(store);
    let mut t = s;
    t.count = Frames(0);
    quiet(Ok(()), t)
}

// A frame of input: the lines sound through filters of the given coefficients, the input is added to
// each, and the tail that is to come is counted by the times (R2.22, R4.1 to R4.23).
pub fn apply(
    s: State,
    t: Times,
    coefficients: &[f32],
    input: &[f32],
    store: &mut [f32],
    work: &mut [f32],
    output: &mut [f32],
) -> Outcome
    ensures value { result ≡ outcome_of (at_once wall (lend s store.old work.old) (Play.apply t coefficients.now input.now) output.old) }
    ensures store_after { store.new ≡ (at_once wall (lend s store.old work.old) (Play.apply t coefficients.now input.now) output.old).memory.store }
    ensures work_after { work.new ≡ (at_once wall (lend s store.old work.old) (Play.apply t coefficients.now input.now) output.old).memory.work }
    ensures output_after { output.new ≡ (at_once wall (lend s store.old work.old) (Play.apply t coefficients.now input.now) output.old).output }
{
    let due = judge_apply(
        s,
        t,
        coefficients,
        input,
        store.len(),
        work.len(),
        output.len(),
    );
    if let Err(refusal) = due {
        return quiet(Err(refusal), s);
    }
    let count = tail_count(t, s.rate, s.frame).count;
    let fs = filters_of(coefficients);
    stages::copy(input, &mut work[0..s.frame]);
    whole_frame(s, false, fs, count, store, work, output)
}

// Up to 1,024 frames of input, as the same applies made singly, with one set of times and coefficients. It
// stops at the first frame that is refused, and says how many were done (R10).
pub fn apply_frames(
    s: State,
    t: Times,
    coefficients: &[f32],
    input: &[f32],
    store: &mut [f32],
    work: &mut [f32],
    output: &mut [f32],
) -> FramesOutcome
    ensures value { result ≡ frames_outcome_of (several wall (lend s store.old work.old) t coefficients.now input.now output.old) }
    ensures store_after { store.new ≡ (several wall (lend s store.old work.old) t coefficients.now input.now output.old).ending.memory.store }
    ensures work_after { work.new ≡ (several wall (lend s store.old work.old) t coefficients.now input.now output.old).ending.memory.work }
    ensures output_after { output.new ≡ (several wall (lend s store.old work.old) t coefficients.now input.now output.old).ending.output }
{
    let due = judge_frames(
        s,
        t,
        coefficients,
        input.len(),
        store.len(),
        work.len(),
        output.len(),
    );
    if let Err(refusal) = due {
        return FramesOutcome {
            outcome: quiet(Err(refusal), s),
            done: Frames(0),
        };
    }
    play_frames(s, t, coefficients, input, store, work, output)
}

// A frame after the input has ended: the lines go on sounding through the filters kept, and one frame
// less is to come (R2.23, R4.1 to R4.23).
pub fn tail(s: State, store: &mut [f32], work: &mut [f32], output: &mut [f32]) -> Outcome
    ensures value { result ≡ outcome_of (at_once wall (lend s store.old work.old) Play.tail output.old) }
    ensures store_after { store.new ≡ (at_once wall (lend s store.old work.old) Play.tail output.old).memory.store }
    ensures work_after { work.new ≡ (at_once wall (lend s store.old work.old) Play.tail output.old).memory.work }
    ensures output_after { output.new ≡ (at_once wall (lend s store.old work.old) Play.tail output.old).output }
{
    if let Err(refusal) = judge_tail(s, store.len(), work.len(), output.len()) {
        return quiet(Err(refusal), s);
    }
    whole_frame(s, true, s.filters, fallen(s.count), store, work, output)
}
