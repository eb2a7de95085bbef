// What is due of a call of the unit: the lowest number that applies, 9 aside.
//
// Its contracts cite `specs/`, over any model of the unit: what each call is judged by, where the marks of
// an open frame stand, and what each of its jobs waits for.
#![tactic(auto)]

mod marks;
mod turns;

ghost use Rattle.std.specs.Prelude.{◌≡◌, ◌/◌, ◌%◌, eqb};
ghost use Rattle.search.specs.Search.{first_bad};
ghost use Rattle.unit.specs.UnitState.{of_state};
ghost use Rattle.unit.specs.Layout.{wall};
ghost use Rattle.judges.specs.Judges.{judged, judged_fresh, judged_reset, judged_tail, judged_apply, judged_given, judged_frames, bad_input};

use bands::{Times, times_ok};
use samples::{Answer, Refusal, frame_ok, need, rate_ok};
use search::{all_finite, first_bad};
pub use turns::{
    judge_abandon, judge_close, judge_line, judge_mix, judge_open_apply, judge_open_tail,
    judge_output, judge_read,
};
use unit::{COEFFICIENTS, PER_FILTER, State, fresh_state, in_range, lent_ok, store_ok, work_ok};

// A call on a state: `lent` says that every lent slice has its length, `line` that its line, or how many
// frames it is handed, is in range, and `turn` that it is the call's turn.
#[tactic(auto, unfolding(crate::specs::Judges::judged))]
pub(crate) fn judge(s: State, lent: bool, line: bool, turn: bool) -> Answer
    ensures { result ≡ judged wall (of_state s) lent line turn }
{
    need(in_range(s), Refusal::BadState)?;
    need(lent, Refusal::BadLength)?;
    need(line, Refusal::BadIndex)?;
    need(turn, Refusal::OutOfTurn)
}

// A fresh unit (R2.20).
#[tactic(auto, unfolding(crate::specs::Judges::judged_fresh))]
pub fn judge_fresh(rate: u32, frame: usize, store: usize) -> Answer
    ensures { result ≡ judged_fresh wall rate frame store }
{
    need(rate_ok(rate) & frame_ok(frame), Refusal::BadSize)?;
    need(
        store_ok(fresh_state(rate, frame), store),
        Refusal::BadLength,
    )
}

// A reset (R2.21).
pub fn judge_reset(s: State, store: usize) -> Answer
    ensures { result ≡ judged_reset wall (of_state s) store }
{
    judge(s, store_ok(s, store), true, !s.busy)
}

// A whole tail, its output not judged yet (R2.23).
pub fn judge_tail(s: State, store: usize, work: usize, output: usize) -> Answer
    ensures { result ≡ judged_tail wall (of_state s) store work output }
{
    judge(s, lent_ok(s, store, work, output), true, !s.busy)
}

// A whole apply, its output not judged yet (R2.22).
pub fn judge_apply(
    s: State,
    t: Times,
    coefficients: &[f32],
    input: &[f32],
    store: usize,
    work: usize,
    output: usize,
) -> Answer
    ensures { result ≡ judged_apply wall (of_state s) t coefficients.now input.now store work output }
{
    let given = (coefficients.len() == COEFFICIENTS) & (input.len() == s.frame);
    judge(s, given & lent_ok(s, store, work, output), true, !s.busy)?;
    judge_given(t, coefficients, input)
}

// The most frames that one call may be handed (R10.1).
const MOST_FRAMES: usize = 1024;

// Several frames of input at once, the frames themselves not judged yet (R10.2).
pub fn judge_frames(
    s: State,
    t: Times,
    coefficients: &[f32],
    input: usize,
    store: usize,
    work: usize,
    output: usize,
) -> Answer
    ensures { result ≡ judged_frames wall (of_state s) t coefficients.now input store work output }
{
    let whole = are_whole(s.frame, input) & (output == input);
    let given = (coefficients.len() == COEFFICIENTS) & whole;
    let lent = given & (store_ok(s, store) & work_ok(s.frame, work));
    judge(s, lent, frame_count(s.frame, input) <= MOST_FRAMES, !s.busy)?;
    judge_given(t, coefficients, &[])
}

// How many whole frames there are in so many samples. There is none where a frame has no sample.
pub fn frame_count(frame: usize, samples: usize) -> usize
    ensures { result ≡ samples / frame }
{
    if frame == 0 { 0 } else { samples / frame }
}

// Whether so many samples are whole frames.
fn are_whole(frame: usize, samples: usize) -> bool
    ensures { result ≡ eqb (samples % frame) 0 }
{
    if frame == 0 {
        samples == 0
    } else {
        samples % frame == 0
    }
}

// One frame of input, by 8 alone (R2.18).
pub fn judge_input(input: &[f32]) -> Answer
    ensures { result ≡ bad_input (first_bad input.now) }
{
    match first_bad(input, 0) {
        Some(i) => Err(Refusal::BadSample(i)),
        None => Ok(()),
    }
}

// What an apply is given: its times, its coefficients and its input.
#[tactic(auto, unfolding(crate::specs::Judges::judged_given))]
pub(crate) fn judge_given(t: Times, coefficients: &[f32], input: &[f32]) -> Answer
    ensures { result ≡ judged_given t coefficients.now input.now }
{
    need(times_ok(t), Refusal::BadTime)?;
    need(
        all_finite(coefficients, PER_FILTER),
        Refusal::BadCoefficient,
    )?;
    judge_input(input)
}
