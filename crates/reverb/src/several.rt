// Several frames of input at once: the same applies made singly, judged once by 1 to 7, and with the
// state copied once in and once out.
ghost use Rattle.std.specs.Prelude.{◌≡◌, true, ◌+◌, ◌≤◌, length, take, drop};
ghost use Rattle.samples.specs.Answers.{Accepted};
ghost use Rattle.unit.specs.UnitState.{of_state};
ghost use Rattle.unit.specs.Layout.{wall};
ghost use Rattle.unit.specs.Room.{room_ok};
ghost use Rattle.judges.specs.Judges.{most_frames, judged_frames};
ghost use Rattle.machine.specs.Several.{frames_outcome_of};
ghost use Rattle.reverb.specs.Workers.{rings_at, next_frame, playing_all, several_by};

use crate::filters::filters_of;
use crate::units::moved_on;
use audio_buffer::verdict;
use bands::{Times, tail_count};
use frame::{Stepped, run_frame};
use iir::Filter;
use judges::{frame_count, judge_input};
use samples::{Answer, Frames, Refusal, need};
use unit::{
    AllpassRings, FILTERS, FramesOutcome, LINES, LineRings, Outcome, PASS_LENGTHS, Rings, State,
    lengths, quiet,
};

// The frame of several whose input begins at `at`, with the filters `fs` and on lines' rings of the lengths
// `ls`, from where the frame before it left them. Refused with 8 or 9, it gives none.
fn next_frame(
    f: usize,
    at: usize,
    ls: [usize; LINES],
    last: Stepped,
    fs: [Filter; FILTERS],
    input: &[f32],
    store: &mut [f32],
    work: &mut [f32],
    output: &mut [f32],
) -> Result<Stepped, Refusal>
    requires room { room_ok wall f (rings_at ls last) (length store.old) (length work.old) (length output.old) ≡ true }
    requires frame_lent { (at + f ≤ length input.now) × (f ≤ length work.old) }
    ensures value { result ≡ (next_frame f ls last fs (take f (drop at input.now)) store.old work.old output.old).next }
    ensures store_after { store.new ≡ (next_frame f ls last fs (take f (drop at input.now)) store.old work.old output.old).store }
    ensures work_after { work.new ≡ (next_frame f ls last fs (take f (drop at input.now)) store.old work.old output.old).work }
    ensures output_after { output.new ≡ (next_frame f ls last fs (take f (drop at input.now)) store.old work.old output.old).output }
{
    let end = at + f;
    judge_input(&input[at..end])?;
    stages::copy(&input[at..end], &mut work[0..f]);
    let frame = run_frame(f, rings_at(ls, last), false, fs, store, work, output);
    need(frame.ok, Refusal::NotFinite)?;
    Ok(frame)
}

// The rings as a frame left them, those of the lines of the lengths `ls`.
fn rings_at(ls: [usize; LINES], last: Stepped) -> Rings
    ensures { result ≡ rings_at ls last }
{
    let Stepped { lines, passes, .. } = last;
    Rings {
        lines: LineRings {
            lengths: ls,
            cursors: lines,
        },
        passes: AllpassRings {
            lengths: PASS_LENGTHS,
            cursors: passes,
        },
    }
}

// Frames of input that nothing but their own numbers can refuse, one after the other up to the first
// that is refused.
pub(crate) fn play_frames(
    s: State,
    t: Times,
    coefficients: &[f32],
    input: &[f32],
    store: &mut [f32],
    work: &mut [f32],
    output: &mut [f32],
) -> FramesOutcome
    requires { judged_frames wall (of_state s) t coefficients.now (length input.now) (length store.old) (length work.old) (length output.old) ≡ Accepted }
    ensures value { result ≡ frames_outcome_of (playing_all s t coefficients.now input.now store.old work.old output.old) }
    ensures store_after { store.new ≡ (playing_all s t coefficients.now input.now store.old work.old output.old).ending.memory.store }
    ensures work_after { work.new ≡ (playing_all s t coefficients.now input.now store.old work.old output.old).ending.memory.work }
    ensures output_after { output.new ≡ (playing_all s t coefficients.now input.now store.old work.old output.old).ending.output }
{
    let f = s.frame;
    let n = frame_count(f, input.len());
    let ls = lengths(s);
    let fs = filters_of(coefficients);
    let tail = tail_count(t, s.rate, f).count;
    let mut count = s.count;
    let mut last = kept_by(s);
    // Kept (3): an outcome says how many frames are done, and std says nothing of what `chunks_mut` leaves.
    for done in 0..n {
        let at = done * f;
        let e = at + f;
        match next_frame(f, at, ls, last, fs, input, store, work, &mut output[at..e]) {
            Ok(frame) => last = frame,
            Err(refusal) => return several_by(s, Err(refusal), last, count, done),
        }
        count = tail;
    }
    several_by(s, Ok(()), last, count, n)
}

// What a unit keeps, as if a frame had come to it.
fn kept_by(s: State) -> Stepped
    ensures { result ≡ record { ok = true; filters = s.filters; lines = s.lines; passes = s.passes } }
{
    let State {
        filters,
        lines,
        passes,
        ..
    } = s;
    Stepped {
        ok: true,
        filters,
        lines,
        passes,
    }
}

// The outcome of several frames of which so many are done, the last of them as `last`, and `count` of the
// tail still to come.
fn several_by(s: State, answer: Answer, last: Stepped, count: Frames, done: usize) -> FramesOutcome
    requires { done ≤ most_frames }
    ensures { result ≡ several_by (of_state s) answer last count.0 done }
{
    let state = moved_on(s, last, count);
    let outcome = match answer {
        Ok(()) => Outcome {
            answer,
            verdict: verdict(count),
            state,
        },
        Err(_) => quiet(answer, state),
    };
    FramesOutcome {
        outcome,
        done: Frames(done as i32),
    }
}
