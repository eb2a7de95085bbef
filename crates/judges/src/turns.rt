// Whose turn it is in a frame that is done as jobs: what is due of each call, by the marks of the jobs
// that are done. The marks are taken out of the state before they are lent, since a loan of a part of a state by value copies all of
// it; but not in `judge_line`, where LLVM then makes more copies of its own.
ghost use Rattle.std.specs.Prelude.{◌≡◌};
ghost use Rattle.unit.specs.UnitState.{of_state};
ghost use Rattle.unit.specs.Layout.{wall};
ghost use Rattle.judges.specs.Turns.{judged_open_apply, judged_open_tail, judged_read, judged_mix, judged_line, judged_output, judged_close, judged_abandon};

use crate::marks::{all_done, all_read, line_marked, marked};
use crate::{judge, judge_given};
use bands::Times;
use samples::Answer;
use unit::{COEFFICIENTS, LINES, MIX_MARK, OUTPUT_MARK, State, lent_ok, store_ok, work_ok};

// A frame of input to be opened (R2.24).
pub fn judge_open_apply(
    s: State,
    t: Times,
    coefficients: &[f32],
    input: &[f32],
    store: usize,
    work: usize,
) -> Answer
    ensures { result ≡ judged_open_apply wall (of_state s) t coefficients.now input.now store work }
{
    let given = (coefficients.len() == COEFFICIENTS) & (input.len() == s.frame);
    let lent = store_ok(s, store) & work_ok(s.frame, work);
    judge(s, given & lent, true, !s.busy)?;
    judge_given(t, coefficients, input)
}

// A frame of the tail to be opened (R2.25).
pub fn judge_open_tail(s: State, store: usize, work: usize) -> Answer
    ensures { result ≡ judged_open_tail wall (of_state s) store work }
{
    let lent = store_ok(s, store) & work_ok(s.frame, work);
    judge(s, lent, true, !s.busy)
}

// A line to be read (R2.26).
pub fn judge_read(s: State, line: usize, store: usize, work: usize) -> Answer
    ensures { result ≡ judged_read wall (of_state s) line store work }
{
    let marks = s.marks;
    let lent = store_ok(s, store) & work_ok(s.frame, work);
    judge(s, lent, line < LINES, s.busy & !marked(&marks, line))
}

// The lines read to be mixed (R2.27).
pub fn judge_mix(s: State, work: usize) -> Answer
    ensures { result ≡ judged_mix wall (of_state s) work }
{
    let marks = s.marks;
    let turn = all_read(&marks) & !marked(&marks, MIX_MARK);
    judge(s, work_ok(s.frame, work), true, s.busy & turn)
}

// A line mixed to go through its bands (R2.28).
pub fn judge_line(s: State, line: usize, work: usize) -> Answer
    ensures { result ≡ judged_line wall (of_state s) line work }
{
    let turn = marked(&s.marks, MIX_MARK) & !line_marked(&s.marks, line);
    judge(s, work_ok(s.frame, work), line < LINES, s.busy & turn)
}

// The output to be made. It waits for the reads alone (R2.29).
// Kept (2): as `judge_mix`, but for the mark. No plainer: both are two lines over `judge`, and a function of the mark would be a third.
pub fn judge_output(s: State, work: usize) -> Answer
    ensures { result ≡ judged_output wall (of_state s) work }
{
    let marks = s.marks;
    let turn = all_read(&marks) & !marked(&marks, OUTPUT_MARK);
    judge(s, work_ok(s.frame, work), true, s.busy & turn)
}

// A frame to be closed, its numbers not judged yet (R2.30).
pub fn judge_close(s: State, store: usize, work: usize, output: usize) -> Answer
    ensures { result ≡ judged_close wall (of_state s) store work output }
{
    let marks = s.marks;
    let lent = lent_ok(s, store, work, output);
    judge(s, lent, true, s.busy & all_done(&marks))
}

// A frame to be abandoned (R2.31).
pub fn judge_abandon(s: State, work: usize) -> Answer
    ensures { result ≡ judged_abandon wall (of_state s) work }
{
    judge(s, work_ok(s.frame, work), true, s.busy)
}
