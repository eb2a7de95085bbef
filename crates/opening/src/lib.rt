// A frame opened, to be done as jobs.
//
// Its contracts cite the machine: how an open ends.
#![tactic(auto)]

mod begin;

ghost use Rattle.std.specs.Prelude.{◌≡◌};
ghost use Rattle.unit.specs.Layout.{wall};
ghost use Rattle.machine.specs.Ending.{lend, outcome_of};
ghost use Rattle.machine.specs.Whole as Play;
ghost use Rattle.machine.specs.Jobs.{opened};

use crate::begin::{begin_work, opened};
use bands::{Times, fallen, tail_count};
use judges::{judge_open_apply, judge_open_tail};
use reverb::filters_of;
use unit::{Outcome, State, quiet};

// Begins a frame of input, to be done as jobs (R2.24, R5.6 to R5.8).
pub fn open_apply(
    s: State,
    t: Times,
    coefficients: &[f32],
    input: &[f32],
    store: &[f32],
    work: &mut [f32],
) -> Outcome
    ensures value { result ≡ outcome_of (opened wall (lend s store.now work.old) (Play.apply t coefficients.now input.now)) }
    ensures work_after { work.new ≡ (opened wall (lend s store.now work.old) (Play.apply t coefficients.now input.now)).memory.work }
{
    if let Err(refusal) = judge_open_apply(s, t, coefficients, input, store.len(), work.len()) {
        return quiet(Err(refusal), s);
    }
    let count = tail_count(t, s.rate, s.frame).count;
    let fs = filters_of(coefficients);
    begin_work(s, store, work);
    stages::copy(input, &mut work[0..s.frame]);
    quiet(Ok(()), opened(s, false, fs, count))
}

// Begins a frame after the input has ended, to be done as jobs (R2.25, R5.6 to R5.8).
pub fn open_tail(s: State, store: &[f32], work: &mut [f32]) -> Outcome
    ensures value { result ≡ outcome_of (opened wall (lend s store.now work.old) Play.tail) }
    ensures work_after { work.new ≡ (opened wall (lend s store.now work.old) Play.tail).memory.work }
{
    if let Err(refusal) = judge_open_tail(s, store.len(), work.len()) {
        return quiet(Err(refusal), s);
    }
    begin_work(s, store, work);
    quiet(Ok(()), opened(s, true, s.filters, fallen(s.count)))
}
