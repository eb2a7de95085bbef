// The end of a frame that is done as jobs: closed, or given up.
//
// Its contracts cite the machine: how a close and an abandon end.
#![tactic(auto)]

mod ends;

ghost use Rattle.std.specs.Prelude.{◌≡◌, []};
ghost use Rattle.unit.specs.Layout.{wall};
ghost use Rattle.machine.specs.Ending.{lend, outcome_of};
ghost use Rattle.machine.specs.Jobs.{closed, abandoned};

use crate::ends::{concluded, shut};
use frame::close_frame;
use judges::{judge_abandon, judge_close};
use samples::clear;
use unit::{Outcome, State, quiet, rings_of};

// Ends a frame of which every job is done: puts its rows into the lines, writes the output, moves the
// cursors and sets the count, unless a number of it isn't finite (R2.30, R5.20 to R5.27).
pub fn close(s: State, store: &mut [f32], work: &mut [f32], output: &mut [f32]) -> Outcome
    ensures value { result ≡ outcome_of (closed wall (lend s store.old work.old) output.old) }
    ensures store_after { store.new ≡ (closed wall (lend s store.old work.old) output.old).memory.store }
    ensures work_after { work.new ≡ (closed wall (lend s store.old work.old) output.old).memory.work }
    ensures output_after { output.new ≡ (closed wall (lend s store.old work.old) output.old).output }
{
    if let Err(refusal) = judge_close(s, store.len(), work.len(), output.len()) {
        return quiet(Err(refusal), s);
    }
    let r = close_frame(s.frame, rings_of(s), s.filters, store, work, output);
    concluded(s, r)
}

// Gives an open frame up: the unit is as it was before, and the work memory is cleared (R2.31, R5.28).
pub fn abandon(s: State, work: &mut [f32]) -> Outcome
    ensures value { result ≡ outcome_of (abandoned wall (lend s [] work.old)) }
    ensures work_after { work.new ≡ (abandoned wall (lend s [] work.old)).memory.work }
{
    if let Err(refusal) = judge_abandon(s, work.len()) {
        return quiet(Err(refusal), s);
    }
    clear(work);
    quiet(Ok(()), shut(s))
}
