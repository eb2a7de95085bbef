// The jobs of an open frame: each call takes the state by value and gives it back.
//
// Its contracts cite the machine: how each job ends.
#![tactic(auto)]

mod steps;

ghost use Rattle.std.specs.Prelude.{◌≡◌, []};
ghost use Rattle.unit.specs.Layout.{wall};
ghost use Rattle.machine.specs.Ending.{lend, outcome_of};
ghost use Rattle.machine.specs.Jobs.{read_job, mix_job, line_job, output_job, done};

use crate::steps::{marked, mix_rows};
use judges::{judge_line, judge_mix, judge_output, judge_read};
use outputs::make_output;
use rows::{make_line, read_line};
use unit::{LINE_MARK, MIX_MARK, OUTPUT_MARK, Outcome, State, quiet, rings_of};

// Reads a frame of a line (R2.26, R5.11).
pub fn job_read(s: State, line: usize, store: &[f32], work: &mut [f32]) -> Outcome
    ensures value { result ≡ outcome_of (done wall (lend s store.now work.old) (read_job line)) }
    ensures work_after { work.new ≡ (done wall (lend s store.now work.old) (read_job line)).memory.work }
{
    if let Err(refusal) = judge_read(s, line, store.len(), work.len()) {
        return quiet(Err(refusal), s);
    }
    read_line(line, s.frame, rings_of(s), store, work);
    quiet(Ok(()), marked(s, line, s.filters))
}

// Mixes the lines read (R2.27, R5.12).
pub fn job_mix(s: State, work: &mut [f32]) -> Outcome
    ensures value { result ≡ outcome_of (done wall (lend s [] work.old) mix_job) }
    ensures work_after { work.new ≡ (done wall (lend s [] work.old) mix_job).memory.work }
{
    if let Err(refusal) = judge_mix(s, work.len()) {
        return quiet(Err(refusal), s);
    }
    mix_rows(s.frame, work);
    quiet(Ok(()), marked(s, MIX_MARK, s.filters))
}

// Sends a line mixed through its bands, and adds the input to it unless in a tail (R2.28, R5.13).
pub fn job_line(s: State, line: usize, work: &mut [f32]) -> Outcome
    ensures value { result ≡ outcome_of (done wall (lend s [] work.old) (line_job line)) }
    ensures work_after { work.new ≡ (done wall (lend s [] work.old) (line_job line)).memory.work }
{
    if let Err(refusal) = judge_line(s, line, work.len()) {
        return quiet(Err(refusal), s);
    }
    let gs = make_line(line, s.frame, s.tail, s.filters, work);
    quiet(Ok(()), marked(s, LINE_MARK + line, gs))
}

// Makes the output of the lines read (R2.29, R5.14).
pub fn job_output(s: State, work: &mut [f32]) -> Outcome
    ensures value { result ≡ outcome_of (done wall (lend s [] work.old) output_job) }
    ensures work_after { work.new ≡ (done wall (lend s [] work.old) output_job).memory.work }
{
    if let Err(refusal) = judge_output(s, work.len()) {
        return quiet(Err(refusal), s);
    }
    let gs = make_output(s.frame, s.passes, s.filters, work);
    quiet(Ok(()), marked(s, OUTPUT_MARK, gs))
}
