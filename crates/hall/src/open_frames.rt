// A frame done as jobs.
ghost use Rattle.std.specs.Prelude.{◌≡◌, []};
ghost use Rattle.unit.specs.Layout.{wall};
ghost use Rattle.machine.specs.Ending.{lend, outcome_of};
ghost use Rattle.machine.specs.Whole as Play;
ghost use Rattle.machine.specs.Jobs.{opened, read_job, mix_job, line_job, output_job, done, closed, abandoned};
ghost use Rattle.hall.specs.Face.{faced, times_of};

use crate::HallAnswer;
use bands::Times;
use unit::State;

// Begins a frame of input, to be done as jobs (R2.24, R5.6 to R5.8).
pub fn hall_open_apply(
    s: State,
    t0: f32,
    t1: f32,
    t2: f32,
    coefficients: &[f32],
    input: &[f32],
    store: &[f32],
    work: &mut [f32],
) -> HallAnswer
    ensures value { result ≡ faced (outcome_of (opened wall (lend s store.now work.old) (Play.apply (times_of t0 t1 t2) coefficients.now input.now))) }
    ensures work_after { work.new ≡ (opened wall (lend s store.now work.old) (Play.apply (times_of t0 t1 t2) coefficients.now input.now)).memory.work }
{
    let t = Times {
        low: t0,
        mid: t1,
        high: t2,
    };
    HallAnswer::from(opening::open_apply(s, t, coefficients, input, store, work))
}

// Begins a frame after the input has ended, to be done as jobs (R2.25, R5.6 to R5.8).
pub fn hall_open_tail(s: State, store: &[f32], work: &mut [f32]) -> HallAnswer
    ensures value { result ≡ faced (outcome_of (opened wall (lend s store.now work.old) Play.tail)) }
    ensures work_after { work.new ≡ (opened wall (lend s store.now work.old) Play.tail).memory.work }
{
    HallAnswer::from(opening::open_tail(s, store, work))
}

// Reads a frame of a line (R2.26, R5.11).
pub fn hall_job_read(s: State, line: usize, store: &[f32], work: &mut [f32]) -> HallAnswer
    ensures value { result ≡ faced (outcome_of (done wall (lend s store.now work.old) (read_job line))) }
    ensures work_after { work.new ≡ (done wall (lend s store.now work.old) (read_job line)).memory.work }
{
    HallAnswer::from(jobs::job_read(s, line, store, work))
}

// Mixes the lines read (R2.27, R5.12).
pub fn hall_job_mix(s: State, work: &mut [f32]) -> HallAnswer
    ensures value { result ≡ faced (outcome_of (done wall (lend s [] work.old) mix_job)) }
    ensures work_after { work.new ≡ (done wall (lend s [] work.old) mix_job).memory.work }
{
    HallAnswer::from(jobs::job_mix(s, work))
}

// Sends a line mixed through its bands, and adds the input to it unless in a tail (R2.28, R5.13).
pub fn hall_job_line(s: State, line: usize, work: &mut [f32]) -> HallAnswer
    ensures value { result ≡ faced (outcome_of (done wall (lend s [] work.old) (line_job line))) }
    ensures work_after { work.new ≡ (done wall (lend s [] work.old) (line_job line)).memory.work }
{
    HallAnswer::from(jobs::job_line(s, line, work))
}

// Makes the output of the lines read (R2.29, R5.14).
pub fn hall_job_output(s: State, work: &mut [f32]) -> HallAnswer
    ensures value { result ≡ faced (outcome_of (done wall (lend s [] work.old) output_job)) }
    ensures work_after { work.new ≡ (done wall (lend s [] work.old) output_job).memory.work }
{
    HallAnswer::from(jobs::job_output(s, work))
}

// Ends a frame of which every job is done: puts its rows into the lines, writes the output, moves the
// cursors and sets the count, unless a number of it isn't finite (R2.30, R5.20 to R5.27).
pub fn hall_close(s: State, store: &mut [f32], work: &mut [f32], output: &mut [f32]) -> HallAnswer
    ensures value { result ≡ faced (outcome_of (closed wall (lend s store.old work.old) output.old)) }
    ensures store_after { store.new ≡ (closed wall (lend s store.old work.old) output.old).memory.store }
    ensures work_after { work.new ≡ (closed wall (lend s store.old work.old) output.old).memory.work }
    ensures output_after { output.new ≡ (closed wall (lend s store.old work.old) output.old).output }
{
    HallAnswer::from(closing::close(s, store, work, output))
}

// Gives an open frame up: the unit is as it was before, and the work memory is cleared (R2.31, R5.28).
pub fn hall_abandon(s: State, work: &mut [f32]) -> HallAnswer
    ensures value { result ≡ faced (outcome_of (abandoned wall (lend s [] work.old))) }
    ensures work_after { work.new ≡ (abandoned wall (lend s [] work.old)).memory.work }
{
    HallAnswer::from(closing::abandon(s, work))
}
