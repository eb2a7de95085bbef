// The delay values of the sixteen lines: for each line the power of its prime that is nearest to a
// number of samples, which grows with the reverb time. Beside the primes, the four ring delays.
//
// Its contracts cite `specs/`: the two tables (Table), the nearest power (Power) and the delay values
// with the answers of their calls (Values).
#![tactic(auto)]

ghost use Rattle.std.specs.Prelude.{◌≡◌, ◌<◌, ◌≤◌, true, length, Err};
ghost use Rattle.samples.specs.Answers.{Accepted, accept};
ghost use Rattle.samples.specs.Sizes.{rate_ok};
ghost use Rattle.bands.specs.Times.{time_ok};
ghost use Rattle.primes.specs.Table.{primes_len, prime_at, delay_at};
ghost use Rattle.primes.specs.Power.{nearest_power};
ghost use Rattle.primes.specs.Values.{valued, delay_min, value_from, values_from, judged_time, judged_index, judged_min, judged_power, judged_value, judged_values};

use bands::time_ok;
use samples::{Answer, Refusal, need, rate_ok};

// How many lines have a prime.
const LINES: usize = 16;

// The prime of each line.
pub const PRIMES: [u32; LINES] = [2, 3, 5, 7, 11, 13, 17, 19, 23, 29, 31, 37, 41, 43, 47, 53];

// The ring delays: line i has that of i mod 4.
pub const DELAYS: [usize; 4] = [225, 341, 441, 556];

// What the least delays of all lines sum up to, as a part of the reverb time.
const SUM_OF_TIME: f32 = 0.15;

// The parts of that sum, one a line.
const SUM_PARTS: f32 = 16.0;

// An answer with a value.
// Kept (1): R6.21 has a refused call give 0, and an `Err` would give none.
#[derive(Clone, Copy)]
pub struct Value {
    pub answer: Answer,
    pub value: u32,
}

// A line that the table has a prime for.
#[derive(Clone, Copy)]
struct Line {
    index: usize,
    ghost in_table: { index < primes_len },
}

impl Line {
    // Its prime.
    fn prime(self) -> u32
        ensures { result ≡ prime_at self.index }
    {
        PRIMES[self.index]
    }

    // The power of its prime that is nearest to x.
    fn power(self, x: u32) -> u32
        requires { x ≤ 200000 }
        ensures { result ≡ nearest_power (prime_at self.index) x }
    {
        nearest_power(u64::from(self.prime()), u64::from(x)) as u32
    }

    // Its delay value, from the least delay and a random number.
    fn value(self, least: u32, random: u16) -> u32
        requires { least ≤ 192000 }
        ensures { result ≡ value_from least random self.index }
    {
        self.power(least + u32::from(random % 101))
    }
}

// The prime of a line (R6.16).
pub fn prime(index: usize) -> Value
    ensures { result ≡ valued (judged_index index) (prime_at index) }
{
    match judge_index(index) {
        Ok(()) => given(Line { index }.prime()),
        Err(refusal) => refused(refusal),
    }
}

// The ring delay of a line, in samples (R1.10).
pub fn delay(line: usize) -> usize
    ensures { result ≡ delay_at line }
{
    DELAYS[line % 4]
}

// The least delay of a line, in samples (R6.17).
pub fn delay_min(time: f32, rate: u32) -> Value
    ensures { result ≡ valued (judged_min time rate) (delay_min time rate) }
{
    match judge_min(time, rate) {
        Ok(()) => given(least(time, rate)),
        Err(refusal) => refused(refusal),
    }
}

// The power of a prime of the table that is nearest to x (R6.18).
pub fn prime_power(x: u32, index: usize) -> Value
    ensures { result ≡ valued (judged_power x index) (nearest_power (prime_at index) x) }
{
    match judge_power(x, index) {
        Ok(()) => given(Line { index }.power(x)),
        Err(refusal) => refused(refusal),
    }
}

// The delay value of one line, from its random number (R6.19).
pub fn delay_value(time: f32, rate: u32, random: u16, index: usize) -> Value
    ensures { result ≡ valued (judged_value time rate index) (value_from (delay_min time rate) random index) }
{
    match judge_value(time, rate, index) {
        Ok(()) => given(Line { index }.value(least(time, rate), random)),
        Err(refusal) => refused(refusal),
    }
}

// The delay values of all sixteen lines, from their random numbers (R6.20).
pub fn delay_values(time: f32, rate: u32, randoms: &[u16], out: &mut [u32]) -> Answer
    ensures value { result ≡ judged_values time rate (length randoms.now) (length out.old) }
    ensures out_after { out.new ≡ accept (judged_values time rate (length randoms.now) (length out.old)) (values_from (delay_min time rate) 0 randoms.now) out.old }
{
    judge_values(time, rate, randoms.len(), out.len())?;
    set_values(least(time, rate), randoms, out);
    Ok(())
}

// The value of an accepted call.
fn given(value: u32) -> Value
    ensures { result ≡ valued Accepted value }
{
    Value {
        answer: Ok(()),
        value,
    }
}

// What a refused call gives.
fn refused(refusal: Refusal) -> Value
    ensures { result ≡ valued (Err refusal) 0 }
{
    Value {
        answer: Err(refusal),
        value: 0,
    }
}

// Whether the table has an index: the answer of `prime`.
fn judge_index(index: usize) -> Answer
    ensures { result ≡ judged_index index }
{
    need(index < LINES, Refusal::BadIndex)
}

// The answer of `prime_power`.
fn judge_power(x: u32, index: usize) -> Answer
    ensures { result ≡ judged_power x index }
{
    need(x <= 200000, Refusal::BadIndex)?;
    judge_index(index)
}

// The answer of `delay_min`.
fn judge_min(time: f32, rate: u32) -> Answer
    ensures { result ≡ judged_min time rate }
{
    need(rate_ok(rate), Refusal::BadSize)?;
    judge_time(time)
}

// The answer of `delay_value`.
fn judge_value(time: f32, rate: u32, index: usize) -> Answer
    ensures { result ≡ judged_value time rate index }
{
    need(rate_ok(rate), Refusal::BadSize)?;
    judge_index(index)?;
    judge_time(time)
}

// The answer of `delay_values`, by the lengths of its slices.
fn judge_values(time: f32, rate: u32, randoms: usize, out: usize) -> Answer
    ensures { result ≡ judged_values time rate randoms out }
{
    need(rate_ok(rate), Refusal::BadSize)?;
    need((randoms == LINES) & (out == LINES), Refusal::BadLength)?;
    judge_time(time)
}

// Whether a time is taken: what every judge of a time asks last.
fn judge_time(time: f32) -> Answer
    ensures { result ≡ judged_time time }
{
    need(time_ok(time), Refusal::BadTime)
}

// The least delay of a line at a time and a rate in range.
fn least(time: f32, rate: u32) -> u32
    requires time_fits { time_ok time ≡ true }
    requires rate_fits { rate_ok rate ≡ true }
    ensures { (result ≡ delay_min time rate) × (result ≤ 192000) }
{
    let sum = SUM_OF_TIME * time * std::num::nearest_u32_to_f32(rate);
    std::num::truncating_f32_to_u64(sum / SUM_PARTS) as u32
}

// The power of p that is nearest to x in ratio: from 1 up, the first v for which x is below v times
// the root of p.
fn nearest_power(p: u64, x: u64) -> u64
    requires { (2 ≤ p) × (p ≤ 53) × (x ≤ 200000) }
    ensures { (result ≡ nearest_power p x) × (result ≤ 10600000) }
{
    let mut v = 1u64;
    while v * v * p <= x * x {
        v *= p;
    }
    v
}

// Sets the delay value of every line.
// Kept (3): zipped with the random numbers, `iter_mut` leaves no proof of what was written.
fn set_values(least: u32, randoms: &[u16], out: &mut [u32])
    requires { (least ≤ 192000) × (length randoms.now ≡ primes_len) × (length out.old ≡ primes_len) }
    ensures { out.new ≡ values_from least 0 randoms.now }
{
    for (i, value) in out.iter_mut().enumerate() {
        *value = Line { index: i }.value(least, randoms[i]);
    }
}
