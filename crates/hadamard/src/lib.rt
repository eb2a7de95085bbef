// The mix of one sample of each line, by the signs of a Hadamard matrix.
//
// Its contracts cite `specs/`: the mix of one sample of n lines. What it makes of n rows stands there
// too.
#![tactic(auto)]

ghost use Rattle.std.specs.Prelude.{◌≡◌, ◌<◌, length};
ghost use Rattle.samples.specs.Answers.{accept};
ghost use Rattle.hadamard.specs.Mix.{minus, plus_minus, mix_at, mixed, quarter, width, judged_sample};

use samples::{Answer, Refusal, need};

// How many lines the mix on its own is of (R3.29).
const WIDTH: usize = 16;

// What it multiplies each sum by (R3.28).
const QUARTER: f32 = 0.25;

// Whether row r of the mix takes column c with a minus (R3.26).
#[tactic(auto, unfolding(crate::specs::Mix::minus))]
pub fn minus(r: usize, c: usize) -> bool
    ensures { result ≡ minus r c }
{
    usize::count_ones(r & c) % 2 == 1
}

// Mixes one sample of each of sixteen lines (R3.29).
#[tactic(auto, unfolding(crate::specs::Mix::judged_sample))]
pub fn mix_sample(x: &[f32], y: &mut [f32]) -> Answer
    ensures value { result ≡ judged_sample (length x.now) (length y.old) }
    ensures y_after { y.new ≡ accept result (mixed width quarter x.now) y.old }
{
    need((x.len() == WIDTH) & (y.len() == WIDTH), Refusal::BadLength)?;
    mix_column(x, QUARTER, y);
    Ok(())
}

// Mixes one sample of each line, times k.
fn mix_column(x: &[f32], k: f32, y: &mut [f32])
    requires { (0 < length x.now) × (length y.old ≡ length x.now) }
    ensures { y.new ≡ mixed (length x.now) k x.now }
{
    for (r, sum) in y.iter_mut().enumerate() {
        *sum = mix_at(x, k, r);
    }
}

// Row r of the mix of one sample of each line, times k.
fn mix_at(x: &[f32], k: f32, r: usize) -> f32
    requires { 0 < length x.now }
    ensures { result ≡ mix_at k r x.now }
{
    let mut sum = x[0];
    for (i, sample) in x[1..].iter().enumerate() {
        sum = plus_minus(minus(r, i + 1), sum, *sample);
    }
    sum * k
}

// A sum with one number more, with a minus or without (R3.27).
pub fn plus_minus(m: bool, sum: f32, x: f32) -> f32
    ensures { result ≡ plus_minus m sum x }
{
    if m { sum - x } else { sum + x }
}
