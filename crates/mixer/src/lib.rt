// The mix of the rows of all lines, by the signs of a Hadamard matrix.
//
// Its contracts cite `specs/`: what a pass over a row makes of it, and what the passes come to.
//
// Kept (5): that rows are n of f samples is a fact of slices that each worker is lent apart. A struct of the slices would be taken apart in each worker again.
#![tactic(auto)]

ghost use Rattle.std.specs.Prelude.{◌≡◌, ◌++◌, ◌+◌, ◌*◌, ◌/◌, ◌%◌, ◌<◌, ◌≤◌, not, map, length};
ghost use Rattle.samples.specs.Binary32.{◌⊗◌};
ghost use Rattle.samples.specs.Answers.{accept};
ghost use Rattle.hadamard.specs.Mix.{each};
ghost use Rattle.hadamard.specs.Rows.{mixed_row, mixed_rows, judged_rows, rows_mixed};
ghost use Rattle.mixer.specs.Passes.{signed, signed_twice, row_sum};

use hadamard::{minus, plus_minus};
use samples::{Answer, Refusal, need};

// Mixes the rows of all lines, which `rows` begins with, into as many rows after them (R3.30, R3.31).
#[tactic(auto, using(hadamard::proofs::Laws::judged_is))]
pub fn mix_rows(lines: usize, factor: f32, rows: &mut [f32]) -> Answer
    ensures value { result ≡ judged_rows lines (length rows.old) }
    ensures rows_after { rows.new ≡ accept result (rows_mixed lines factor rows.old) rows.old }
{
    let f = row_length(lines, rows.len());
    let read = lines * f;
    need(read + read == rows.len(), Refusal::BadLength)?;
    let (reads, mixed) = rows.split_at_mut(read);
    mix_all(reads, lines, f, factor, mixed);
    Ok(())
}

// The length of a row, where two rows for each line take `len` samples.
fn row_length(lines: usize, len: usize) -> usize
    ensures { result ≡ len / (2 * lines) }
{
    if lines == 0 { 0 } else { len / 2 / lines }
}

// Mixes n rows of f samples into n others, times k: two rows at a time where n is even.
fn mix_all(reads: &[f32], n: usize, f: usize, k: f32, mixed: &mut [f32])
    requires { (length reads.now ≡ n * f) × (length mixed.old ≡ n * f) }
    ensures { mixed.new ≡ mixed_rows n f k reads.now }
{
    if n % 2 == 0 {
        mix_twos(reads, n, f, k, mixed);
    } else {
        mix_ones(reads, n, f, k, mixed);
    }
}

// Mixes as `mix_all` does, one row after the other.
// Kept (3): a row's signs go by its index, and std says nothing of what `chunks_mut` leaves.
fn mix_ones(reads: &[f32], n: usize, f: usize, k: f32, mixed: &mut [f32])
    requires { (length reads.now ≡ n * f) × (length mixed.old ≡ n * f) }
    ensures { mixed.new ≡ mixed_rows n f k reads.now }
{
    for r in 0..n {
        let at = r * f;
        mix_row(reads, n, k, r, &mut mixed[at..at + f]);
    }
}

// Mixes as `mix_all` does, two rows at a time.
// Kept (3): as in `mix_ones`.
fn mix_twos(reads: &[f32], n: usize, f: usize, k: f32, mixed: &mut [f32])
    requires { (n % 2 ≡ 0) × (length reads.now ≡ n * f) × (length mixed.old ≡ n * f) }
    ensures { mixed.new ≡ mixed_rows n f k reads.now }
{
    for i in 0..n / 2 {
        let at = 2 * i * f;
        mix_two(reads, n, f, k, 2 * i, &mut mixed[at..at + f + f]);
    }
}

// Mixes n rows into row r of the mix, times k.
fn mix_row(reads: &[f32], n: usize, k: f32, r: usize, row: &mut [f32])
    requires { (0 < n) × (length reads.now ≡ n * length row.old) }
    ensures { row.new ≡ mixed_row n (length row.old) k reads.now r }
{
    sum_row(reads, n, r, row);
    scale_row(k, row);
}

// Mixes n rows of f samples into row r of the mix and the row after it, times k. n and r are even.
fn mix_two(reads: &[f32], n: usize, f: usize, k: f32, r: usize, two: &mut [f32])
    requires { (n % 2 ≡ 0) × (r % 2 ≡ 0) × (r < n) × (length reads.now ≡ n * f) × (length two.old ≡ f + f) }
    ensures { two.new ≡ mixed_row n f k reads.now r ++ mixed_row n f k reads.now (r + 1) }
{
    let (low, high) = two.split_at_mut(f);
    sum_two(reads, n, r, low, high);
    scale_row(k, two);
}

// Sums the first n rows by the signs of row r.
// Kept (3): no plainer. A row's sign goes by its index, and `chunks` takes no row of no samples.
fn sum_row(reads: &[f32], n: usize, r: usize, sum: &mut [f32])
    requires { (0 < n) × (n * length sum.old ≤ length reads.now) }
    ensures { sum.new ≡ each (length sum.old) (row_sum r n (length sum.old) reads.now) }
{
    let f = sum.len();
    sum.copy_from_slice(&reads[..f]);
    for c in 1..n {
        let at = c * f;
        plus_minus_row(minus(r, c), &reads[at..at + f], sum);
    }
}

// Sums the first n rows by the signs of row r, and by those of the row after it, two rows a pass. n and r are even.
// Kept (3): as in `sum_row`.
fn sum_two(reads: &[f32], n: usize, r: usize, low: &mut [f32], high: &mut [f32])
    requires { (n % 2 ≡ 0) × (r % 2 ≡ 0) × (r < n) × (n * length low.old ≤ length reads.now) × (length high.old ≡ length low.old) }
    ensures low_after { low.new ≡ each (length low.old) (row_sum r n (length low.old) reads.now) }
    ensures high_after { high.new ≡ each (length low.old) (row_sum (r + 1) n (length low.old) reads.now) }
{
    let f = low.len();
    start_two(minus(r, 1), &reads[..f], &reads[f..f + f], low, high);
    for i in 1..n / 2 {
        let a = 2 * i * f;
        let b = a + f;
        cross_row(minus(r, 2 * i), &reads[a..b], &reads[b..b + f], low, high);
    }
}

// Adds one row to another, into two sums: into the first with a minus or without, into the second with the other sign.
// Kept (3): tried with `zip`, and the proof did not close: after it the samples of a row that is written are not known.
fn start_two(m: bool, xs: &[f32], ys: &[f32], low: &mut [f32], high: &mut [f32])
    requires { (length xs.now ≡ length low.old) × (length ys.now ≡ length low.old) × (length high.old ≡ length low.old) }
    ensures low_after { low.new ≡ signed m ys.now xs.now }
    ensures high_after { high.new ≡ signed (not m) ys.now xs.now }
{
    for t in 0..low.len() {
        let (x, y) = (xs[t], ys[t]);
        low[t] = plus_minus(m, x, y);
        high[t] = plus_minus(!m, x, y);
    }
}

// Adds two rows to two sums: to the first both with a minus or without, to the second the row `ys` with the other sign.
// Kept (3): tried with `zip`, and the proof did not close: after it the samples of a row that is written are not known.
fn cross_row(m: bool, xs: &[f32], ys: &[f32], low: &mut [f32], high: &mut [f32])
    requires { (length xs.now ≡ length low.old) × (length ys.now ≡ length low.old) × (length high.old ≡ length low.old) }
    ensures low_after { low.new ≡ signed_twice m m xs.now ys.now low.old }
    ensures high_after { high.new ≡ signed_twice m (not m) xs.now ys.now high.old }
{
    for t in 0..low.len() {
        let x = xs[t];
        let y = ys[t];
        low[t] = plus_minus(m, plus_minus(m, low[t], x), y);
        high[t] = plus_minus(!m, plus_minus(m, high[t], x), y);
    }
}

// Adds a row to a sum, with a minus or without.
// Kept (3): tried with `zip`, and the proof did not close: after it the samples of a row that is written are not known.
fn plus_minus_row(m: bool, xs: &[f32], sum: &mut [f32])
    requires { length xs.now ≡ length sum.old }
    ensures { sum.new ≡ signed m xs.now sum.old }
{
    for (t, s) in sum.iter_mut().enumerate() {
        *s = plus_minus(m, *s, xs[t]);
    }
}

// Multiplies a row by k.
fn scale_row(k: f32, row: &mut [f32])
    ensures { row.new ≡ map (λ x. x ⊗ k) row.old }
{
    for x in row.iter_mut() {
        *x *= k;
    }
}
