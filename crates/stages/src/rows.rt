// The steps of a frame on one lent stretch: rows added, divided and copied, and the filters judged.
ghost use Rattle.std.specs.Prelude.{◌≡◌, ◌++◌, ◌+◌, ◌≤◌, min, length, take, drop};
ghost use Rattle.stages.specs.Lines.{plus};
ghost use Rattle.stages.specs.Settle.{filters_finite};
ghost use Rattle.stages.specs.Steps.{added_first, divided, copied};

use iir::Filter;
use unit::FILTERS;

// Adds the first f samples of a stretch to its last f, where it has room for both (R4.8, R4.10).
pub fn add_first(rows: &mut [f32], f: usize)
    ensures { rows.new ≡ added_first f rows.old }
{
    let len = rows.len();
    if f <= len / 2 {
        add_at(rows, f, len - f);
    }
}

// Adds the first f samples to the f from `at` on, which are the last.
// Kept (3): zipped with the samples added, `iter_mut` leaves no proof of what was written.
fn add_at(rows: &mut [f32], f: usize, at: usize)
    requires { (f ≤ at) × (at + f ≡ length rows.old) }
    ensures { rows.new ≡ take at rows.old ++ plus (drop at rows.old) (take f rows.old) }
{
    let (front, last) = rows.split_at_mut(at);
    for (t, x) in last.iter_mut().enumerate() {
        *x += front[t];
    }
}

// Divides every sample (R4.10).
pub fn divide(xs: &mut [f32], divisor: f32)
    ensures { xs.new ≡ divided divisor xs.old }
{
    for x in xs.iter_mut() {
        *x /= divisor;
    }
}

// Copies as much of `src` as `dst` has room for (R4.18, R5.22).
pub fn copy(src: &[f32], dst: &mut [f32])
    ensures { dst.new ≡ copied src.now dst.old }
{
    let n = src.len().min(dst.len());
    dst[..n].copy_from_slice(&src[..n]);
}

// Whether all numbers of all filters are finite (R4.14).
pub fn filters_finite(fs: [Filter; FILTERS]) -> bool
    ensures { result ≡ filters_finite fs }
{
    fs.iter().all(|f| iir::is_finite(*f))
}
