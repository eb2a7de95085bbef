// Whether the memory lent is what the steps ask, judged without a sum that may not fit.
ghost use Rattle.std.specs.Prelude.{◌≡◌};
ghost use Rattle.unit.specs.Layout.{wall};
ghost use Rattle.rows.specs.Fits.{few_rows, lines_fit, output_fits, work_for};

use delay::LONGEST_RING;
use samples::frame_ok;
use unit::{LINES, PASS_RINGS, is_total, work_ok, work_places};

// From one line to all of the wall unit's, and rows no longer than a ring may be.
pub(crate) fn few_rows(n: usize, f: usize) -> bool
    ensures { result ≡ few_rows n f }
{
    (1 <= n) & ((n <= LINES) & (f <= LONGEST_RING))
}

// The input, n rows read and n mixed.
pub(crate) fn lines_fit(n: usize, f: usize, len: usize) -> bool
    ensures { result ≡ lines_fit n f len }
{
    few_rows(n, f) && len == work_places(n, f).output
}

// The input, whole rows read, mixed and of the output, and the allpass rings (R3.37).
pub fn output_fits(n: usize, f: usize, ps: [usize; PASS_RINGS], len: usize) -> bool
    ensures { result ≡ output_fits n f ps len }
{
    if !few_rows(n, f) {
        return false;
    }
    let p = work_places(n, f);
    let rows = p.rings;
    if len < rows {
        return false;
    }
    (f % 4 == 0) & is_total(&ps, len - rows)
}

// A work memory of frames of f samples (R3.37).
pub fn work_for(f: usize, work: usize) -> bool
    ensures { result ≡ work_for wall f work }
{
    frame_ok(f) & work_ok(f, work)
}
