// Rows through the band filters of their lines.
ghost use Rattle.std.specs.Prelude.{◌≡◌, cond, ◌++◌, ◌+◌, ◌*◌, ◌/◌, ◌<◌, ◌≤◌, leb, length, drop};
ghost use Rattle.samples.specs.Lists.{over};
ghost use Rattle.iir.specs.Runs.{bands_out, bands_end};
ghost use Rattle.unit.specs.Layout.{wall, filters_len, filter_at};
ghost use Rattle.bank.specs.Lines.{lines_out, lines_end};
ghost use Rattle.stages.specs.Lines.{band_rows, band_ends, three, three_of};
ghost use Rattle.rows.specs.Workers.{four_from, threes_of};

use iir::{Bands, Filter};
use lanes::FourBands;
use unit::{BANDS, FILTERS, TONE};

// The three filters from k on.
fn three_of(k: usize, fs: [Filter; FILTERS]) -> Bands
    requires { k + 2 < filters_len wall }
    ensures { result ≡ three k fs }
{
    Bands {
        f0: fs[k],
        f1: fs[k + 1],
        f2: fs[k + 2],
    }
}

// The filters with three others from k on.
fn with_three(k: usize, b: Bands, fs: [Filter; FILTERS]) -> [Filter; FILTERS]
    requires { k + 2 < filters_len wall }
    ensures { result ≡ over k (three_of b) fs }
{
    let mut gs = fs;
    gs[k] = b.f0;
    gs[k + 1] = b.f1;
    gs[k + 2] = b.f2;
    gs
}

// Filters a row by the three filters from k on, and gives the filters after it. Where there are no
// three nothing is done (R3.25).
pub fn three_at(k: usize, fs: [Filter; FILTERS], row: &mut [f32]) -> [Filter; FILTERS]
    ensures value { result ≡ cond (leb k (filter_at wall.lines)) (over k (three_of (bands_end (three k fs) row.old)) fs) fs }
    ensures row_after { row.new ≡ cond (leb k (filter_at wall.lines)) (bands_out (three k fs) row.old) row.old }
{
    if TONE < k {
        return fs;
    }
    let h = bank::one_line(three_of(k, fs), row);
    with_three(k, h, fs)
}

// Filters the rows of four lines, a quarter of `rows` each, by the twelve filters from k on, and gives
// the filters after them.
fn twelve_at(k: usize, fs: [Filter; FILTERS], rows: &mut [f32]) -> [Filter; FILTERS]
    requires { k + 11 < filters_len wall }
    ensures value { result ≡ over k (threes_of (lines_end (length rows.old / 4) (four_from k fs) rows.old)) fs }
    ensures rows_after { rows.new ≡ lines_out (length rows.old / 4) (four_from k fs) rows.old }
{
    let b0 = three_of(k, fs);
    let b1 = three_of(k + BANDS, fs);
    let b2 = three_of(k + 2 * BANDS, fs);
    let b3 = three_of(k + 3 * BANDS, fs);
    let h = bank::four_lines(FourBands { b0, b1, b2, b3 }, rows);
    let g0 = with_three(k, h.b0, fs);
    let g1 = with_three(k + BANDS, h.b1, g0);
    let g2 = with_three(k + 2 * BANDS, h.b2, g1);
    with_three(k + 3 * BANDS, h.b3, g2)
}

// Filters n rows, each by its line's three bands, and gives the filters after them. Four lines go side
// by side while as many are left.
// Kept (3): the step is four lines or one. `chunks_mut` has one step, and std says nothing of what it leaves.
pub(crate) fn band_lines(
    n: usize,
    f: usize,
    fs: [Filter; FILTERS],
    rows: &mut [f32],
) -> [Filter; FILTERS]
    requires { (n ≤ wall.lines) × (length rows.old ≡ n * f) }
    ensures value { result ≡ band_ends f n 0 fs rows.old ++ drop (filter_at n) fs }
    ensures rows_after { rows.new ≡ band_rows f n 2 fs (band_rows f n 1 fs (band_rows f n 0 fs rows.old)) }
{
    let mut gs = fs;
    let mut b = 0usize;
    let mut i = 0usize;
    while i < n {
        if 4 <= n - i {
            let e = b + 4 * f;
            let hs = twelve_at(BANDS * i, gs, &mut rows[b..e]);
            gs = hs;
            b = e;
            i += 4;
        } else {
            let e = b + f;
            let hs = three_at(BANDS * i, gs, &mut rows[b..e]);
            gs = hs;
            b = e;
            i += 1;
        }
    }
    gs
}
