// The steps of a frame's lines on rows that lie in memory one after the other: one line read, the mix,
// the bands and the input.
//
// Its contracts cite `specs/`: how the rows of a frame lie, what the steps ask of the memory lent, and
// what they leave of it.
//
// Kept (5): the lines n and the samples f of a row stay two numbers. The definitions take them so, and a clause would name both through a struct.
// `WorkFits` is of f and of a slice that is lent.
#![tactic(auto)]

mod filters;
mod fits;
mod reads;
mod sums;

ghost use Rattle.std.specs.Prelude.{◌≡◌, true, ◌&&◌, ◌++◌, ◌*◌, ◌<◌, ◌≤◌, ltb, length, take, drop};
ghost use Rattle.delay.specs.Calls.{longest_ring};
ghost use Rattle.unit.specs.Layout.{wall, places_of, filter_at};
ghost use Rattle.rows.specs.Fits.{work_for};
ghost use Rattle.rows.specs.Workers.{WorkFits};
ghost use Rattle.rows.specs.Steps.{lines_in, lines_laid, lines_ends};
ghost use Rattle.rows.specs.Parts.{line_laid, line_ends};

use crate::filters::band_lines;
use crate::fits::lines_fit;
use crate::sums::{add_input, add_unless};
pub use filters::three_at;
pub use fits::{output_fits, work_for};
use iir::Filter;
pub use reads::read_line;
use unit::{BANDS, FILTERS, LINES, work_places};

// Steps 3 and 4 of n lines: `rows` are the input and n rows read, and after them come n to put. Gives
// the filters after them. Where the rows don't fit nothing is done (R4.6 to R4.9).
pub fn line_rows(
    n: usize,
    f: usize,
    factor: f32,
    tail: bool,
    fs: [Filter; FILTERS],
    rows: &mut [f32],
) -> [Filter; FILTERS]
    ensures value { result ≡ lines_ends n f factor tail fs rows.old }
    ensures rows_after { rows.new ≡ lines_laid n f factor tail fs rows.old }
{
    if !lines_fit(n, f, rows.len()) {
        return fs;
    }
    lines_in(n, f, factor, tail, fs, rows)
}

// The same on rows that fit.
fn lines_in(
    n: usize,
    f: usize,
    factor: f32,
    tail: bool,
    fs: [Filter; FILTERS],
    rows: &mut [f32],
) -> [Filter; FILTERS]
    requires { (0 < n) × (n ≤ wall.lines) × (f ≤ longest_ring) × (length rows.old ≡ (places_of n f).output) }
    ensures value { result ≡ (lines_in n f factor tail fs rows.old).filters ++ drop (filter_at n) fs }
    ensures rows_after { rows.new ≡ take f rows.old ++ (take (n * f) (drop f rows.old) ++ (lines_in n f factor tail fs rows.old).put) }
{
    let p = work_places(n, f);
    // The rows are those of n lines, twice: nothing is refused.
    let _ = mixer::mix_rows(n, factor, &mut rows[p.reads..]);
    let gs = band_lines(n, f, fs, &mut rows[p.mixed..]);
    add_unless(tail, n, f, rows);
    gs
}

// Step 4 of line i on a work memory that holds the input and the rows mixed: makes the row to put, and
// gives the filters after it. On memory that isn't one of such frames nothing is done (R5.13).
pub fn make_line(
    i: usize,
    f: usize,
    tail: bool,
    fs: [Filter; FILTERS],
    work: &mut [f32],
) -> [Filter; FILTERS]
    ensures value { result ≡ line_ends wall f i fs (ltb i wall.lines && work_for wall f (length work.old)) work.old }
    ensures work_after { work.new ≡ line_laid wall f i tail fs (ltb i wall.lines && work_for wall f (length work.old)) work.old }
{
    if !((i < LINES) & work_for(f, work.len())) {
        return fs;
    }
    wall_line(i, f, tail, fs, work)
}

// The same on memory that is.
fn wall_line(
    i: usize,
    f: usize,
    tail: bool,
    fs: [Filter; FILTERS],
    work: &mut [f32],
) -> [Filter; FILTERS]
    requires { (i < wall.lines) × WorkFits wall f (length work.old) }
    ensures value { result ≡ line_ends wall f i fs true work.old }
    ensures work_after { work.new ≡ line_laid wall f i tail fs true work.old }
{
    let p = work_places(LINES, f);
    let b = p.mixed + i * f;
    let e = b + f;
    let gs = three_at(BANDS * i, fs, &mut work[b..e]);
    add_input(tail, f, &mut work[0..e]);
    gs
}
