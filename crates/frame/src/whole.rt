// A whole frame in the work memory, judged, and settled into the store and the output where all of it
// is finite.
ghost use Rattle.std.specs.Prelude.{◌≡◌, cond, ◌++◌, ◌+◌, ◌*◌, ◌<◌, ◌≤◌, length, take, drop};
ghost use Rattle.delay.specs.Calls.{longest_ring};
ghost use Rattle.unit.specs.Layout.{wall, places_of, bands_len, filter_at};
ghost use Rattle.stages.specs.Frame.{line_rows, new_filters, reads_of, frame_in};
ghost use Rattle.stages.specs.Settle.{settled};
ghost use Rattle.rows.specs.Rows.{rows_of, joined_rows};
ghost use Rattle.frame.specs.Parts.{rows_finite};
ghost use Rattle.frame.specs.Steps.{rows_in, finished_with_room};
ghost use Rattle.frame.specs.Workers.{LinesFit, SettleFits, FrameFits};

use crate::steps::{read_lines, settle};
use iir::Filter;
use outputs::output_row;
use rows::line_rows;
use samples::clear;
use search::all_finite;
use unit::{FILTERS, Rings, work_places};

// Steps 2 to 4: `rows` are the input, and become the input, n rows read and n to put. Gives the
// filters after them.
pub(crate) fn play_lines(
    n: usize,
    f: usize,
    factor: f32,
    tail: bool,
    rings: Rings,
    fs: [Filter; FILTERS],
    store: &[f32],
    rows: &mut [f32],
) -> [Filter; FILTERS]
    requires lines_fit { LinesFit n f rings (length store.now) (n * f) }
    requires rows_fit { (0 < n) × (length rows.old ≡ (places_of n f).output) }
    ensures value { result ≡ (line_rows n f factor tail fs (take f rows.old) (reads_of n f rings store.now)).filters ++ drop (filter_at n) fs }
    ensures rows_after { rows.new ≡ take f rows.old ++ (reads_of n f rings store.now ++ (line_rows n f factor tail fs (take f rows.old) (reads_of n f rings store.now)).put) }
{
    let p = work_places(n, f);
    let reads = p.reads;
    let mixed = p.mixed;
    read_lines(n, f, rings, store, &mut rows[reads..mixed]);
    line_rows(n, f, factor, tail, fs, rows)
}

// A whole frame in the work memory, which begins with the input. Gives the new filters.
pub(crate) fn frame_rows(
    n: usize,
    f: usize,
    factor: f32,
    divisor: f32,
    tail: bool,
    rings: Rings,
    fs: [Filter; FILTERS],
    store: &[f32],
    work: &mut [f32],
) -> [Filter; FILTERS]
    requires { FrameFits n f rings (length store.now) (length work.old) }
    ensures value { result ≡ new_filters (frame_in n f factor divisor tail rings fs (take f work.old) store.now) ++ drop (filter_at n + bands_len) fs }
    ensures work_after { work.new ≡ joined_rows (rows_in (take f work.old) (frame_in n f factor divisor tail rings fs (take f work.old) store.now)) }
{
    let p = work_places(n, f);
    let output = p.output;
    let last = p.rings;
    let a = store.len() - (work.len() - last);
    stages::copy(&store[a..], &mut work[last..]);
    let gs = play_lines(n, f, factor, tail, rings, fs, store, &mut work[0..output]);
    output_row(n, f, divisor, rings, gs, work)
}

// Whether all that a frame would keep or hand out is finite: the filters, and the work memory from
// the rows to put on.
pub(crate) fn frame_finite(n: usize, f: usize, fs: [Filter; FILTERS], work: &[f32]) -> bool
    requires { (n ≤ wall.lines) × (f ≤ longest_ring) × ((places_of n f).mixed ≤ length work.now) }
    ensures { result ≡ rows_finite fs (rows_of n f work.now) }
{
    let p = work_places(n, f);
    stages::filters_finite(fs) & all_finite(&work[p.mixed..], f)
}

// Puts the rows of a frame into the lines and its allpass rings after them, and hands its output out.
pub(crate) fn settle_frame(
    n: usize,
    f: usize,
    rings: Rings,
    work: &[f32],
    store: &mut [f32],
    output: &mut [f32],
)
    requires { SettleFits n f rings (length store.old) (length work.now) (length output.old) }
    ensures store_after { store.new ≡ settled n f rings (rows_of n f work.now).mixed (rows_of n f work.now).rings store.old }
    ensures output_after { output.new ≡ (rows_of n f work.now).output }
{
    let p = work_places(n, f);
    let mixed = p.mixed;
    let out = p.output;
    let last = p.rings;
    settle(n, f, rings, &work[mixed..out], &work[last..], store);
    stages::copy(&work[out..last], output);
}

// The same if `ok`, and else nothing.
pub(crate) fn settle_if(
    ok: bool,
    n: usize,
    f: usize,
    rings: Rings,
    work: &[f32],
    store: &mut [f32],
    output: &mut [f32],
)
    requires { SettleFits n f rings (length store.old) (length work.now) (length output.old) }
    ensures store_after { store.new ≡ cond ok (settled n f rings (rows_of n f work.now).mixed (rows_of n f work.now).rings store.old) store.old }
    ensures output_after { output.new ≡ cond ok (rows_of n f work.now).output output.old }
{
    if !ok {
        return;
    }
    settle_frame(n, f, rings, work, store, output);
}

// Judges a frame that lies in the work memory, its filters `fs`; where all of it is finite, puts it
// into the store and the output too. The work memory is cleared.
pub(crate) fn finish_frame(
    n: usize,
    f: usize,
    rings: Rings,
    fs: [Filter; FILTERS],
    store: &mut [f32],
    work: &mut [f32],
    output: &mut [f32],
) -> bool
    requires { SettleFits n f rings (length store.old) (length work.old) (length output.old) }
    ensures value { result ≡ rows_finite fs (rows_of n f work.old) }
    ensures store_after { store.new ≡ (finished_with_room n f rings fs store.old work.old output.old).store }
    ensures work_after { work.new ≡ (finished_with_room n f rings fs store.old work.old output.old).work }
    ensures output_after { output.new ≡ (finished_with_room n f rings fs store.old work.old output.old).output }
{
    let ok = frame_finite(n, f, fs, work);
    settle_if(ok, n, f, rings, work, store, output);
    clear(work);
    ok
}
