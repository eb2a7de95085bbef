// A whole frame on lent memory, by steps over the lines that know neither how many there are nor how
// long their rings are.
//
// Its contracts cite `specs/`: what the steps ask of the memory lent, and what a frame leaves of it.
//
// Kept (5): store, work memory and output go side by side, as C lends them, and each has a clause of its own. `LinesFit`, `SettleFits` and
// `FrameFits` speak of several of them, which no type of one of them could.
#![tactic(auto)]

mod steps;
mod whole;

ghost use Rattle.std.specs.Prelude.{◌≡◌, false, ◌≤◌, length};
ghost use Rattle.samples.specs.Sizes.{longest_frame};
ghost use Rattle.unit.specs.Layout.{wall};
ghost use Rattle.frame.specs.Workers.{AllWithin, WholeFits};
ghost use Rattle.frame.specs.Steps.{stepped_on, ran, ran_with_room, finished, finished_with_room};

use crate::steps::move_on;
use crate::whole::{finish_frame, frame_rows};
use delay::Cursors;
use iir::Filter;
use unit::{DIVISOR, FACTOR, FILTERS, LINES, PASS_RINGS, Rings, room_ok};

// What a frame came to: whether all of it is finite, its filters, and the cursors of the rings after
// it.
// Kept (1): `run_frame` and `close_frame` promise filters and cursors of a frame that isn't finite too.
#[derive(Clone, Copy)]
pub struct Stepped {
    pub ok: bool,
    pub filters: [Filter; FILTERS],
    pub lines: [Cursors; LINES],
    pub passes: [Cursors; PASS_RINGS],
}

// A whole frame of the wall unit, through the filters `fs` and on its rings. The work memory begins with
// the input, which a tail doesn't add.
// Where all of it is finite the frame is put into the store and the output. The work memory is cleared.
// Where the memory lent has no room for it nothing is done (R4.2).
pub fn run_frame(
    f: usize,
    rings: Rings,
    tail: bool,
    fs: [Filter; FILTERS],
    store: &mut [f32],
    work: &mut [f32],
    output: &mut [f32],
) -> Stepped
    ensures value { result ≡ (ran wall f rings tail fs store.old work.old output.old).stepped }
    ensures store_after { store.new ≡ (ran wall f rings tail fs store.old work.old output.old).store }
    ensures work_after { work.new ≡ (ran wall f rings tail fs store.old work.old output.old).work }
    ensures output_after { output.new ≡ (ran wall f rings tail fs store.old work.old output.old).output }
{
    if !room_ok(f, rings, store.len(), work.len(), output.len()) {
        return not_stepped(rings, fs);
    }
    wall_frame(f, rings, tail, fs, store, work, output)
}

// The same in memory that has room for it.
fn wall_frame(
    f: usize,
    rings: Rings,
    tail: bool,
    fs: [Filter; FILTERS],
    store: &mut [f32],
    work: &mut [f32],
    output: &mut [f32],
) -> Stepped
    requires { WholeFits wall f rings (length store.old) (length work.old) (length output.old) }
    ensures value { result ≡ (ran_with_room wall.lines f wall.factor wall.divisor tail rings fs store.old work.old output.old).stepped }
    ensures store_after { store.new ≡ (ran_with_room wall.lines f wall.factor wall.divisor tail rings fs store.old work.old output.old).store }
    ensures work_after { work.new ≡ (ran_with_room wall.lines f wall.factor wall.divisor tail rings fs store.old work.old output.old).work }
    ensures output_after { output.new ≡ (ran_with_room wall.lines f wall.factor wall.divisor tail rings fs store.old work.old output.old).output }
{
    let gs = frame_rows(LINES, f, FACTOR, DIVISOR, tail, rings, fs, store, work);
    let ok = finish_frame(LINES, f, rings, gs, store, work, output);
    stepped_on(ok, f, rings, gs)
}

// What is given where there is no room: the filters and the cursors as they were.
fn not_stepped(rings: Rings, fs: [Filter; FILTERS]) -> Stepped
    ensures { result ≡ record { ok = false; filters = fs; lines = rings.lines.cursors; passes = rings.passes.cursors } }
{
    let lines = rings.lines.cursors;
    let passes = rings.passes.cursors;
    Stepped {
        ok: false,
        filters: fs,
        lines,
        passes,
    }
}

// What a frame came to, its filters `fs`, with the cursors moved on.
fn stepped_on(ok: bool, f: usize, rings: Rings, fs: [Filter; FILTERS]) -> Stepped
    requires { (f ≤ longest_frame) × AllWithin wall rings }
    ensures { result ≡ stepped_on f rings ok fs }
{
    let mut lines = rings.lines.cursors;
    let mut passes = rings.passes.cursors;
    move_on(f, &rings.lines.lengths, &mut lines);
    move_on(f, &rings.passes.lengths, &mut passes);
    Stepped {
        ok,
        filters: fs,
        lines,
        passes,
    }
}

// The end of a frame that lies in the work memory: where all of it is finite, it is put into the
// store and the output. The work memory is cleared. Where the memory lent has no room for a frame
// nothing is done (R5.21 to R5.23).
pub fn close_frame(
    f: usize,
    rings: Rings,
    fs: [Filter; FILTERS],
    store: &mut [f32],
    work: &mut [f32],
    output: &mut [f32],
) -> Stepped
    ensures value { result ≡ (finished wall f rings fs store.old work.old output.old).stepped }
    ensures store_after { store.new ≡ (finished wall f rings fs store.old work.old output.old).store }
    ensures work_after { work.new ≡ (finished wall f rings fs store.old work.old output.old).work }
    ensures output_after { output.new ≡ (finished wall f rings fs store.old work.old output.old).output }
{
    if !room_ok(f, rings, store.len(), work.len(), output.len()) {
        return not_stepped(rings, fs);
    }
    wall_close(f, rings, fs, store, work, output)
}

// The same in memory that has room for it.
fn wall_close(
    f: usize,
    rings: Rings,
    fs: [Filter; FILTERS],
    store: &mut [f32],
    work: &mut [f32],
    output: &mut [f32],
) -> Stepped
    requires { WholeFits wall f rings (length store.old) (length work.old) (length output.old) }
    ensures value { result ≡ (finished_with_room wall.lines f rings fs store.old work.old output.old).stepped }
    ensures store_after { store.new ≡ (finished_with_room wall.lines f rings fs store.old work.old output.old).store }
    ensures work_after { work.new ≡ (finished_with_room wall.lines f rings fs store.old work.old output.old).work }
    ensures output_after { output.new ≡ (finished_with_room wall.lines f rings fs store.old work.old output.old).output }
{
    let ok = finish_frame(LINES, f, rings, fs, store, work, output);
    stepped_on(ok, f, rings, fs)
}
