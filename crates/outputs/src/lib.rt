// The output of a frame, in its work memory: the mean of the rows read, both allpass stages and the
// tone's filters.
//
// Its contracts cite `specs/`: what step 5 leaves of the memory lent and of the filters.
#![tactic(auto)]

mod passes;
mod sums;

ghost use Rattle.std.specs.Prelude.{◌≡◌, true, length};
ghost use Rattle.unit.specs.Layout.{wall};
ghost use Rattle.unit.specs.Room.{passes_with};
ghost use Rattle.rows.specs.Fits.{work_for};
ghost use Rattle.rows.specs.Workers.{WorkFits};
ghost use Rattle.outputs.specs.Steps.{output_laid, output_ends, output_made, output_after};

use crate::passes::output_in;
use delay::Cursors;
use iir::Filter;
use rows::{output_fits, work_for};
use unit::{AllpassRings, DIVISOR, FILTERS, LINES, PASS_LENGTHS, PASS_RINGS, Rings};

// Step 5 of n lines on a work memory that holds the rows read and the floats of the allpass rings, whose
// lengths and cursors `rings` has: makes the output, and gives the filters after it. Where there are no
// such lines or frames, or the memory isn't as long as they ask, nothing is done (R4.10 to R4.12).
pub fn output_row(
    n: usize,
    f: usize,
    divisor: f32,
    rings: Rings,
    fs: [Filter; FILTERS],
    work: &mut [f32],
) -> [Filter; FILTERS]
    ensures value { result ≡ output_after n f divisor rings fs work.old }
    ensures work_after { work.new ≡ output_made n f divisor rings fs work.old }
{
    let ps = rings.passes.lengths;
    if !output_fits(n, f, ps, work.len()) {
        return fs;
    }
    output_in(n, f, divisor, rings.passes, fs, work)
}

// The same of the wall unit's lines and allpass rings, these at the cursors `qs` (R5.14).
pub fn make_output(
    f: usize,
    qs: [Cursors; PASS_RINGS],
    fs: [Filter; FILTERS],
    work: &mut [f32],
) -> [Filter; FILTERS]
    ensures value { result ≡ output_ends wall.lines f wall.divisor (passes_with wall qs) fs (work_for wall f (length work.old)) work.old }
    ensures work_after { work.new ≡ output_laid wall.lines f wall.divisor (passes_with wall qs) fs (work_for wall f (length work.old)) work.old }
{
    if !work_for(f, work.len()) {
        return fs;
    }
    wall_output(f, qs, fs, work)
}

// The same on memory that is.
fn wall_output(
    f: usize,
    qs: [Cursors; PASS_RINGS],
    fs: [Filter; FILTERS],
    work: &mut [f32],
) -> [Filter; FILTERS]
    requires { WorkFits wall f (length work.old) }
    ensures value { result ≡ output_ends wall.lines f wall.divisor (passes_with wall qs) fs true work.old }
    ensures work_after { work.new ≡ output_laid wall.lines f wall.divisor (passes_with wall qs) fs true work.old }
{
    let passes = AllpassRings {
        lengths: PASS_LENGTHS,
        cursors: qs,
    };
    output_in(LINES, f, DIVISOR, passes, fs, work)
}
