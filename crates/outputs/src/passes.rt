// The output of the rows read: their mean, both allpass stages, and the tone's filters.
ghost use Rattle.std.specs.Prelude.{◌≡◌, true, ◌+◌, ◌%◌, ◌≤◌, length, take, drop};
ghost use Rattle.delay.specs.Calls.{longest_ring};
ghost use Rattle.unit.specs.Layout.{wall, total, places_of};
ghost use Rattle.outputs.specs.Steps.{output_laid, output_ends};
ghost use Rattle.outputs.specs.Workers.{both_passed};

use crate::sums::sum_row;
use iir::Filter;
use rows::three_at;
use unit::{AllpassRings, BANDS, FILTERS, work_places};

// Both allpass stages over a row, after which their four rings lie.
pub(crate) fn pass_both(f: usize, passes: AllpassRings, rows: &mut [f32])
    requires { (f ≤ longest_ring) × (f % 4 ≡ 0) × (length rows.old ≡ f + total passes.lengths) }
    ensures { rows.new ≡ both_passed f passes (drop f rows.old) (take f rows.old) }
{
    let ps = passes.lengths;
    let qs = passes.cursors;
    let lx = ps[0];
    let ly = ps[1];
    let cx = qs[0];
    let cy = qs[1];
    allpass::pass_stage(rows, f, f, lx, ly, cx, cy);
    let at = f + lx + ly;
    let mx = ps[2];
    let my = ps[3];
    let dx = qs[2];
    let dy = qs[3];
    allpass::pass_stage(rows, f, at, mx, my, dx, dy);
}

// Step 5 on a work memory of n lines and frames of f, with these allpass rings. Gives the filters after
// it.
pub(crate) fn output_in(
    n: usize,
    f: usize,
    divisor: f32,
    passes: AllpassRings,
    fs: [Filter; FILTERS],
    work: &mut [f32],
) -> [Filter; FILTERS]
    requires { (n ≤ wall.lines) × (f ≤ longest_ring) × (f % 4 ≡ 0) × (length work.old ≡ (places_of n f).rings + total passes.lengths) }
    ensures value { result ≡ output_ends n f divisor passes fs true work.old }
    ensures work_after { work.new ≡ output_laid n f divisor passes fs true work.old }
{
    let p = work_places(n, f);
    let reads = p.reads;
    let output = p.output;
    let rings = p.rings;
    sum_row(n, f, divisor, &mut work[reads..rings]);
    pass_both(f, passes, &mut work[output..]);
    three_at(BANDS * n, fs, &mut work[output..rings])
}
