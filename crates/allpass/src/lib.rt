// One allpass stage over a row: both of its rings lie in the stretch that is lent with the row.
//
// Its contracts cite `specs/`: a stage of an x ring and a y ring over the fours of a row, and such a
// stage in a lent stretch.
#![tactic(auto)]

ghost use Rattle.std.specs.Prelude.{◌≡◌, ◌/◌, ◌%◌, length};
ghost use Rattle.allpass.specs.Passes.{allpass, allpass4, stage_out, stage_end, pass_out, pass_end};
ghost use Rattle.allpass.specs.Stages.{stage, parts_fit, staged};

use delay::{Cursors, Four, get4, put4};

// Runs one allpass stage over the first f samples of w, by whole fours. Its x ring is the lx
// samples from `at` on, its y ring the ly samples after those. Where these parts do not fit into w,
// nothing changes (R3.35, R3.37).
#[tactic(auto, using(crate::proofs::Stages::fit_parts, crate::proofs::Stages::staged_not))]
pub fn pass_stage(
    w: &mut [f32],
    f: usize,
    at: usize,
    lx: usize,
    ly: usize,
    cx: Cursors,
    cy: Cursors,
)
    ensures { w.new ≡ staged f at lx ly cx cy w.old }
{
    if !parts_fit(f, at, lx, ly, w.len()) {
        return;
    }
    let (row, rings) = w.split_at_mut(at);
    let (xs, rest) = rings.split_at_mut(lx);
    pass_row(&mut row[..f / 4 * 4], xs, &mut rest[..ly], cx, cy);
}

// Whether a row of f samples lies before `at`, and rings of lx and ly samples from there on within l.
#[tactic(auto, unfolding(crate::specs::Stages::parts_fit))]
fn parts_fit(f: usize, at: usize, lx: usize, ly: usize, l: usize) -> bool
    ensures { result ≡ parts_fit f at lx ly l }
{
    f <= at && at <= l && lx <= l - at && ly <= l - at - lx
}

// Sends a row of whole fours through the stage of these two rings and their cursors.
// Kept (3): the fours go by index. By `chunks_exact_mut` the proof didn't close: once its loan is over nothing is known of the
// row but its length.
fn pass_row(row: &mut [f32], xs: &mut [f32], ys: &mut [f32], mut cx: Cursors, mut cy: Cursors)
    requires { length row.old % 4 ≡ 0 }
    ensures row_after { row.new ≡ pass_out (length row.old / 4) (stage xs.old cx ys.old cy) row.old }
    ensures xs_after { xs.new ≡ (pass_end (length row.old / 4) (stage xs.old cx ys.old cy) row.old).x }
    ensures ys_after { ys.new ≡ (pass_end (length row.old / 4) (stage xs.old cx ys.old cy) row.old).y }
{
    for i in 0..row.len() / 4 {
        let four = &mut row[4 * i..4 * i + 4];
        let x = Four(four[0], four[1], four[2], four[3]);
        let y = turn(xs, ys, &mut cx, &mut cy, x);
        four.copy_from_slice(&<[f32; 4]>::from(y));
    }
}

// Takes four samples out of both rings, and puts x and what goes on of it.
// Kept (5): a ring and its cursors stay two parameters. A struct of both would hold the loan of the ring, and its cursors would
// be read into a variable before each of the four calls.
fn turn(xs: &mut [f32], ys: &mut [f32], cx: &mut Cursors, cy: &mut Cursors, x: Four) -> Four
    ensures value { result ≡ stage_out (stage xs.old cx.old ys.old cy.old) x }
    ensures rings_after { stage xs.new cx.new ys.new cy.new ≡ stage_end (stage xs.old cx.old ys.old cy.old) x }
{
    let xm = get4(xs, *cx);
    let ym = get4(ys, *cy);
    let y = allpass4(x, xm.x, ym.x);
    *cx = put4(xs, xm.cursors, x).cursors;
    *cy = put4(ys, ym.cursors, y).cursors;
    y
}

// What goes on of four samples.
fn allpass4(x: Four, xm: Four, ym: Four) -> Four
    ensures { result ≡ allpass4 x xm ym }
{
    Four(
        allpass(x.0, xm.0, ym.0),
        allpass(x.1, xm.1, ym.1),
        allpass(x.2, xm.2, ym.2),
        allpass(x.3, xm.3, ym.3),
    )
}

// By what a stage multiplies what the y ring hands out, and what goes in (R3.32).
const GAIN: f32 = 0.25;

// What goes on of one sample.
#[tactic(auto, unfolding(crate::specs::Passes::allpass))]
fn allpass(x: f32, xm: f32, ym: f32) -> f32
    ensures { result ≡ allpass x xm ym }
{
    (xm + GAIN * ym) - GAIN * x
}
