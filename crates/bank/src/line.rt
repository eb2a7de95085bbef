// A line alone: its three bands side by side, each two samples behind the one before it. What a band
// takes in is then known two turns before, and the three go at the pace of one.
//
// Kept (5): that a row has four samples is a fact of the slice lent; a row of fewer goes through `iir::three_bands`.
ghost use Rattle.std.specs.Prelude.{◌≡◌, [], ◌++◌, ◌-◌, ◌≤◌, length, take, drop};
ghost use Rattle.iir.specs.Runs.{bands_out, bands_end};
ghost use Rattle.bank.specs.Behind.{first_four, behind, last_four, outs, ends, in_turn};

use iir::{Bands, filtered, new_from_coefficients};
use lanes::{Four, Lanes, lane, pack, step};

// The last samples of a row, and the bands after it.
#[derive(Clone, Copy)]
pub struct Last {
    pub b: Bands,
    pub y: Four,
}

// The bands after a row's first four samples: band 0 has taken all of them, band 1 two, and band 2
// none. The fourth place is idle: its numbers are all +0 and stay so.
#[tactic(auto, unfolding(crate::specs::Behind::first_four))]
fn begin(b: Bands, x: Four) -> Lanes
    ensures { result ≡ first_four b x }
{
    let f0 = filtered(b.f0, x.v0);
    let f1 = filtered(f0, x.v1);
    let f2 = filtered(f1, x.v2);
    let f3 = filtered(f2, x.v3);
    let g0 = filtered(b.f1, f0.y1);
    let g1 = filtered(g0, f1.y1);
    pack(f3, g1, b.f2, new_from_coefficients(0.0, 0.0, 0.0, 0.0, 0.0))
}

// The bands after band 0 takes x, and each of the others what the one before it gave two turns ago.
#[tactic(auto, unfolding(crate::specs::Behind::behind))]
fn stagger(l: Lanes, x: f32) -> Lanes
    ensures { result ≡ behind l x }
{
    let y = l.y2;
    step(
        l,
        Four {
            v0: x,
            v1: y.v0,
            v2: y.v1,
            v3: 0.0,
        },
    )
}

// The bands after they have taken what is left of a row, and its last four samples.
#[tactic(auto, unfolding(crate::specs::Behind::last_four))]
fn end(l: Lanes) -> Last
    ensures { result ≡ last_four l }
{
    let g0 = filtered(lane(1, l), l.y2.v0);
    let g1 = filtered(g0, l.y1.v0);
    let h0 = filtered(lane(2, l), l.y2.v1);
    let h1 = filtered(h0, l.y1.v1);
    let h2 = filtered(h1, g0.y1);
    let h3 = filtered(h2, g1.y1);
    Last {
        b: Bands {
            f0: lane(0, l),
            f1: g1,
            f2: h3,
        },
        y: Four {
            v0: h0.y1,
            v1: h1.y1,
            v2: h2.y1,
            v3: h3.y1,
        },
    }
}

// Takes the row from its fifth sample on, and puts each sample that comes out four places back.
//
// Kept (3): each turn reads one place and writes another of the same row, and an iterator lends one place a turn.
fn run_behind(b: Lanes, xs: &mut [f32]) -> Lanes
    requires { 4 ≤ length xs.old }
    ensures { (ends result [] ≡ ends b (drop 4 xs.old)) × (length xs.new ≡ length xs.old)
        × (take (length xs.old - 4) xs.new ++ outs result [] ≡ outs b (drop 4 xs.old)) }
{
    let mut l = b;
    for i in 0..xs.len() - 4 {
        l = stagger(l, xs[i + 4]);
        xs[i] = l.y1.v2;
    }
    l
}

// Puts the last four samples of a row.
fn put_last(y: Four, xs: &mut [f32])
    requires { 4 ≤ length xs.old }
    ensures { xs.new ≡ take (length xs.old - 4) xs.old ++ in_turn y }
{
    let at = xs.len() - 4;
    xs[at..].copy_from_slice(&[y.v0, y.v1, y.v2, y.v3]);
}

// Filters a row of four samples or more in place by a line's bands, and gives the bands after it.
pub(crate) fn long_line(b: Bands, xs: &mut [f32]) -> Bands
    requires { 4 ≤ length xs.old }
    ensures value { result ≡ bands_end b xs.old }
    ensures xs_after { xs.new ≡ bands_out b xs.old }
{
    let x = Four {
        v0: xs[0],
        v1: xs[1],
        v2: xs[2],
        v3: xs[3],
    };
    let l = run_behind(begin(b, x), xs);
    let last = end(l);
    put_last(last.y, xs);
    last.b
}
