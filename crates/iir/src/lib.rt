// The filter of nine numbers: one step, a run over a row, and three bands in one pass.
//
// Its contracts cite `specs/`: the step, the runs, and the tests of a filter's nine numbers.
#![tactic(auto)]

ghost use Rattle.std.specs.Prelude.{◌≡◌};
ghost use Rattle.iir.specs.Step.{from_coefficients, step};
ghost use Rattle.iir.specs.Runs.{run_out, run_end, bands_out, bands_end};
ghost use Rattle.iir.specs.Nine.{numbers, finite_filter, blank_filter};

// Five coefficients, and the last two samples that went in and that came out.
#[repr(C)]
#[derive(Clone, Copy)]
pub struct Filter {
    pub a1: f32,
    pub a2: f32,
    pub b0: f32,
    pub b1: f32,
    pub b2: f32,
    pub x1: f32,
    pub x2: f32,
    pub y1: f32,
    pub y2: f32,
}

// The filters of a line's three bands.
#[repr(C)]
#[derive(Clone, Copy)]
pub struct Bands {
    pub f0: Filter,
    pub f1: Filter,
    pub f2: Filter,
}

// A filter that no sample has gone through (R3.23).
pub fn new_from_coefficients(a1: f32, a2: f32, b0: f32, b1: f32, b2: f32) -> Filter
    ensures { result ≡ from_coefficients a1 a2 b0 b1 b2 }
{
    Filter {
        a1,
        a2,
        b0,
        b1,
        b2,
        x1: 0.0,
        x2: 0.0,
        y1: 0.0,
        y2: 0.0,
    }
}

// The filter after one sample: its `y1` is what comes out (R3.21, R3.22).
pub fn filtered(f: Filter, x: f32) -> Filter
    ensures { result ≡ step f x }
{
    let out = (((f.b0 * x + f.b1 * f.x1) + f.b2 * f.x2) - f.a1 * f.y1) - f.a2 * f.y2;
    Filter {
        a1: f.a1,
        a2: f.a2,
        b0: f.b0,
        b1: f.b1,
        b2: f.b2,
        x1: x,
        x2: f.x1,
        y1: out,
        y2: f.y1,
    }
}

// Filters a row in place, and gives the filter after it (R3.24).
pub fn run(f: Filter, xs: &mut [f32]) -> Filter
    ensures value { result ≡ run_end f xs.old }
    ensures xs_after { xs.new ≡ run_out f xs.old }
{
    let mut g = f;
    for x in xs.iter_mut() {
        g = filtered(g, *x);
        *x = g.y1;
    }
    g
}

// Filters a row in place by band 0, then 1, then 2, in one pass over it (R3.25).
#[tactic(auto, unfolding(crate::specs::Runs::bands_out, crate::specs::Runs::bands_end))]
pub fn three_bands(b: Bands, xs: &mut [f32]) -> Bands
    ensures value { result ≡ bands_end b xs.old }
    ensures xs_after { xs.new ≡ bands_out b xs.old }
{
    let mut g = b;
    for x in xs.iter_mut() {
        g.f0 = filtered(g.f0, *x);
        g.f1 = filtered(g.f1, g.f0.y1);
        g.f2 = filtered(g.f2, g.f1.y1);
        *x = g.f2.y1;
    }
    g
}

// A filter's nine numbers.
fn numbers(f: Filter) -> [f32; 9]
    ensures { result ≡ numbers f }
{
    [f.a1, f.a2, f.b0, f.b1, f.b2, f.x1, f.x2, f.y1, f.y2]
}

// Whether all nine numbers of a filter are finite (R4.14). Each is tested, also after one that is not.
pub fn is_finite(f: Filter) -> bool
    ensures { result ≡ finite_filter f }
{
    numbers(f)
        .iter()
        .fold(true, |ok, x| ok & samples::is_finite(*x))
}

// Whether all nine numbers of a filter are exactly +0 (R1.30). Each is tested here too.
// Kept (2): beside `is_finite`. A function of the test for both would be as long as the two, each of which is one chain.
pub fn is_blank(f: Filter) -> bool
    ensures { result ≡ blank_filter f }
{
    numbers(f)
        .iter()
        .fold(true, |ok, x| ok & samples::is_plus_zero(*x))
}
