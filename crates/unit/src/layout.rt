// How the wall unit is built and how its memory lies, each number once. The other crates use these
// names, and prove of them what specs/Layout.antt says.
ghost use Rattle.std.specs.Prelude.{◌≡◌, ◌&&◌, cond, ◌*◌, ◌≤◌, leb, replicate, take};
ghost use Rattle.samples.specs.Sizes.{longest_frame, frame_ok};
ghost use Rattle.delay.specs.Calls.{longest_ring};
ghost use Rattle.unit.specs.UnitState.{of_state};
ghost use Rattle.unit.specs.Layout.{wall, lengths, total, places_of};
ghost use Rattle.unit.specs.Room.{rings_hold};

use crate::State;
use crate::room::rings_hold;
use delay::LONGEST_RING;
use primes::DELAYS;
use samples::frame_ok;

// The lines.
pub const LINES: usize = 16;

// The band filters of a line. The tone has as many.
pub const BANDS: usize = 3;

// Where the tone's filters begin: after those of the lines, line after line.
pub const TONE: usize = LINES * BANDS;

// All filters.
pub const FILTERS: usize = TONE + BANDS;

// The coefficients of a filter: a1, a2, b0, b1, b2.
pub const PER_FILTER: usize = 5;

// The coefficients that an apply is given.
pub const COEFFICIENTS: usize = FILTERS * PER_FILTER;

// The factor of the mix.
pub const FACTOR: f32 = 0.25;

// What the sum of the lines is divided by.
pub const DIVISOR: f32 = 16.0;

// The allpass rings: x0, y0, x1 and y1.
pub const PASS_RINGS: usize = 4;

// Their lengths.
pub const PASS_LENGTHS: [usize; PASS_RINGS] = [225, 341, 341, 441];

// The floats of all four: 1,348.
pub const ALLPASS_FLOATS: usize = PASS_LENGTHS[0]
    + PASS_LENGTHS[1]
    + PASS_LENGTHS[2]
    + PASS_LENGTHS[3];

// The delays of all lines, four in turn, and the allpass rings: what a store has beside a frame for each
// line, 7,600.
pub const DELAYS_AND_RINGS: usize = LINES / 4 * (DELAYS[0] + DELAYS[1] + DELAYS[2] + DELAYS[3])
    + ALLPASS_FLOATS;

// The rows of the work memory, a frame each: the input, the lines read, the lines mixed and the output.
// After them lie the allpass rings.
pub const ROWS: usize = 1 + LINES + LINES + 1;

// The mark of the mix. The marks before it are the reads'.
pub const MIX_MARK: usize = LINES;

// The mark of line 0. Those of the other lines follow.
pub const LINE_MARK: usize = MIX_MARK + 1;

// The mark of the output.
pub const OUTPUT_MARK: usize = LINE_MARK + LINES;

// The jobs of a frame, a mark each.
pub const JOBS: usize = OUTPUT_MARK + 1;

// The lengths of the lines' rings of a unit (R1.10). Where its frame is out of range there is no such
// unit, and no ring.
pub fn lengths(s: State) -> [usize; LINES]
    ensures { result ≡ cond (frame_ok s.frame) (lengths wall (of_state s)) (replicate wall.lines 0) }
{
    if !frame_ok(s.frame) {
        return [0; LINES];
    }
    lengths_of(s)
}

// The same where it is in range.
fn lengths_of(s: State) -> [usize; LINES]
    requires { s.frame ≤ longest_frame }
    ensures { result ≡ lengths wall (of_state s) }
{
    let mut ls = [0usize; LINES];
    for (i, l) in ls.iter_mut().enumerate() {
        *l = primes::delay(i) + s.frame;
    }
    ls
}

// Where the ring of line i begins in a store of lines' rings of the lengths `ls`, each of which holds a
// frame of `frame` samples; at LINES, behind the last line's, the allpass rings begin (R1.20). Where i is
// above that or a ring can't be, there is no such store, and the place is 0.
pub fn ring_place(i: usize, frame: usize, ls: [usize; LINES]) -> usize
    ensures { result ≡ cond (leb i wall.lines && rings_hold frame ls) (total (take i ls)) 0 }
{
    if !((i <= LINES) & rings_hold(frame, ls)) {
        return 0;
    }
    ring_start(i, ls)
}

// The same where there is.
fn ring_start(i: usize, ls: [usize; LINES]) -> usize
    requires { (i ≤ wall.lines) × (total ls ≤ wall.lines * longest_ring) }
    ensures { result ≡ total (take i ls) }
{
    ls[..i].iter().sum()
}

// Where the parts of a work memory begin that come after the input: the rows read, the rows mixed, the
// output and the allpass rings (R1.22).
#[derive(Clone, Copy)]
pub struct Places {
    pub reads: usize,
    pub mixed: usize,
    pub output: usize,
    pub rings: usize,
}

// The places in the work memory of n lines and a frame of f (R1.22). Where there are more lines than the
// wall unit's, or a row is longer than a ring may be, there is no such memory, and every place is 0.
pub fn work_places(n: usize, f: usize) -> Places
    ensures { result ≡ cond (leb n wall.lines && leb f longest_ring) (places_of n f) (places_of 0 0) }
{
    if !((n <= LINES) & (f <= LONGEST_RING)) {
        return places_of(0, 0);
    }
    places_of(n, f)
}

// The same where there is.
fn places_of(n: usize, f: usize) -> Places
    requires { (n ≤ wall.lines) × (f ≤ longest_ring) }
    ensures { result ≡ places_of n f }
{
    let lines = n * f;
    let mixed = f + lines;
    let output = mixed + lines;
    let rings = output + f;
    Places {
        reads: f,
        mixed,
        output,
        rings,
    }
}
