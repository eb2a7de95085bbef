// What the program is set to (R9.1 to R9.3): its times and filters, its unit at the start, and how many
// tail frames it plays.
ghost use Rattle.std.specs.Prelude.{◌≡◌, cond, ◌&&◌, ◌*◌, ◌%◌, ltb, eqb, replicate};
ghost use Rattle.std.specs.Float.{binary32};
ghost use Rattle.std.specs.Float.Ieee.{of_bits};
ghost use Rattle.samples.specs.Binary32.{+0};
ghost use Rattle.samples.specs.Answers.{Accepted};
ghost use Rattle.unit.specs.Layout.{wall, bands_len, filter_at};
ghost use Rattle.unit.specs.Fresh.{fresh_unit};
ghost use Rattle.unit.specs.Outcome.{outcome};
ghost use Rattle.audio_buffer.specs.declared.AudioEffectState.TheVariants.{TailComplete};
ghost use Rattle.shell.specs.Settings.{frame, rate, store_floats, times, coefficients, calls};

use bands::Times;
use samples::Frames;
use unit::{
    ALLPASS_FLOATS, BANDS, COEFFICIENTS, DELAYS_AND_RINGS, FILTERS, LINES, Outcome, PER_FILTER,
    ROWS, TONE,
};

// The program's samples a second.
const RATE: u32 = 48000;

// The samples of its frames.
pub const FRAME: usize = 128;

// The bytes of a frame, four a sample.
pub const BYTES: usize = 4 * FRAME;

// How many floats of store the program's unit is lent.
pub const STORE: usize = DELAYS_AND_RINGS + LINES * FRAME;

// And how many of work memory.
pub const WORK: usize = ROWS * FRAME + ALLPASS_FLOATS;

// Where b0 stands among the coefficients of a filter.
const B0: usize = 2;

// The three reverb times (R9.1).
pub fn times() -> Times
    ensures { result ≡ times }
{
    Times {
        low: 0.1,
        mid: 0.1,
        high: 0.1,
    }
}

// By what filter k multiplies: band 0 of a line halves, every other filter lets by.
fn b0(k: usize) -> f32
    ensures { result ≡ cond (ltb k (filter_at wall.lines) && eqb (k % bands_len) 0) (of_bits binary32 0x3f00_0000) (of_bits binary32 0x3f80_0000) }
{
    if (k < TONE) & (k % BANDS == 0) {
        0.5
    } else {
        1.0
    }
}

// The coefficients of all filters, five each (R9.3).
// Kept (3): of each five one is set. `chunks_mut` and `iter_mut().step_by(5)` go past the rest, and std says nothing of what they leave.
pub fn coefficients() -> [f32; COEFFICIENTS]
    ensures { result ≡ coefficients }
{
    let mut cs = [0.0f32; COEFFICIENTS];
    for k in 0..FILTERS {
        cs[PER_FILTER * k + B0] = b0(k);
    }
    cs
}

// The program's unit, in which nothing has sounded yet (R9.1).
pub fn start(store: &mut [f32; STORE]) -> Outcome
    ensures value { result ≡ outcome Accepted (fresh_unit wall rate frame) TailComplete }
    ensures store_after { store.new ≡ replicate store_floats +0 }
{
    reverb::fresh(RATE, FRAME, store)
}

// How many tail calls a count asks for (R9.11).
pub fn tail_calls(count: Frames) -> u32
    ensures { result ≡ calls count.0 }
{
    let n = count.0;
    if n > 0 { n as u32 } else { 0 }
}
