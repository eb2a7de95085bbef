// A ring alone.
ghost use Rattle.std.specs.Prelude.{◌≡◌, length};
ghost use Rattle.delay.specs.Calls.{reset_answer, reset_ring, get_answer, get_out, put_answer, put_ring, get4_answer, put4_answer, put4_ring};
ghost use Rattle.hall.specs.Face.{faced_ring, faced_four, four};

use crate::{HallFourAnswer, HallRingAnswer};
use delay::{Cursors, Four};

// Reads as many samples as `out` takes, and moves the read cursor past them (R3.8).
pub fn hall_ring_get(ring: &[f32], c: Cursors, out: &mut [f32]) -> HallRingAnswer
    ensures value { result ≡ faced_ring (get_answer (length ring.now) c (length out.old)) }
    ensures out_after { out.new ≡ get_out ring.now c out.old }
{
    HallRingAnswer::from(delay::get(ring, c, out))
}

// Writes the samples `xs`, and moves the write cursor past them (R3.9).
pub fn hall_ring_put(ring: &mut [f32], c: Cursors, xs: &[f32]) -> HallRingAnswer
    ensures value { result ≡ faced_ring (put_answer (length ring.old) c (length xs.now)) }
    ensures ring_after { ring.new ≡ put_ring ring.old c xs.now }
{
    HallRingAnswer::from(delay::put(ring, c, xs))
}

// Reads four samples one after the other, and moves the read cursor past them (R3.11).
pub fn hall_ring_get4(ring: &[f32], c: Cursors) -> HallFourAnswer
    ensures { result ≡ faced_four (get4_answer ring.now c) }
{
    HallFourAnswer::from(delay::get4(ring, c))
}

// Writes four samples one after the other, and moves the write cursor past them (R3.12).
pub fn hall_ring_put4(
    ring: &mut [f32],
    c: Cursors,
    x0: f32,
    x1: f32,
    x2: f32,
    x3: f32,
) -> HallRingAnswer
    ensures value { result ≡ faced_ring (put4_answer (length ring.old) c) }
    ensures ring_after { ring.new ≡ put4_ring ring.old c (four x0 x1 x2 x3) }
{
    HallRingAnswer::from(delay::put4(ring, c, Four(x0, x1, x2, x3)))
}

// Silences a ring and leaves its cursors where they are (R3.18).
pub fn hall_ring_reset(ring: &mut [f32], c: Cursors) -> HallRingAnswer
    ensures value { result ≡ faced_ring (reset_answer (length ring.old) c) }
    ensures ring_after { ring.new ≡ reset_ring ring.old c }
{
    HallRingAnswer::from(delay::reset(ring, c))
}
