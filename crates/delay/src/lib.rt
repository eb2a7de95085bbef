// Rings alone, of 1 to 65,536 samples, by which a line delays what it is given.
//
// The ring is lent, and its two cursors go in by value and come back. A call that is given cursors
// judges both, and one that is refused leaves all memory as it was.
#![tactic(auto)]

ghost use Rattle.std.specs.Prelude.{◌≡◌, length};
ghost use Rattle.delay.specs.Calls.{length_ok, judged_ring, judged_count, silent, fresh_answer, fresh_ring, reset_answer, reset_ring};
ghost use Rattle.delay.specs.Calls.{get_answer, get_out, put_answer, put_ring, get4_answer, put4_answer, put4_ring};

mod fours;
mod places;
mod runs;

use crate::fours::{read_four, write_four};
use crate::places::{advance, four_on};
use crate::runs::{read_runs, write_runs};
use samples::{Answer, Refusal, Samples, clear, need};

// Where a ring is read next, and where it is written next.
#[repr(C)]
#[derive(Clone, Copy)]
pub struct Cursors {
    pub read: Samples,
    pub write: Samples,
}

// Four samples by value.
#[repr(C)]
#[derive(Clone, Copy)]
pub struct Four(pub f32, pub f32, pub f32, pub f32);

// What a call answers, with the cursors to go on from.
// Kept (1): a refused call hands cursors out too (R3.16, R3.17), and an `Err` has no place for them.
#[derive(Clone, Copy)]
pub struct RingAnswer {
    pub answer: Answer,
    pub cursors: Cursors,
}

// The same with four samples.
// Kept (1): a refused call hands out the cursors and four zeros (R2.36, R3.16), and an `Err` has no place for them.
#[derive(Clone, Copy)]
pub struct FourAnswer {
    pub answer: Answer,
    pub cursors: Cursors,
    pub x: Four,
}

// The longest ring, in samples.
pub const LONGEST_RING: usize = 65536;

// A new ring: silent, with both cursors at its start (R3.17).
pub fn fresh(ring: &mut [f32]) -> RingAnswer
    ensures value { result ≡ fresh_answer (length ring.old) }
    ensures ring_after { ring.new ≡ fresh_ring ring.old }
{
    let answer = need(length_ok(ring.len()), Refusal::BadLength);
    silence(ring, answer);
    RingAnswer {
        answer,
        cursors: Cursors {
            read: Samples(0),
            write: Samples(0),
        },
    }
}

// Silences a ring and leaves its cursors where they are (R3.18).
pub fn reset(ring: &mut [f32], c: Cursors) -> RingAnswer
    ensures value { result ≡ reset_answer (length ring.old) c }
    ensures ring_after { ring.new ≡ reset_ring ring.old c }
{
    let answer = judge(ring.len(), c);
    silence(ring, answer);
    RingAnswer { answer, cursors: c }
}

// Reads as many samples as `out` takes, and moves the read cursor past them (R3.8).
#[tactic(auto, using(crate::proofs::Laws::count_ok_lem))]
pub fn get(ring: &[f32], c: Cursors, out: &mut [f32]) -> RingAnswer
    ensures value { result ≡ get_answer (length ring.now) c (length out.old) }
    ensures out_after { out.new ≡ get_out ring.now c out.old }
{
    let answer = judge_count(ring.len(), c, out.len());
    let mut cursors = c;
    if answer.is_ok() {
        read_runs(ring, c.read.0, out);
        cursors.read.0 = advance(ring.len(), c.read.0, out.len());
    }
    RingAnswer { answer, cursors }
}

// Writes the samples `xs`, and moves the write cursor past them (R3.9).
// Kept (2): beside `get`. One reads a ring and the other writes it, which are two kinds of loans.
#[tactic(auto, using(crate::proofs::Laws::count_ok_lem))]
pub fn put(ring: &mut [f32], c: Cursors, xs: &[f32]) -> RingAnswer
    ensures value { result ≡ put_answer (length ring.old) c (length xs.now) }
    ensures ring_after { ring.new ≡ put_ring ring.old c xs.now }
{
    let answer = judge_count(ring.len(), c, xs.len());
    let mut cursors = c;
    if answer.is_ok() {
        write_runs(ring, c.write.0, xs);
        cursors.write.0 = advance(ring.len(), c.write.0, xs.len());
    }
    RingAnswer { answer, cursors }
}

// Reads four samples one after the other, and moves the read cursor past them (R3.11).
#[tactic(auto, using(crate::proofs::Laws::judged_ok))]
pub fn get4(ring: &[f32], c: Cursors) -> FourAnswer
    ensures { result ≡ get4_answer ring.now c }
{
    let answer = judge(ring.len(), c);
    let mut cursors = c;
    let mut x = Four(0.0, 0.0, 0.0, 0.0);
    if answer.is_ok() {
        x = read_four(ring, c.read.0);
        cursors.read.0 = four_on(ring.len(), c.read.0);
    }
    FourAnswer { answer, cursors, x }
}

// Writes four samples one after the other, and moves the write cursor past them (R3.12).
// Kept (2): beside `get4`, as `put` is beside `get`.
#[tactic(auto, using(crate::proofs::Laws::judged_ok))]
pub fn put4(ring: &mut [f32], c: Cursors, x: Four) -> RingAnswer
    ensures value { result ≡ put4_answer (length ring.old) c }
    ensures ring_after { ring.new ≡ put4_ring ring.old c x }
{
    let answer = judge(ring.len(), c);
    let mut cursors = c;
    if answer.is_ok() {
        write_four(ring, c.write.0, x);
        cursors.write.0 = four_on(ring.len(), c.write.0);
    }
    RingAnswer { answer, cursors }
}

// Whether a ring may have that length.
#[tactic(auto, unfolding(crate::specs::Calls::length_ok))]
fn length_ok(l: usize) -> bool
    ensures { result ≡ length_ok l }
{
    (1 <= l) & (l <= LONGEST_RING)
}

// Judges a ring's length, then its cursors.
#[tactic(auto, unfolding(crate::specs::Calls::cursors_ok))]
fn judge(l: usize, c: Cursors) -> Answer
    ensures { result ≡ judged_ring l c }
{
    need(length_ok(l), Refusal::BadLength)?;
    need((c.read.0 < l) & (c.write.0 < l), Refusal::BadState)
}

// Judges a call that moves n samples.
#[tactic(auto, unfolding(crate::specs::Calls::count_ok))]
fn judge_count(l: usize, c: Cursors, n: usize) -> Answer
    ensures { result ≡ judged_count l c n }
{
    judge(l, c)?;
    need((1 <= n) & (n <= l), Refusal::BadIndex)
}

// Sets a ring to +0 where a call is accepted.
fn silence(ring: &mut [f32], a: Answer)
    ensures { ring.new ≡ silent a ring.old }
{
    if a.is_ok() {
        clear(ring);
    }
}
