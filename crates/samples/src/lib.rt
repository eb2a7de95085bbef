// The two units of the unit's counts, the answers of its calls, and the tests of single samples
// that every crate above shares.
//
// Its contracts cite `specs/`: the binary32 words, the answers with their numbers, the ranges of
// rate and frame, and the combinators by which every other crate says what a call leaves.
#![tactic(auto)]

ghost use Rattle.std.specs.Prelude.{◌≡◌, length, replicate};
ghost use Rattle.samples.specs.Binary32.{+0, finite, plus_zero};
ghost use Rattle.samples.specs.Answers.{number_of, index_of, Accepted, need};
ghost use Rattle.samples.specs.Sizes.{rate_ok, frame_ok};

// A position in a ring, or a distance, counted in samples (R1.6).
#[repr(C)]
#[derive(Clone, Copy)]
pub struct Samples(pub usize);

// A length of time counted in frames (R1.6, R1.7).
#[repr(C)]
#[derive(Clone, Copy)]
pub struct Frames(pub i32);

// Why a call is refused. `number_of` gives each case its number (R2.11 to R2.19).
#[derive(Clone, Copy, Debug, PartialEq, Eq)]
pub enum Refusal {
    BadState,
    BadSize,
    BadLength,
    BadIndex,
    OutOfTurn,
    BadTime,
    BadCoefficient,
    BadSample(usize),
    NotFinite,
}

// What a call answers (R2.10).
pub type Answer = Result<(), Refusal>;

// The lowest rate and the highest, in samples a second.
pub const LOWEST_RATE: u32 = 8000;

pub const HIGHEST_RATE: u32 = 192000;

// The shortest frame and the longest, in samples.
pub const SHORTEST_FRAME: usize = 4;

pub const LONGEST_FRAME: usize = 1024;

// The number of an answer (R2.1).
// Kept (4): the number is C's, and an enum of which one case carries an index has none to cast.
pub fn number(a: Answer) -> u32
    ensures { result ≡ number_of a }
{
    match a {
        Ok(()) => 0,
        Err(Refusal::BadState) => 1,
        Err(Refusal::BadSize) => 2,
        Err(Refusal::BadLength) => 3,
        Err(Refusal::BadIndex) => 4,
        Err(Refusal::OutOfTurn) => 5,
        Err(Refusal::BadTime) => 6,
        Err(Refusal::BadCoefficient) => 7,
        Err(Refusal::BadSample(_)) => 8,
        Err(Refusal::NotFinite) => 9,
    }
}

// The index that an answer carries, 0 where it carries none (R2.9).
// Kept (4): it is one of two parts that C is answered, and no conversion of the whole.
pub fn index(a: Answer) -> usize
    ensures { result ≡ index_of a }
{
    match a {
        Err(Refusal::BadSample(i)) => i,
        _ => 0,
    }
}

// A refusal where a test fails. A judge asks one test after the other, the least number first (R2.2).
pub fn need(ok: bool, bad: Refusal) -> Answer
    ensures { result ≡ need ok (Err bad) Accepted }
{
    if ok { Ok(()) } else { Err(bad) }
}

// Whether the unit runs at a rate (R1.1).
pub fn rate_ok(rate: u32) -> bool
    ensures { result ≡ rate_ok rate }
{
    (LOWEST_RATE <= rate) & (rate <= HIGHEST_RATE)
}

// Whether the unit takes frames of that many samples (R1.2).
pub fn frame_ok(frame: usize) -> bool
    ensures { result ≡ frame_ok frame }
{
    (SHORTEST_FRAME <= frame) & ((frame <= LONGEST_FRAME) & (frame % 4 == 0))
}

// Whether a sample is a finite number (R3.4).
pub fn is_finite(x: f32) -> bool
    ensures { result ≡ finite x }
{
    let top = 1.0 / 0.0;
    x < top && -top < x
}

// Whether a sample is exactly +0, which -0 equals and is not (R3.3).
pub fn is_plus_zero(x: f32) -> bool
    ensures { result ≡ plus_zero x }
{
    x == 0.0 && 0.0 < 1.0 / x
}

// Sets every sample to +0 (R3.3).
pub fn clear(xs: &mut [f32])
    ensures { xs.new ≡ replicate (length xs.old) +0 }
{
    xs.fill(0.0);
}
