// The three bands of the unit: their reverb times, and how many frames a tail of those times lasts.
//
// Its contracts cite `specs/Times.antt`, the range of a time and the largest of three, and
// `specs/Tail.antt`, the count of frames.
#![tactic(auto)]

ghost use Rattle.std.specs.Prelude.{◌≡◌, ◌≤◌, true, pos};
ghost use Rattle.samples.specs.Sizes.{highest_rate, shortest_frame, longest_frame};
ghost use Rattle.bands.specs.Times.{time_ok, times_ok, larger, largest};
ghost use Rattle.bands.specs.Tail.{ceiling, frames_in, judged_tail_count, count_of, fallen};

use samples::{Answer, Frames, Refusal, frame_ok, need, rate_ok};

// The reverb time of each band, in seconds.
#[repr(C)]
#[derive(Clone, Copy)]
pub struct Times {
    pub low: f32,
    pub mid: f32,
    pub high: f32,
}

// An answer with a count of frames.
// Kept (1): R6.6 has a refused call give 0, and an `Err` would give none.
#[derive(Clone, Copy)]
pub struct Counted {
    pub answer: Answer,
    pub count: Frames,
}

// Whether a reverb time is one that the unit takes (R1.3).
#[tactic(auto, unfolding(crate::specs::Times::time_ok))]
pub fn time_ok(time: f32) -> bool
    ensures { result ≡ time_ok time }
{
    (0.0 <= time) & (time <= 100.0)
}

// Whether the unit takes all three times (R1.3).
pub fn times_ok(t: Times) -> bool
    ensures { result ≡ times_ok t }
{
    time_ok(t.low) & (time_ok(t.mid) & time_ok(t.high))
}

// The larger of two times; where one is no number, the other.
// Kept (2): std's `max` leaves open which of two equal numbers it gives, as 0 and -0; here the first.
#[tactic(auto, unfolding(crate::specs::Times::larger))]
fn larger(x: f32, y: f32) -> f32
    ensures { result ≡ larger x y }
{
    if x < y {
        y
    } else if x == x {
        x
    } else {
        y
    }
}

// The largest of the three times, by which the tail is counted (R6.1).
pub fn largest(t: Times) -> f32
    ensures { result ≡ largest t }
{
    larger(larger(t.low, t.mid), t.high)
}

// How many frames the tail lasts that an input with these times leaves behind (R6.6).
pub fn tail_count(t: Times, rate: u32, frame: usize) -> Counted
    ensures { result ≡ record { answer = judged_tail_count t rate frame; count = record { 0 = pos (count_of t rate frame) } } }
{
    match judge(t, rate, frame) {
        Ok(()) => {
            let frames = frames_in(largest(t), rate, frame as u32);
            Counted {
                answer: Ok(()),
                count: Frames((2 * frames) as i32),
            }
        }
        Err(refusal) => Counted {
            answer: Err(refusal),
            count: Frames(0),
        },
    }
}

// The answer of `tail_count`.
fn judge(t: Times, rate: u32, frame: usize) -> Answer
    ensures { result ≡ judged_tail_count t rate frame }
{
    need(rate_ok(rate) & frame_ok(frame), Refusal::BadSize)?;
    need(times_ok(t), Refusal::BadTime)
}

// How many frames it takes to cover a time, a part of a frame counted as a whole one.
fn frames_in(time: f32, rate: u32, frame: u32) -> u32
    requires time_fits { time_ok time ≡ true }
    requires sizes_fit { (rate ≤ highest_rate) × (shortest_frame ≤ frame) × (frame ≤ longest_frame) }
    ensures { (result ≡ ceiling (frames_in time rate frame)) × (result ≤ 4800000) }
{
    let samples = time * std::num::nearest_u32_to_f32(rate);
    let frames = samples / std::num::nearest_u32_to_f32(frame);
    let whole = std::num::truncating_f32_to_u64(frames) as u32;
    if std::num::nearest_u32_to_f32(whole) < frames {
        whole + 1
    } else {
        whole
    }
}

// One frame less to come, down to the least count there is (R4.13).
pub fn fallen(count: Frames) -> Frames
    ensures { result ≡ record { 0 = fallen count.0 } }
{
    Frames(count.0.saturating_sub(1))
}
