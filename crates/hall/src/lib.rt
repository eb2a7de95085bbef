// The C face: every call of the unit and of its parts under the name that include/hall.h gives it.
//
// A function here is the call that it stands for, with that call's contract. `specs/` says how an
// answer looks to C.
#![tactic(auto)]

mod answers;
mod buffers;
mod delays;
mod open_frames;
mod rings;
mod steps;
mod takes;
mod units;

pub use buffers::{
    hall_buffer_mix, hall_channel_number, hall_deinterleave, hall_downmix, hall_interleave,
    hall_make_silent, hall_scale,
};
use delay::{Cursors, Four};
pub use delays::{hall_delay_min, hall_delay_value, hall_prime_power};
pub use open_frames::{
    hall_abandon, hall_close, hall_job_line, hall_job_mix, hall_job_output, hall_job_read,
    hall_open_apply, hall_open_tail,
};
pub use rings::{hall_ring_get, hall_ring_get4, hall_ring_put, hall_ring_put4, hall_ring_reset};
use samples::Frames;
pub use steps::{hall_filter_run, hall_mix16};
pub use takes::{hall_wave_read, hall_wave_samples};
use unit::State;
pub use units::{hall_apply, hall_apply_frames, hall_fresh, hall_reset, hall_tail};

// A call of the unit: its number, the first bad sample, whether the tail has frames left, the state.
// Kept (1): C has no enum that carries a value.
#[repr(C)]
#[derive(Clone, Copy)]
pub struct HallAnswer {
    pub number: u32,
    pub index: usize,
    pub remaining: bool,
    pub state: State,
}

// The same of several frames, with how many of them were done.
// Kept (1): C has no enum that carries a value.
#[repr(C)]
#[derive(Clone, Copy)]
pub struct HallFramesAnswer {
    pub number: u32,
    pub index: usize,
    pub done: Frames,
    pub remaining: bool,
    pub state: State,
}

// A call of a ring alone.
// Kept (1): C has no enum that carries a value.
#[repr(C)]
#[derive(Clone, Copy)]
pub struct HallRingAnswer {
    pub number: u32,
    pub cursors: Cursors,
}

// The same with four samples.
// Kept (1): C has no enum that carries a value.
#[repr(C)]
#[derive(Clone, Copy)]
pub struct HallFourAnswer {
    pub number: u32,
    pub cursors: Cursors,
    pub x: Four,
}

// A delay value.
// Kept (1): C has no enum that carries a value.
#[repr(C)]
#[derive(Clone, Copy)]
pub struct HallValue {
    pub number: u32,
    pub value: u32,
}

// What is read of a take: the number and the place of a refusal, the format, and where the data lies.
// Kept (1): C has no enum that carries a value.
#[repr(C)]
#[derive(Clone, Copy)]
pub struct HallWave {
    pub number: u32,
    pub place: usize,
    pub rate: u32,
    pub channels: u32,
    pub tag: u32,
    pub first: usize,
    pub len: usize,
}
