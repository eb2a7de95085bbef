// The C face as C links it: each call of `hall` under its own name, by C's calling convention.
//
// An export here is the call of that name, with its contract.
// Kept (2): each is a twin, as a crate is a library or a static library that C links, and not both.
#![tactic(auto)]

mod buffers;
mod delays;
mod open_frames;
mod rings;
mod steps;
mod takes;
mod units;

pub use buffers::{
    hall_buffer_mix, hall_channel_number, hall_deinterleave, hall_downmix, hall_interleave,
    hall_make_silent, hall_scale,
};
pub use delays::{hall_delay_min, hall_delay_value, hall_prime_power};
pub use open_frames::{
    hall_abandon, hall_close, hall_job_line, hall_job_mix, hall_job_output, hall_job_read,
    hall_open_apply, hall_open_tail,
};
pub use rings::{hall_ring_get, hall_ring_get4, hall_ring_put, hall_ring_put4, hall_ring_reset};
pub use steps::{hall_filter_run, hall_mix16};
pub use takes::{hall_wave_read, hall_wave_samples};
pub use units::{hall_apply, hall_apply_frames, hall_fresh, hall_reset, hall_tail};
