// A bank of filters four lanes wide: a filter of each of four lines, its numbers by kind, so that a
// step of the four is one step on vectors of four.
//
// Its contracts cite `specs/`: four filters side by side, their step, and three bands of such.
#![tactic(auto)]

mod band_lanes;
mod four;
mod lanes;

pub use band_lanes::{BandLanes, FourBands, bands_at, by_band, step_bands};
pub use four::Four;
pub use lanes::{Lanes, lane, pack, step};
