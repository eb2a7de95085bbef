// The three bands of four lines, side by side.
ghost use Rattle.std.specs.Prelude.{◌≡◌};
ghost use Rattle.lanes.specs.BandLanes.{by_band, bands_at, step_bands};

use crate::four::Four;
use crate::lanes::{Lanes, lane, pack, step};
use iir::Bands;

// The bands of four lines.
//
// Kept (6): four fields and no array. `by_band` names each line outright, and `b[0]` to `b[3]` would be the same four names.
#[derive(Clone, Copy)]
pub struct FourBands {
    pub b0: Bands,
    pub b1: Bands,
    pub b2: Bands,
    pub b3: Bands,
}

// Band 0 of four lines, band 1 and band 2.
#[derive(Clone, Copy)]
pub struct BandLanes {
    pub l0: Lanes,
    pub l1: Lanes,
    pub l2: Lanes,
}

// The bands of four lines, band by band (R1.15).
#[tactic(auto, unfolding(crate::specs::BandLanes::by_band))]
pub fn by_band(b: FourBands) -> BandLanes
    ensures { result ≡ by_band b }
{
    BandLanes {
        l0: pack(b.b0.f0, b.b1.f0, b.b2.f0, b.b3.f0),
        l1: pack(b.b0.f1, b.b1.f1, b.b2.f1, b.b3.f1),
        l2: pack(b.b0.f2, b.b1.f2, b.b2.f2, b.b3.f2),
    }
}

// The bands of line k (R1.15).
pub fn bands_at(k: usize, g: BandLanes) -> Bands
    ensures { result ≡ bands_at k g }
{
    Bands {
        f0: lane(k, g.l0),
        f1: lane(k, g.l1),
        f2: lane(k, g.l2),
    }
}

// One sample of each line through the bands (R3.25).
#[tactic(auto, unfolding(crate::specs::BandLanes::step_bands))]
pub fn step_bands(g: BandLanes, x: Four) -> BandLanes
    ensures { result ≡ step_bands g x }
{
    let l0 = step(g.l0, x);
    let l1 = step(g.l1, l0.y1);
    let l2 = step(g.l2, l1.y1);
    BandLanes { l0, l1, l2 }
}
