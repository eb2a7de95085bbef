// A filter of each of four lines, its numbers by kind: the same step of all four is then one step.
ghost use Rattle.std.specs.Prelude.{◌≡◌};
ghost use Rattle.lanes.specs.Lanes.{packed, lane, step_all};

use crate::four::Four;
use iir::Filter;

// Each of a filter's nine numbers, of four lines.
//
// Kept (2): the fields of `Filter`, each of four lines. `Filter` is part of the C interface, so it holds plain `f32` and takes no type.
#[derive(Clone, Copy)]
pub struct Lanes {
    pub a1: Four,
    pub a2: Four,
    pub b0: Four,
    pub b1: Four,
    pub b2: Four,
    pub x1: Four,
    pub x2: Four,
    pub y1: Four,
    pub y2: Four,
}

// Four filters, side by side (R1.14).
#[tactic(auto, unfolding(crate::specs::Lanes::packed))]
pub fn pack(f: Filter, g: Filter, h: Filter, k: Filter) -> Lanes
    ensures { result ≡ packed f g h k }
{
    Lanes {
        a1: Four::new(f.a1, g.a1, h.a1, k.a1),
        a2: Four::new(f.a2, g.a2, h.a2, k.a2),
        b0: Four::new(f.b0, g.b0, h.b0, k.b0),
        b1: Four::new(f.b1, g.b1, h.b1, k.b1),
        b2: Four::new(f.b2, g.b2, h.b2, k.b2),
        x1: Four::new(f.x1, g.x1, h.x1, k.x1),
        x2: Four::new(f.x2, g.x2, h.x2, k.x2),
        y1: Four::new(f.y1, g.y1, h.y1, k.y1),
        y2: Four::new(f.y2, g.y2, h.y2, k.y2),
    }
}

// Line k's filter (R1.14).
#[tactic(auto, unfolding(crate::specs::Lanes::lane))]
pub fn lane(k: usize, l: Lanes) -> Filter
    ensures { result ≡ lane k l }
{
    Filter {
        a1: l.a1.at(k),
        a2: l.a2.at(k),
        b0: l.b0.at(k),
        b1: l.b1.at(k),
        b2: l.b2.at(k),
        x1: l.x1.at(k),
        x2: l.x2.at(k),
        y1: l.y1.at(k),
        y2: l.y2.at(k),
    }
}

// The filters after one sample of each line: their `y1` is what comes out (R3.21, R3.22).
#[tactic(auto, unfolding(crate::specs::Lanes::step_all))]
pub fn step(l: Lanes, x: Four) -> Lanes
    ensures { result ≡ step_all l x }
{
    let out = (((l.b0 * x + l.b1 * l.x1) + l.b2 * l.x2) - l.a1 * l.y1) - l.a2 * l.y2;
    Lanes {
        x1: x,
        x2: l.x1,
        y1: out,
        y2: l.y1,
        ..l
    }
}
