// Four numbers, one of each line, and what is done to all four at once.
ghost use Rattle.std.specs.Prelude.{◌≡◌};
ghost use Rattle.samples.specs.Binary32.{◌⊕◌, ◌⊖◌, ◌⊗◌};
ghost use Rattle.lanes.specs.Four.{lanewise};

use std::ops::{Add, Mul, Sub};

// A number of each of four lines.
//
// Kept (2): `delay::Four`, which C passes, is four samples one after the other, and no arithmetic is done on it.
// Kept (6): four fields and no array. No plainer: every use but `at` names its lines outright, and an array's `[0]` to `[3]` would be the same four names.
#[derive(Clone, Copy)]
pub struct Four {
    pub v0: f32,
    pub v1: f32,
    pub v2: f32,
    pub v3: f32,
}

impl Four {
    ghost use Rattle.lanes.specs.Four.{beside, at};

    // Four numbers, one of each line in turn.
    pub(crate) fn new(v0: f32, v1: f32, v2: f32, v3: f32) -> Four
        ensures { result ≡ beside v0 v1 v2 v3 }
    {
        Four { v0, v1, v2, v3 }
    }

    // Line k's number. The last line's is also that of every k past it.
    pub(crate) fn at(self, k: usize) -> f32
        ensures { result ≡ at k self }
    {
        match k {
            0 => self.v0,
            1 => self.v1,
            2 => self.v2,
            _ => self.v3,
        }
    }
}

// Line by line, a + b.
impl Add for Four {
    type Output = Four;

    ghost add_gives = { λ a b r. r ≡ lanewise ◌⊕◌ a b };

    fn add(self, b: Four) -> Four {
        Four {
            v0: self.v0 + b.v0,
            v1: self.v1 + b.v1,
            v2: self.v2 + b.v2,
            v3: self.v3 + b.v3,
        }
    }
}

// Line by line, a - b.
impl Sub for Four {
    type Output = Four;

    ghost sub_gives = { λ a b r. r ≡ lanewise ◌⊖◌ a b };

    fn sub(self, b: Four) -> Four {
        Four {
            v0: self.v0 - b.v0,
            v1: self.v1 - b.v1,
            v2: self.v2 - b.v2,
            v3: self.v3 - b.v3,
        }
    }
}

// Line by line, a * b.
impl Mul for Four {
    type Output = Four;

    ghost mul_gives = { λ a b r. r ≡ lanewise ◌⊗◌ a b };

    fn mul(self, b: Four) -> Four {
        Four {
            v0: self.v0 * b.v0,
            v1: self.v1 * b.v1,
            v2: self.v2 * b.v2,
            v3: self.v3 * b.v3,
        }
    }
}
