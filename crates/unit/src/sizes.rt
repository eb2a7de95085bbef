// The sizes of the memory that the unit is lent, judged without a sum that may not fit.
ghost use Rattle.std.specs.Prelude.{◌≡◌, ◌+◌, ◌*◌, ◌<◌, eqb};
ghost use Rattle.unit.specs.UnitState.{of_state};
ghost use Rattle.unit.specs.Layout.{wall, lengths, total, store_len, work_len};

use crate::State;
use crate::layout::{ALLPASS_FLOATS, DELAYS_AND_RINGS, LINES, ROWS};

// Whether a store has the length that a unit asks (R1.19).
pub fn store_ok(s: State, store: usize) -> bool
    ensures { result ≡ eqb store (store_len wall (lengths wall (of_state s))) }
{
    is_sum(store, DELAYS_AND_RINGS, LINES, s.frame)
}

// Whether a work memory has the length that frames of `frame` samples ask (R1.21).
pub fn work_ok(frame: usize, work: usize) -> bool
    ensures { result ≡ eqb work (work_len wall frame) }
{
    is_sum(work, ALLPASS_FLOATS, ROWS, frame)
}

// Whether a store holds lines' rings of the lengths `ls`, and then the allpass rings (R1.20).
pub fn is_store(ls: [usize; LINES], store: usize) -> bool
    ensures { result ≡ eqb store (store_len wall ls) }
{
    ALLPASS_FLOATS <= store && is_total(&ls, store - ALLPASS_FLOATS)
}

// Whether rings of the lengths `ls` take `len` floats: each is taken off what is left of them.
pub fn is_total(ls: &[usize], len: usize) -> bool
    ensures { result ≡ eqb len (total ls.now) }
{
    let mut left = len;
    for l in ls.iter() {
        if left < *l {
            return false;
        }
        left -= *l;
    }
    left == 0
}

// Whether `len` is `base` and `rows` rows of `frame`.
fn is_sum(len: usize, base: usize, rows: usize, frame: usize) -> bool
    requires { 0 < rows }
    ensures { result ≡ eqb len (base + rows * frame) }
{
    if frame <= len / rows {
        len - rows * frame == base
    } else {
        false
    }
}
