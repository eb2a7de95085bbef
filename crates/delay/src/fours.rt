// Four samples of a ring by value: at once where they lie straight, and one after the other where they
// lie across the ring's end. A ring of fewer than four is passed round more than once.
ghost use Rattle.std.specs.Prelude.{◌≡◌, ◌<◌, length};
ghost use Rattle.delay.specs.Ring.{read_each, write_each, list_of, four_of};

use crate::Four;
use crate::places::next;

// Four samples out of an array, in their order.
impl From<[f32; 4]> for Four {
    ghost from_gives = { λ xs x. x ≡ four_of xs };

    fn from(xs: [f32; 4]) -> Four {
        Four(xs[0], xs[1], xs[2], xs[3])
    }
}

// And back.
impl From<Four> for [f32; 4] {
    ghost from_gives = { λ x xs. xs ≡ list_of x };

    fn from(x: Four) -> [f32; 4] {
        [x.0, x.1, x.2, x.3]
    }
}

// The four samples from position `at` on (R3.11).
pub(crate) fn read_four(ring: &[f32], at: usize) -> Four
    requires { at < length ring.now }
    ensures { result ≡ four_of (read_each ring.now at 4) }
{
    if let Some(run) = ring[at..].first_chunk::<4>() {
        return Four::from(*run);
    }
    let mut k = at;
    let mut xs = [0.0; 4];
    for x in xs.iter_mut() {
        *x = ring[k];
        k = next(ring.len(), k);
    }
    Four::from(xs)
}

// Stores four samples from position `at` on (R3.12).
pub(crate) fn write_four(ring: &mut [f32], at: usize, x: Four)
    requires { at < length ring.old }
    ensures { ring.new ≡ write_each ring.old at (list_of x) }
{
    let l = ring.len();
    let xs = <[f32; 4]>::from(x);
    if 4 <= l - at {
        ring[at..at + 4].copy_from_slice(&xs);
        return;
    }
    let mut k = at;
    for x in xs {
        ring[k] = x;
        k = next(l, k);
    }
}
