// Positions in a ring: n samples on, one on, and four on.
//
// Kept (5): the position and the length of its ring stay two numbers. In a struct of both, `at` below `l` would go from the
// contracts, and that its `l` is the length of the ring lent would come into all that read or write.
ghost use Rattle.std.specs.Prelude.{◌≡◌, ◌+◌, ◌<◌, ◌≤◌};
ghost use Rattle.delay.specs.Ring.{wrap, ahead};

// The position n samples on from `at`, wrapped (R3.7).
#[tactic(auto, unfolding(crate::specs::Ring::wrap))]
pub(crate) fn advance(l: usize, at: usize, n: usize) -> usize
    requires { (at < l) × (n ≤ l) }
    ensures { (result ≡ wrap l (at + n)) × (result < l) }
{
    let left = l - at;
    if n < left { at + n } else { n - left }
}

// The position after `at`.
pub(crate) fn next(l: usize, at: usize) -> usize
    requires { at < l }
    ensures { (result ≡ wrap l (at + 1)) × (result < l) }
{
    advance(l, at, 1)
}

// The position four samples on: a ring of four or more is passed round once at most.
pub(crate) fn four_on(l: usize, at: usize) -> usize
    requires { at < l }
    ensures { result ≡ ahead l 4 at }
{
    if 4 <= l {
        advance(l, at, 4)
    } else {
        (at + 4) % l
    }
}
