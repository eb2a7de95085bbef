// When a state is in range. What is lent of a state is taken out of it first: a loan of a part of a state by value copies all of it.
ghost use Rattle.std.specs.Prelude.{◌≡◌, ◌||◌, length};
ghost use Rattle.unit.specs.UnitState.{of_state};
ghost use Rattle.unit.specs.Layout.{wall};
ghost use Rattle.unit.specs.Range.{below, cursors_in, is_zero, unmarked, blank_filters, blank_open, in_range};

use crate::State;
use crate::layout::{PASS_LENGTHS, lengths};
use delay::Cursors;
use iir::Filter;
use samples::{Frames, frame_ok, rate_ok};

// Whether a state is one that the unit's calls take (R1.27).
pub fn in_range(s: State) -> bool
    ensures { result ≡ in_range wall (of_state s) }
{
    let lines = s.lines;
    let passes = s.passes;
    let rings = cursors_in(&lengths(s), &lines) & cursors_in(&PASS_LENGTHS, &passes);
    (rate_ok(s.rate) & frame_ok(s.frame)) & (rings & open_or_blank(s))
}

// Whether a frame is open, or else nothing is held for one.
fn open_or_blank(s: State) -> bool
    ensures { result ≡ (s.busy || blank_open (of_state s)) }
{
    s.busy || blank_open(s)
}

// Whether nothing is held for an open frame.
fn blank_open(s: State) -> bool
    ensures { result ≡ blank_open (of_state s) }
{
    let marks = s.marks;
    let before = s.before;
    !s.tail & (is_zero(s.next) & (unmarked(&marks) & blank_filters(&before)))
}

// Whether both cursors of each ring are within it.
pub(crate) fn cursors_in(ls: &[usize], cs: &[Cursors]) -> bool
    requires { length ls.now ≡ length cs.now }
    ensures { result ≡ cursors_in ls.now cs.now }
{
    ls.iter().zip(cs.iter()).all(|(l, c)| below(*c, *l))
}

// Whether no job is marked.
fn unmarked(marks: &[bool]) -> bool
    ensures { result ≡ unmarked marks.now }
{
    marks.iter().all(|m| !*m)
}

// Whether every filter is nine times +0.
// Kept (2): beside `stages: filters_finite`, one chain each.
fn blank_filters(fs: &[Filter]) -> bool
    ensures { result ≡ blank_filters fs.now }
{
    fs.iter().all(|f| iir::is_blank(*f))
}

// Whether both cursors are below a length.
fn below(c: Cursors, l: usize) -> bool
    ensures { result ≡ below l c }
{
    (c.read.0 < l) & (c.write.0 < l)
}

// Whether a count of frames is 0.
fn is_zero(n: Frames) -> bool
    ensures { result ≡ is_zero n.0 }
{
    n.0 == 0
}
