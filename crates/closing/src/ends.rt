// What the end of an open frame leaves of the state.
ghost use Rattle.std.specs.Prelude.{◌≡◌};
ghost use Rattle.unit.specs.UnitState.{of_state, to_state};
ghost use Rattle.unit.specs.Layout.{wall};
ghost use Rattle.machine.specs.Jobs.{unit_shut};
ghost use Rattle.closing.specs.Workers.{idle, closed_by};

use audio_buffer::verdict;
use delay::Cursors;
use frame::Stepped;
use iir::Filter;
use samples::{Frames, Refusal};
use unit::{FILTERS, LINES, Outcome, PASS_RINGS, State, fresh_state, quiet};

// The unit with no frame open, and other cursors, filters and another count.
pub(crate) fn idle(
    s: State,
    lines: [Cursors; LINES],
    passes: [Cursors; PASS_RINGS],
    count: Frames,
    filters: [Filter; FILTERS],
) -> State
    ensures { result ≡ to_state (idle (of_state s) (record { lines = lines; passes = passes }) count.0 filters) }
{
    let mut t = fresh_state(s.rate, s.frame);
    t.lines = lines;
    t.passes = passes;
    t.count = count;
    t.filters = filters;
    t
}

// The unit as it was before the open frame.
pub(crate) fn shut(s: State) -> State
    ensures { result ≡ to_state (unit_shut wall (of_state s)) }
{
    idle(s, s.lines, s.passes, s.count, s.before)
}

// The outcome of a frame that nothing else refuses: 9 unless all of it is finite.
pub(crate) fn concluded(s: State, frame: Stepped) -> Outcome
    ensures { result ≡ closed_by (of_state s) frame }
{
    if !frame.ok {
        return quiet(Err(Refusal::NotFinite), shut(s));
    }
    Outcome {
        answer: Ok(()),
        verdict: verdict(s.next),
        state: idle(s, frame.lines, frame.passes, s.next, frame.filters),
    }
}
