// A whole frame of a unit, and what it leaves of the state.
ghost use Rattle.std.specs.Prelude.{◌≡◌, true, length};
ghost use Rattle.unit.specs.UnitState.{of_state, to_state};
ghost use Rattle.unit.specs.Layout.{wall};
ghost use Rattle.unit.specs.Room.{unit_rings, room_ok};
ghost use Rattle.machine.specs.Ending.{outcome_of};
ghost use Rattle.reverb.specs.Workers.{unit_stepped, played_by, playing};

use audio_buffer::verdict;
use frame::{Stepped, run_frame};
use iir::Filter;
use samples::{Frames, Refusal};
use unit::{FILTERS, Outcome, State, quiet, rings_of};

// The unit after an accepted frame: its rings moved on, and the frame's filters and count.
pub(crate) fn moved_on(s: State, frame: Stepped, count: Frames) -> State
    ensures { result ≡ to_state (unit_stepped (of_state s) frame count.0) }
{
    let lines = frame.lines;
    let passes = frame.passes;
    let filters = frame.filters;
    let mut t = s;
    t.lines = lines;
    t.passes = passes;
    t.filters = filters;
    t.count = count;
    t
}

// The outcome of a frame that nothing else refuses: 9 unless all of it is finite.
pub(crate) fn conclude(s: State, frame: Stepped, count: Frames) -> Outcome
    ensures { result ≡ played_by (of_state s) frame count.0 }
{
    if !frame.ok {
        return quiet(Err(Refusal::NotFinite), s);
    }
    Outcome {
        answer: Ok(()),
        verdict: verdict(count),
        state: moved_on(s, frame, count),
    }
}

// A whole frame of a unit, with the filters `fs`, that nothing but its own numbers can refuse. The
// work memory begins with the input.
pub(crate) fn whole_frame(
    s: State,
    tail: bool,
    fs: [Filter; FILTERS],
    count: Frames,
    store: &mut [f32],
    work: &mut [f32],
    output: &mut [f32],
) -> Outcome
    requires { room_ok wall s.frame (unit_rings wall (of_state s)) (length store.old) (length work.old) (length output.old) ≡ true }
    ensures value { result ≡ outcome_of (playing s tail fs count.0 store.old work.old output.old) }
    ensures store_after { store.new ≡ (playing s tail fs count.0 store.old work.old output.old).memory.store }
    ensures work_after { work.new ≡ (playing s tail fs count.0 store.old work.old output.old).memory.work }
    ensures output_after { output.new ≡ (playing s tail fs count.0 store.old work.old output.old).output }
{
    let r = run_frame(s.frame, rings_of(s), tail, fs, store, work, output);
    conclude(s, r, count)
}
