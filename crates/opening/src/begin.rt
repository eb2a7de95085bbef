// How a frame begins: what is held for it, and the work memory laid out.
ghost use Rattle.std.specs.Prelude.{◌≡◌, length};
ghost use Rattle.unit.specs.UnitState.{of_state, to_state};
ghost use Rattle.unit.specs.Layout.{wall, lengths, store_len};
ghost use Rattle.rows.specs.Workers.{WorkFits};
ghost use Rattle.machine.specs.Jobs.{unit_open};
ghost use Rattle.opening.specs.Workers.{silent_laid};

use iir::Filter;
use samples::{Frames, clear};
use unit::{FILTERS, JOBS, LINES, State, work_places};

// The unit with a frame open: its kind, the filters that it begins with and the count to be set.
pub(crate) fn opened(s: State, tail: bool, filters: [Filter; FILTERS], next: Frames) -> State
    ensures { result ≡ to_state (unit_open wall (of_state s) tail filters next.0) }
{
    let before = s.filters;
    let mut t = s;
    t.filters = filters;
    t.busy = true;
    t.tail = tail;
    t.marks = [false; JOBS];
    t.next = next;
    t.before = before;
    t
}

// Sets every float of the work memory for a frame of a unit: the allpass rings as they are in the store,
// and else +0.
pub(crate) fn begin_work(s: State, store: &[f32], work: &mut [f32])
    requires { WorkFits wall s.frame (length work.old) × (length store.now ≡ store_len wall (lengths wall (of_state s))) }
    ensures { work.new ≡ silent_laid (of_state s) store.now }
{
    clear(work);
    let p = work_places(LINES, s.frame);
    let rings = p.rings;
    let a = store.len() - (work.len() - rings);
    stages::copy(&store[a..], &mut work[rings..]);
}
