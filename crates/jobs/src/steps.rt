// What a job does to its own rows of the work memory, and to its mark.
ghost use Rattle.std.specs.Prelude.{◌≡◌, ◌<◌, length};
ghost use Rattle.unit.specs.UnitState.{of_state, to_state};
ghost use Rattle.unit.specs.Layout.{wall, jobs_len};
ghost use Rattle.rows.specs.Workers.{WorkFits};
ghost use Rattle.machine.specs.Jobs.{unit_marked, mix_laid};

use iir::Filter;
use unit::{FACTOR, FILTERS, LINES, State, work_places};

// The unit with the job of mark k done, and its filters then.
pub(crate) fn marked(s: State, k: usize, filters: [Filter; FILTERS]) -> State
    requires { k < jobs_len wall }
    ensures { result ≡ to_state (unit_marked (of_state s) k filters) }
{
    let mut t = s;
    t.marks[k] = true;
    t.filters = filters;
    t
}

// Mixes the rows read into the rows mixed.
pub(crate) fn mix_rows(f: usize, work: &mut [f32])
    requires { WorkFits wall f (length work.old) }
    ensures { work.new ≡ mix_laid wall f work.old }
{
    let p = work_places(LINES, f);
    // The rows are those of the unit's lines, twice: nothing is refused.
    let _ = mixer::mix_rows(LINES, FACTOR, &mut work[p.reads..p.output]);
}
