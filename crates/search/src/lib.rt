// The search for a sample that isn't finite.
//
// Its contracts cite `specs/`: the first such sample, and that there is none.
#![tactic(auto)]

ghost use Rattle.std.specs.Prelude.{◌≡◌};
ghost use Rattle.search.specs.Search.{first_bad, all_finite};

use samples::is_finite;

// The shortest row of a search: a shorter one costs more to judge as a whole than it saves.
const SHORT_ROW: usize = 64;

// The first sample that is not finite, searched row by row in rows of `row` samples, or of
// `SHORT_ROW` where that is more: a last row may be shorter, and where `row` is 0 all is one row. A
// row is judged as a whole, and searched sample by sample where it is bad (R2.37).
pub fn first_bad(rows: &[f32], row: usize) -> Option<usize>
    ensures { result ≡ first_bad rows.now }
{
    let len = if row == 0 {
        rows.len().max(1)
    } else {
        row.max(SHORT_ROW)
    };
    let mut found = None;
    let mut i = 0;
    // Kept (3): two loops left by a label are the form that is named for this place (docs/DECISIONS.md), and `i` counts through both.
    'rows: for part in rows.chunks(len) {
        if row_finite(part) {
            i += part.len();
            continue 'rows;
        }
        for x in part.iter() {
            let bad = !is_finite(*x);
            if bad {
                found = Some(i);
                break 'rows;
            }
            i += 1;
        }
    }
    found
}

// Whether every sample is finite, searched as `first_bad` does (R2.17, R4.14).
pub fn all_finite(rows: &[f32], row: usize) -> bool
    ensures { result ≡ all_finite rows.now }
{
    first_bad(rows, row).is_none()
}

// Whether every sample of a row is finite. The loop has no way out before its end, so that it can
// be compiled to judge several samples at once.
fn row_finite(row: &[f32]) -> bool
    ensures { result ≡ all_finite row.now }
{
    row.iter().fold(true, |ok, x| ok & is_finite(*x))
}
