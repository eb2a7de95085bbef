// The marks of an open frame: the reads of the lines, the mix, the lines and the output.
ghost use Rattle.std.specs.Prelude.{◌≡◌, false, ◌+◌, ◌≤◌, get_or, take};
ghost use Rattle.unit.specs.Layout.{wall, jobs_len, line_mark};
ghost use Rattle.judges.specs.Marks.{all_done};

use unit::{JOBS, LINE_MARK, LINES};

// Whether mark k is set. There is one for each job.
pub(crate) fn marked(marks: &[bool; JOBS], k: usize) -> bool
    ensures { result ≡ get_or marks.now k false }
{
    marks.get(k).copied().unwrap_or(false)
}

// Whether the mark of a line's job is set, which stands after those of the reads and the mix.
pub(crate) fn line_marked(marks: &[bool; JOBS], line: usize) -> bool
    ensures { result ≡ get_or marks.now (line_mark wall line) false }
{
    line <= LINES && marks[LINE_MARK + line]
}

// Whether every job is done.
pub(crate) fn all_done(marks: &[bool; JOBS]) -> bool
    ensures { result ≡ all_done marks.now }
{
    first_done(marks, JOBS)
}

// Whether every line is read.
pub(crate) fn all_read(marks: &[bool; JOBS]) -> bool
    ensures { result ≡ all_done (take wall.lines marks.now) }
{
    first_done(marks, LINES)
}

// Whether the first n marks are set.
fn first_done(marks: &[bool; JOBS], n: usize) -> bool
    requires { n ≤ jobs_len wall }
    ensures { result ≡ all_done (take n marks.now) }
{
    marks[..n].iter().all(|m| *m)
}
