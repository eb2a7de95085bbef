// The rows read added to the output.
ghost use Rattle.std.specs.Prelude.{◌≡◌, ◌++◌, map, ◌+◌, ◌*◌, ◌-◌, ◌≤◌, length, take, replicate};
ghost use Rattle.samples.specs.Binary32.{◌⊘◌, +0};
ghost use Rattle.stages.specs.Lines.{sum_rows};

// Sums the n rows read, with which `rows` begin, into the output, with which they end.
// Kept (3): each row is lent with all that lies behind it, so that the slices overlap, and `chunks_mut` lends none that do.
pub(crate) fn sum_lines(n: usize, f: usize, rows: &mut [f32])
    requires { n * f + f ≤ length rows.old }
    ensures { rows.new ≡ take (length rows.old - f) rows.old ++ sum_rows f n (replicate f +0) (take (n * f) rows.old) }
{
    let at = rows.len() - f;
    samples::clear(&mut rows[at..]);
    let mut b = 0usize;
    for _ in 0..n {
        stages::add_first(&mut rows[b..], f);
        b += f;
    }
}

// The mean of the n rows read, with which `rows` begin, in the output, with which they end.
pub(crate) fn sum_row(n: usize, f: usize, divisor: f32, rows: &mut [f32])
    requires { n * f + f ≤ length rows.old }
    ensures { rows.new ≡ take (length rows.old - f) rows.old ++ map (λ x. x ⊘ divisor) (sum_rows f n (replicate f +0) (take (n * f) rows.old)) }
{
    let at = rows.len() - f;
    sum_lines(n, f, rows);
    stages::divide(&mut rows[at..], divisor);
}
