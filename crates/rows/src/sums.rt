// The input added to the mixed rows.
ghost use Rattle.std.specs.Prelude.{◌≡◌, cond, ◌++◌, ◌≤◌, length, take, drop};
ghost use Rattle.delay.specs.Calls.{longest_ring};
ghost use Rattle.unit.specs.Layout.{wall, places_of};
ghost use Rattle.stages.specs.Lines.{add_rows};
ghost use Rattle.stages.specs.Steps.{added_first};

use unit::work_places;

// Adds the input to each mixed row. `rows` are the input, the n rows read and the n mixed.
// Kept (3): each row is lent with the input in front of it, so that the slices overlap, and `chunks_mut` lends none that do.
pub(crate) fn add_lines(n: usize, f: usize, rows: &mut [f32])
    requires { (n ≤ wall.lines) × (f ≤ longest_ring) × (length rows.old ≡ (places_of n f).output) }
    ensures { rows.new ≡ take (places_of n f).mixed rows.old ++ add_rows f n (take f rows.old) (drop (places_of n f).mixed rows.old) }
{
    let p = work_places(n, f);
    let mut e = p.mixed;
    for _ in 0..n {
        e += f;
        stages::add_first(&mut rows[0..e], f);
    }
}

// The same for an apply. A tail adds no input.
pub(crate) fn add_unless(tail: bool, n: usize, f: usize, rows: &mut [f32])
    requires { (n ≤ wall.lines) × (f ≤ longest_ring) × (length rows.old ≡ (places_of n f).output) }
    ensures { rows.new ≡ cond tail rows.old (take (places_of n f).mixed rows.old ++ add_rows f n (take f rows.old) (drop (places_of n f).mixed rows.old)) }
{
    if tail {
        return;
    }
    add_lines(n, f, rows);
}

// Adds the input, which is the first f of `rows`, to the last f, unless in a tail.
pub(crate) fn add_input(tail: bool, f: usize, rows: &mut [f32])
    ensures { rows.new ≡ cond tail rows.old (added_first f rows.old) }
{
    if tail {
        return;
    }
    stages::add_first(rows, f);
}
