// The steps of a frame over n lines, and what a frame leaves of their rings, cursors and filters.
//
// The length of a line's ring and its cursors stand at the line's place in arrays of sixteen, which a
// unit of fewer lines pads with rings of length 0.
ghost use Rattle.std.specs.Prelude.{◌≡◌, ◌++◌, ◌+◌, ◌-◌, ◌<◌, ◌≤◌, length, take, drop};
ghost use Rattle.delay.specs.Calls.{longest_ring};
ghost use Rattle.stages.specs.Frame.{reads_of};
ghost use Rattle.stages.specs.Settle.{settled, moved_by, all_moved};
ghost use Rattle.frame.specs.Workers.{LinesFit, Within, lines_len};

use delay::Cursors;
use samples::Samples;
use unit::Rings;

// Reads a frame of each line, row after row.
// Kept (3): no plainer. A turn reads two arrays at line i and moves two places on, and the fit of its ring is stated by i, which zipped arrays don't have.
pub(crate) fn read_lines(n: usize, f: usize, rings: Rings, store: &[f32], rows: &mut [f32])
    requires { LinesFit n f rings (length store.now) (length rows.old) }
    ensures { rows.new ≡ reads_of n f rings store.now }
{
    let ls = rings.lines.lengths;
    let cs = rings.lines.cursors;
    let mut a = 0usize;
    let mut b = 0usize;
    for i in 0..n {
        let c = cs[i];
        let e = a + ls[i];
        let t = b + f;
        delay::get(&store[a..e], c, &mut rows[b..t]);
        a = e;
        b = t;
    }
}

// Puts each row into its line's ring, and leaves what lies after the lines.
// Kept (3): as in `read_lines`.
pub(crate) fn put_lines(n: usize, f: usize, rings: Rings, rows: &[f32], store: &mut [f32])
    requires { LinesFit n f rings (length store.old) (length rows.now) }
    ensures { store.new ≡ settled n f rings rows.now (drop (lines_len n rings) store.old) store.old }
{
    let ls = rings.lines.lengths;
    let cs = rings.lines.cursors;
    let mut a = 0usize;
    let mut b = 0usize;
    for i in 0..n {
        let c = cs[i];
        let e = a + ls[i];
        let t = b + f;
        delay::put(&mut store[a..e], c, &rows[b..t]);
        a = e;
        b = t;
    }
}

// Sets the allpass rings, which lie at the end of a store, to `allpass`.
pub(crate) fn put_rings(allpass: &[f32], store: &mut [f32])
    requires { length allpass.now ≤ length store.old }
    ensures { store.new ≡ take (length store.old - length allpass.now) store.old ++ allpass.now }
{
    let at = store.len() - allpass.len();
    stages::copy(allpass, &mut store[at..]);
}

// Puts each row into its line's ring, and sets the allpass rings after the lines to `allpass`.
pub(crate) fn settle(
    n: usize,
    f: usize,
    rings: Rings,
    rows: &[f32],
    allpass: &[f32],
    store: &mut [f32],
)
    requires lines_fit { LinesFit n f rings (length store.old) (length rows.now) }
    requires allpass_fits { lines_len n rings + length allpass.now ≡ length store.old }
    ensures { store.new ≡ settled n f rings rows.now allpass.now store.old }
{
    put_lines(n, f, rings, rows, store);
    put_rings(allpass, store);
}

// The cursors of rings after a frame.
// Kept (3): zipped with the lengths, `iter_mut` leaves no proof of what was written.
pub(crate) fn move_on(f: usize, ls: &[usize], cs: &mut [Cursors])
    requires { (f ≤ longest_ring) × (length cs.old ≡ length ls.now) × Within (length ls.now) 0 ls.now cs.old }
    ensures { cs.new ≡ all_moved f ls.now cs.old }
{
    for (i, c) in cs.iter_mut().enumerate() {
        *c = moved_by(f, ls[i], *c);
    }
}

// The cursors of a ring of length l, f samples on.
fn moved_by(f: usize, l: usize, c: Cursors) -> Cursors
    requires { (f ≤ longest_ring) × (l ≤ longest_ring) × (c.read.0 < l) × (c.write.0 < l) }
    ensures { result ≡ moved_by f l c }
{
    Cursors {
        read: Samples((c.read.0 + f) % l),
        write: Samples((c.write.0 + f) % l),
    }
}
