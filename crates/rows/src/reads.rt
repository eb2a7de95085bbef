// Step 2 of one line: a frame of it read into the work memory.
ghost use Rattle.std.specs.Prelude.{◌≡◌, true, ◌<◌, length};
ghost use Rattle.unit.specs.Layout.{wall, store_len};
ghost use Rattle.unit.specs.Room.{rings_hold};
ghost use Rattle.rows.specs.Workers.{WorkFits};
ghost use Rattle.rows.specs.Reads.{read_laid, line_room};

use crate::fits::work_for;
use unit::{LINES, Rings, is_store, ring_place, rings_hold, work_places};

// Step 2 of line i: reads its row into the work memory. Nothing is done where there is no line i, where a
// line's ring can't hold f samples or is too long for a ring, on a store that isn't of these rings, or on
// a work memory that isn't one of frames of f samples (R5.11).
pub fn read_line(i: usize, f: usize, rings: Rings, store: &[f32], work: &mut [f32])
    ensures { work.new ≡ read_laid wall f rings i (line_room wall f rings.lines.lengths i (length store.now) (length work.old)) store.now work.old }
{
    let ls = rings.lines.lengths;
    if !line_room(i, f, ls, store.len(), work.len()) {
        return;
    }
    wall_read(i, f, rings, store, work);
}

// Whether there is such a line, and the memory is one of such rings and of frames of f samples.
fn line_room(i: usize, f: usize, ls: [usize; LINES], store: usize, work: usize) -> bool
    ensures { result ≡ line_room wall f ls i store work }
{
    (i < LINES) & (work_for(f, work) & (rings_hold(f, ls) & is_store(ls, store)))
}

// The same on memory that is.
fn wall_read(i: usize, f: usize, rings: Rings, store: &[f32], work: &mut [f32])
    requires { (i < wall.lines) × WorkFits wall f (length work.old) × (rings_hold f rings.lines.lengths ≡ true) × (length store.now ≡ store_len wall rings.lines.lengths) }
    ensures { work.new ≡ read_laid wall f rings i true store.now work.old }
{
    let ls = rings.lines.lengths;
    let cs = rings.lines.cursors;
    let c = cs[i];
    let a = ring_place(i, f, ls);
    let e = a + ls[i];
    let p = work_places(LINES, f);
    let b = p.reads + i * f;
    let t = b + f;
    delay::get(&store[a..e], c, &mut work[b..t]);
}
