// A tile: samples of four rows as columns, those of one time side by side, as the bands take them.
ghost use Rattle.std.specs.Prelude.{◌≡◌, ◌+◌, ◌*◌, ◌<◌, ◌≤◌, length};
ghost use Rattle.lanes.specs.BandLanes.{bands_at};
ghost use Rattle.bank.specs.Lines.{lines_out, lines_end};
ghost use Rattle.bank.specs.Tile.{four_at, four_put, lined, Filled, Stored, Played, Turned};

use lanes::{BandLanes, Four, step_bands};

// The columns of a tile.
const TILE: usize = 64;

// A column of four samples of 0.
const SILENT: Four = Four {
    v0: 0.0,
    v1: 0.0,
    v2: 0.0,
    v3: 0.0,
};

// Sample t of each of four rows of f samples.
//
// Kept (6): the four rows are one slice. Cut apart by `split_at`, they would be four arguments of each function from `run_rows` down to here.
#[tactic(auto, unfolding(crate::specs::Tile::four_at))]
fn row_column(f: usize, t: usize, rows: &[f32]) -> Four
    requires { (t < f) × (4 * f ≤ length rows.now) }
    ensures { result ≡ four_at f t rows.now }
{
    let t1 = f + t;
    let t2 = f + t1;
    let t3 = f + t2;
    Four {
        v0: rows[t],
        v1: rows[t1],
        v2: rows[t2],
        v3: rows[t3],
    }
}

// Puts sample t of each of four rows of f samples.
#[tactic(auto, unfolding(crate::specs::Tile::four_put))]
fn put_column(f: usize, t: usize, y: Four, rows: &mut [f32])
    requires { (t < f) × (4 * f ≤ length rows.old) }
    ensures { rows.new ≡ four_put f t y rows.old }
{
    let t1 = f + t;
    let t2 = f + t1;
    let t3 = f + t2;
    rows[t] = y.v0;
    rows[t1] = y.v1;
    rows[t2] = y.v2;
    rows[t3] = y.v3;
}

// A tile's columns through the bands, in place. It stays a function of its own in the program: where a caller takes it in together
// with the making of its lanes, LLVM leaves these single floats.
#[inline(never)]
fn run(b: BandLanes, tile: &mut [Four]) -> BandLanes
    ensures { Played b result tile.old tile.new }
{
    let mut g = b;
    for x in tile.iter_mut() {
        g = step_bands(g, *x);
        *x = g.l2.y1;
    }
    g
}

// Fills a tile with the samples from t on of four rows of f samples.
// Kept (3): no plainer. A column is of four rows, and is read by its place.
fn fill(f: usize, t: usize, rows: &[f32], tile: &mut [Four])
    requires { (t + length tile.old ≤ f) × (4 * f ≤ length rows.now) }
    ensures { Filled f t rows.now tile.new }
{
    for (j, x) in tile.iter_mut().enumerate() {
        *x = row_column(f, t + j, rows);
    }
}

// Puts a tile over the samples from t on of four rows of f samples.
// Kept (3): as in `fill`: a column is written by its place.
fn store(f: usize, t: usize, tile: &[Four], rows: &mut [f32])
    requires { (t + length tile.now ≤ f) × (4 * f ≤ length rows.old) }
    ensures { Stored f t tile.now rows.old rows.new }
{
    for (j, y) in tile.iter().enumerate() {
        put_column(f, t + j, *y, rows);
    }
}

// The next samples of four rows of f, from t on, a tile of them, through the bands, in place.
fn some_columns(f: usize, t: usize, g: BandLanes, rows: &mut [f32], tile: &mut [Four]) -> BandLanes
    requires { (t + length tile.old ≤ f) × (4 * f ≤ length rows.old) }
    ensures { Turned f t (length tile.old) g result rows.old rows.new }
{
    fill(f, t, rows, tile);
    let h = run(g, tile);
    store(f, t, tile, rows);
    h
}

// Four rows of f samples through the bands, in place. What lies after them stays.
pub(crate) fn run_rows(f: usize, b: BandLanes, rows: &mut [f32]) -> BandLanes
    requires { 4 * f ≤ length rows.old }
    ensures value { lined (λ k. bands_at k result) ≡ lines_end f (lined (λ k. bands_at k b)) rows.old }
    ensures rows_after { rows.new ≡ lines_out f (lined (λ k. bands_at k b)) rows.old }
{
    let mut tile = [SILENT; TILE];
    let mut g = b;
    for t in (0..f).step_by(TILE) {
        let m = TILE.min(f - t);
        g = some_columns(f, t, g, rows, &mut tile[..m]);
    }
    g
}
