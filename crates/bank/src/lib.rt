// Lines through their three bands: four side by side, sample by sample, from a tile; or one alone,
// whose bands go side by side, each two samples behind the one before it. Each row is what three runs
// over it give.
//
// Its contracts cite the runs of `iir` and, of rows that lie one after the other, `specs/Lines`; those
// of its private functions cite the rest of `specs/`.
#![tactic(auto)]

mod line;
mod tile;

ghost use Rattle.std.specs.Prelude.{◌≡◌, ◌/◌, length};
ghost use Rattle.iir.specs.Runs.{bands_out, bands_end};
ghost use Rattle.bank.specs.Lines.{lines, lines_out, lines_end};

use crate::line::long_line;
use crate::tile::run_rows;
use iir::Bands;
use lanes::{FourBands, bands_at, by_band};

// Filters four rows in place, each by its line's bands, and gives the bands after them. The rows lie
// one after the other and are a quarter of the slice each; what is over stays as it is (R4.7).
pub fn four_lines(b: FourBands, rows: &mut [f32]) -> FourBands
    ensures value { lines result ≡ lines_end (length rows.old / 4) (lines b) rows.old }
    ensures rows_after { rows.new ≡ lines_out (length rows.old / 4) (lines b) rows.old }
{
    let g = run_rows(rows.len() / 4, by_band(b), rows);
    FourBands {
        b0: bands_at(0, g),
        b1: bands_at(1, g),
        b2: bands_at(2, g),
        b3: bands_at(3, g),
    }
}

// Filters a row in place by a line's bands 0, 1 and 2, and gives the bands after it (R3.25).
pub fn one_line(b: Bands, xs: &mut [f32]) -> Bands
    ensures value { result ≡ bands_end b xs.old }
    ensures xs_after { xs.new ≡ bands_out b xs.old }
{
    if xs.len() < 4 {
        return iir::three_bands(b, xs);
    }
    long_line(b, xs)
}
