// The filters of a frame from the coefficients that a call is given.
ghost use Rattle.std.specs.Prelude.{◌≡◌, cond, eqb, length, replicate};
ghost use Rattle.unit.specs.Layout.{wall, filters_len, coefficients_len};
ghost use Rattle.unit.specs.Fresh.{blank};
ghost use Rattle.stages.specs.Lines.{filters_of};

use iir::Filter;
use unit::{COEFFICIENTS, FILTERS, PER_FILTER};

// The filters of the given coefficients, with no history. Of another number of them they are
// blank (R4.3, R3.38).
pub fn filters_of(coefficients: &[f32]) -> [Filter; FILTERS]
    ensures { result ≡ cond (eqb (length coefficients.now) (coefficients_len wall)) (filters_of (filters_len wall) coefficients.now) (replicate (filters_len wall) blank) }
{
    if coefficients.len() != COEFFICIENTS {
        return [iir::new_from_coefficients(0.0, 0.0, 0.0, 0.0, 0.0); FILTERS];
    }
    filters_from(coefficients)
}

// The filters of as many coefficients as they have, with no history.
// Kept (3): zipped with the coefficients, `iter_mut` leaves no proof of what was written.
fn filters_from(coefficients: &[f32]) -> [Filter; FILTERS]
    requires { length coefficients.now ≡ coefficients_len wall }
    ensures { result ≡ filters_of (filters_len wall) coefficients.now }
{
    let blank = iir::new_from_coefficients(0.0, 0.0, 0.0, 0.0, 0.0);
    let mut fs = [blank; FILTERS];
    for (i, f) in fs.iter_mut().enumerate() {
        let k = PER_FILTER * i;
        *f = iir::new_from_coefficients(
            coefficients[k],
            coefficients[k + 1],
            coefficients[k + 2],
            coefficients[k + 3],
            coefficients[k + 4],
        );
    }
    fs
}
