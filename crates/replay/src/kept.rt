// What a unit keeps, compared: the cursors of its rings, its filters and its store.
use crate::tape::{Stop, Tape};
use delay::Cursors;
use iir::Filter;
use std::io::Read;
use unit::State;

// Compares all that a unit keeps.
pub(crate) fn kept<R: Read + Drop>(
    tape: &mut Tape<R>,
    state: State,
    store: &[f32],
) -> Result<(), Stop> {
    same_rings(tape, &state)?;
    same_filters(tape, &state.filters)?;
    tape.same_row("store", 0, store)
}

// Compares the cursors of all rings: the lines' come first, and then the passes'.
fn same_rings<R: Read + Drop>(tape: &mut Tape<R>, state: &State) -> Result<(), Stop> {
    for (ring, c) in state.lines.iter().chain(&state.passes).enumerate() {
        tape.same_cursors(ring, *c)?;
    }
    Ok(())
}

// Compares the filters: nine numbers each, in a row.
// Kept (2): `orders` and `iir: numbers` list the nine too. No plainer: one for all would be a public function of `iir`, with promises of its own, for the sake of one line here.
fn same_filters<R: Read + Drop>(tape: &mut Tape<R>, filters: &[Filter]) -> Result<(), Stop> {
    for (i, f) in filters.iter().enumerate() {
        let numbers = [f.a1, f.a2, f.b0, f.b1, f.b2, f.x1, f.x2, f.y1, f.y2];
        tape.same_row("filter number", 9 * i, &numbers)?;
    }
    Ok(())
}
