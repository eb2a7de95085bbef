// One frame as one definition, and the steps of it that any stretch of memory takes.
//
// Its contracts cite `specs/`: the rows of the lines, the whole frame with a name for each stage, and
// what a frame leaves behind.
#![tactic(auto)]

mod rows;

pub use rows::{add_first, copy, divide, filters_finite};
