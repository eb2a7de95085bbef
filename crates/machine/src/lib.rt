// The machine: a unit with its memory, and how each call on it ends. `specs/` has the definitions, which the contracts of the calls cite and
// the theorems speak of. There is no code here.
#![tactic(auto)]
