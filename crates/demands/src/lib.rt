// The theorems about the crates below: `specs/` says what is believed, `proofs/` proves it. There is
// no code here.
#![tactic(auto)]
