// The three demands of the public calls in one place: statements and their proofs, no code.
#![tactic(auto)]
