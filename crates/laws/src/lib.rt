// What knows nothing of the chip: laws for choices, and for tests that the checker computes over a range of numbers.
#![tactic(auto)]
