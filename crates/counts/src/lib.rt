// Loops with counts: what a counted path is, what is answered under counts, and laws: without counts it is today's answer, one answer only, and a flow that is unrolled by its counts has that answer. Nothing here knows the chip.
#![tactic(auto)]
