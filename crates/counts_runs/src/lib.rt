// Demand 3 of handlers with loops: what N promises of emulated runs that keep the counts. It has no code: the statement is in specs/, its proof in proofs/.
#![tactic(auto)]
