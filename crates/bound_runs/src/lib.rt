// Demand 3: an emulated run from a handler's start ends within its bound. It has no code: the statement is in specs/, its proof in proofs/.
#![tactic(auto)]
