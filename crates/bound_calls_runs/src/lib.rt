// Demand 3 for handlers that call, request Q-9. It has no code: the statement is in specs/, its proof in proofs/.
#![tactic(auto)]
