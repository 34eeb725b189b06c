// The clock account, request Q-14. It has no code: the statements are in specs/, their proofs in proofs/.
#![tactic(auto)]
