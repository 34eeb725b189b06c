// Document 01's worked values marked P: definitions and their proof. It has no code.
#![tactic(auto)]
