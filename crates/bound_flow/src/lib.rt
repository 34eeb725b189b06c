// Document 01, "The handler bound": its own flow rules, without calls. It has no code: the definitions are in specs/, their laws in proofs/.
#![tactic(auto)]
