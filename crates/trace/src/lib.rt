// Demand 3 and the round trip alone: the claim in specs/, the theorems in proofs/.
#![tactic(auto)]
