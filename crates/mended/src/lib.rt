// Demand 3 for lists that start from a finished mending. All of it is in proofs/.
#![tactic(auto)]
