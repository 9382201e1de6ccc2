// Demand 3: the ledger's finished writes and updates against the disk and the words read, in every list of acts with cuts. All of it is in proofs/.
#![tactic(auto)]
