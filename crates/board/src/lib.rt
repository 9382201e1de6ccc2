// The keeper over the journal, over a device that tears: what a board is, and that after every list of calls, cuts and kills the disk part that a recovery reads is one that a list of the keeper's acts leaves. The definitions are in specs/, the theorems in proofs/.
#![tactic(auto)]
