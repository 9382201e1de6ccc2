// Every event keeps both sets of rules, and moves records only along its lines: theorems about the definitions, in proofs/.
#![tactic(auto)]
