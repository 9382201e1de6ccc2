// What a read shows, as a function of the disk that the last restart found and of the accepted writes, truncations, creates and imports since; and so the chip cannot be seen. The definitions are in specs/, the theorems in proofs/.
#![tactic(auto)]
