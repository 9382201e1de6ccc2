// The disk part in sectors: which sector has which entry of which table, and the header that says for which sizes. The definitions are in specs/, what is proved of them in proofs/.
#![tactic(auto)]
