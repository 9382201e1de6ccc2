// Edges, runs and worlds: the definitions computed on small examples, and wrong worlds denied.
#![tactic(auto)]
