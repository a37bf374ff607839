// No code: what the theorem of demand 3 is proved over, in proofs/. Nobody has to believe a definition of this crate.
#![tactic(auto)]
