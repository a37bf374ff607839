// Every printout fits the output that is lent for it: 131,072 bytes. The statement is in specs/, the proof in proofs/.
#![tactic(auto)]
