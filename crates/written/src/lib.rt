// A script's lines as they are written: the reader's definitions accept exactly these. Definitions in specs/, theorems in proofs/.
#![tactic(auto)]
