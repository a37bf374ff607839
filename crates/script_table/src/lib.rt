// The bench's cases as scripts, down to the bytes of their printouts, and the joint table of all cases: theorems alone.
#![tactic(auto)]
