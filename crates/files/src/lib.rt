// The files that say a log, and that reading accepts exactly these: definitions and theorems, no code.
#![tactic(auto)]
