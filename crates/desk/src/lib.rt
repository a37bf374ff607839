// The desk gets what the post logged: a theorem, no code.
#![tactic(auto)]
