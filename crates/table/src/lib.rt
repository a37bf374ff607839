// The yard bench of document 01 but for scripts, as theorems of the definitions: three of the joint table's records (crate `script_table`).
#![tactic(auto)]
