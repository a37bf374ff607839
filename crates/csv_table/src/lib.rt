// The cases of the charging desk's logs as theorems of the definitions: two of the joint table's records (crate `script_table`).
#![tactic(auto)]
