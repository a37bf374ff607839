// No code: theorems about the steps of one post, in proofs/, over the definitions that the contracts cite. What they say of a record, a log
// and a broadcast is defined in specs/.
#![tactic(auto)]
