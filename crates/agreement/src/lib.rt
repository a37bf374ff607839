// No code: demand 3, and the facts of a yard. Their statements are specs/Demand3.antt and specs/YardFacts.antt; what leads to them is in
// proofs/.
#![tactic(auto)]
