// What a script prints, byte for byte, and what it leaves on the air: definitions alone, in specs/.
#![tactic(auto)]
