// No code: what the rules give for every trace, demand 2 of the reset decision, and demand 3, as claims in specs/ and their proofs in proofs/.
#![tactic(auto)]
