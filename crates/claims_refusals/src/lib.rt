// No code: demand 1, what each call refuses, as claims in specs/ and their proofs in proofs/.
#![tactic(auto)]
