// No code: what the call for a run file gives, and demand 3 of the printed text, as claims in specs/ and their proofs in proofs/.
#![tactic(auto)]
