// No code: what a trace read to its end comes to, as claims in specs/ and their proofs in proofs/.
#![tactic(auto)]
