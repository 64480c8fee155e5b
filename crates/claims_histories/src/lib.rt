// No code: what can happen to a board over time, and attestation as a trace, as claims in specs/ and their proofs in proofs/.
#![tactic(auto)]
