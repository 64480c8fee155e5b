// No code: demand 2 of the board and the station, as claims in specs/ and their proofs in proofs/.
#![tactic(auto)]
