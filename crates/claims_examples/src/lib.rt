// No code: inputs and answers that the checker works out from the definitions, as claims in specs/ and their proofs in proofs/.
#![tactic(auto)]
