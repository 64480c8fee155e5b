// No code: a call's refusals as a list of conditions, as definitions in specs/ and their laws in proofs/.
#![tactic(auto)]
