// No code: definitions and laws that belong to no one layer. See specs/ and proofs/.
#![tactic(auto)]
