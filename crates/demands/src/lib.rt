// The demands as theorems over the crates below: definitions and statements in specs/, proofs in proofs/. There is no code here.
#![tactic(auto)]
