// The demands as theorems: statements in specs/, proofs in proofs/, and no code.
#![tactic(auto)]
