// What the rank sheet's reader promises: statements in specs/, their proofs in proofs/, and no code.
#![tactic(auto)]
