// What the sheet's writer promises: statements in specs/, their proofs in proofs/, and no code.
#![tactic(auto)]
