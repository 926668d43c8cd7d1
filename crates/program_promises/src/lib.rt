// What the program prints, held against demand 3: statements in specs/, proofs in proofs/, and no code.
#![tactic(auto)]
