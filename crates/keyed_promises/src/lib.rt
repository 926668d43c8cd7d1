// What the reader of keyed sheets promises: statements in specs/, their proofs in proofs/, and no code.
#![tactic(auto)]
