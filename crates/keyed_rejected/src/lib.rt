// 4/13's wrong programs refuted: statements in specs/, their proofs in proofs/, and no code.
#![tactic(auto)]
