// Laws about tests, for the proofs of all other crates: proofs/ has them, and there is no code.
#![tactic(auto)]
