// Laws for proofs by hand: proofs/ has them, and there is no code.
#![tactic(auto)]
