// No code: the digests that document 003 prints are proved about the definitions.
#![tactic(auto)]
