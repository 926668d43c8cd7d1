// No code: document 01's own sheet is one, and the wrong programs that 01 names break the promises.
#![tactic(auto)]
