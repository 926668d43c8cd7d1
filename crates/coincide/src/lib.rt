// No code: any two results that meet a public function's contract coincide.
#![tactic(auto)]
