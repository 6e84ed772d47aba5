// Some step is never held: see specs and proofs. No function.
#![tactic(auto)]
