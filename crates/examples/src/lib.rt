// Document 01's starred trials: a table about the definitions, in specs/Trials.antt, and one proof of it, in proofs/Trials.antt. No function.
#![tactic(auto)]
