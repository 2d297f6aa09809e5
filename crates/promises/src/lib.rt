// What is promised of the offered calls: statements and their proofs, no code.
#![tactic(auto)]
