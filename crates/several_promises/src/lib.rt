// What is promised of the call for several desks: statements and their proofs, no code.
#![tactic(auto)]
