// What is promised of the call for the latest free minute: statements, worked days and their proofs, no code.
#![tactic(auto)]
