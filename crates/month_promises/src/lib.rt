// What is promised of a month: statements, worked months and their proofs, no code.
#![tactic(auto)]
