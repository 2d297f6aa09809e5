// What a book is, in the papers' words: statements and their proofs, no code.
#![tactic(auto)]
