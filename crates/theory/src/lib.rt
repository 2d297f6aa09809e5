// The scheduling theory has no code: its definitions and proofs stand in specs/.
#![tactic(auto)]
