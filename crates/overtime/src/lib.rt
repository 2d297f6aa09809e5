// Several desks, one overtime limit: the definitions of what is chosen, and the proof that it is best; no code.
#![tactic(auto)]
