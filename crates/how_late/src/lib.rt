// How late the desk can open: the definition of the latest free minute, and how it is found; no code.
#![tactic(auto)]
