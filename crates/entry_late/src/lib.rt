// How far a late fault reaches: definitions in `specs/`, and what follows from them in `proofs/`. There is no code here.

#![tactic(auto)]
