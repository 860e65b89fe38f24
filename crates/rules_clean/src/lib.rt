// Clean V0 frames (docs/RULES.md, "Clean frames"): the definitions, and what follows from them. `v0_clean` holds the code.

#![tactic(auto)]
