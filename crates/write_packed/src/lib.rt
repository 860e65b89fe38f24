// What an outside optimiser packed: the verdict on a proposal as definitions, and what follows from them. `entry_convert` holds the
// code.

#![tactic(auto)]
