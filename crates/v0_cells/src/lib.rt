// What a V0 block does to a frame's cells, samples and marks alike, and the exchange, by docs/RULES.md,
// "V0" and "The map".
#![tactic(auto)]

pub mod cell;
pub mod cells;
pub mod exchange;
pub mod inner;
