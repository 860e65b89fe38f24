// What the stream says of a V0 block: its head, its samples' order, and, where nothing is skipped, all its residuals, by
// docs/RULES.md, "V0".
#![tactic(auto)]

pub mod block;
pub mod head;
pub mod order;
