// The V2 decoder: a block from its stages, and a frame from its blocks.
#![tactic(auto)]

pub mod block;
pub mod frame;
