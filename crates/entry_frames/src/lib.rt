// The entries that decode nothing: refusals are tested before anything is written. Nothing is asked of a caller.
#![tactic(auto)]

pub mod blanks;
pub mod colour;
pub mod export;
pub mod writer;

pub use blanks::{blank, blank_with};
pub use colour::{from_planes, to_planes};
pub use export::{Exported, export_v0};
pub use writer::write_v0;
