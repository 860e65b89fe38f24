// The exports for C and Rust hosts: `rt staticlib razvolk` writes the archive. Each export is one call, with its entry's whole
// contract; every slice is a pointer and then a length in elements.
#![tactic(auto)]

pub mod blanks;
pub mod clean;
pub mod colour;
pub mod convert;
pub mod direct;
pub mod in_bands;
pub mod proposal;
pub mod reader;
pub mod two_phase;
pub mod v2;
pub mod writer;
