// The entry points of the decoders: refusals 1 to 4 are tested before anything is written, then the frame is decoded. Nothing is
// asked of a caller.
#![tactic(auto)]

pub mod clean;
pub mod direct;
pub mod in_bands;
pub mod two_phase;
pub mod v2_entries;

pub use clean::{decode_v0_clean, decode_v0_clean_map};
pub use direct::{decode_v0_reference, decode_v0_reference_map};
pub use in_bands::decode_v0_bands;
pub use two_phase::decode_v0;
pub use v2_entries::{decode_v2, decode_v2_map};
