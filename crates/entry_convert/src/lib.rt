// The entries that decode a frame and go on with its samples: V0 into V2, and whether another program packed what was meant. Refusals
// are tested before anything is written. Nothing is asked of a caller.
#![tactic(auto)]

pub mod convert;
pub mod proposal;

pub use convert::v0_to_v2;
pub use proposal::check_packed;
