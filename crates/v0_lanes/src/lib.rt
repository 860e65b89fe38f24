// Four residuals of one length in lanes of one number, and four lengths in its bytes.
#![tactic(auto)]

pub mod blocks;
pub mod lengths;
pub mod predictions;
pub mod residuals;
pub mod tables;
