// A frame is written as V0 or as V2: the numbers of its blocks, how long they become, and the stream. The lent samples are only
// read, in V0 through the exchange of places.
// Samples and their size are two parameters: of a struct that borrows, each `ensures` would say `frame.entry.samples.now`. Row and
// column are two as in the definitions (`place_of`, `residual`).
#![tactic(auto)]

pub mod differences;
pub mod format;
pub mod halves;
pub mod measure;
pub mod residuals;
pub mod write;
