// The two formats that a frame is written in: what its blocks are written from, and what its rows are padded to.
ghost use Rattle.std.specs.Prelude.{◌≡◌};
ghost use Rattle.write_frame.specs.Frames.{BlockLent, Whole, unit, block_numbers};

use super::differences::differences_of;
use super::residuals::residuals_of;
use rules::{Size, V2Hdr};

#[derive(Clone, Copy)]
pub enum Format {
    V0,
    V2,
}

// The bytes of V2's header.
pub const HEADER_BYTES: usize = V2Hdr::BITS as usize / 8;

// The bytes that a row is padded to.
pub fn unit_of(format: Format) -> usize
    ensures { result ≡ unit format }
{
    match format {
        Format::V0 => 4,
        Format::V2 => 16,
    }
}

// The numbers of the block at a column of a row, in the order of the stream.
pub fn numbers_of(samples: &[u16], size: Size, format: Format, row: usize, col: usize) -> [u16; 16]
    requires { BlockLent size row col samples.now × Whole format size.width }
    ensures { result ≡ block_numbers format size samples.now row col }
{
    match format {
        Format::V0 => residuals_of(samples, size, row, col),
        Format::V2 => differences_of(samples, size, row, col),
    }
}
