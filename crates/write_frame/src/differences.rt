// The differences of a V2 block.
ghost use Rattle.std.specs.Prelude.{◌≡◌, ◌+◌, ◌≤◌};
ghost use Rattle.write_frame.specs.Frames.{BlockLent, block_differences};

use super::halves::{halves, prediction};
use rules::Size;

// The differences of the block at a column of a row: its even samples come first in even rows, its odd ones in odd rows.
pub fn differences_of(samples: &[u16], size: Size, row: usize, col: usize) -> [u16; 16]
    requires { BlockLent size row col samples.now × (col + 16 ≤ size.width) }
    ensures { result ≡ block_differences size.width samples.now row col }
{
    let at = row * size.width + col;
    let first = at + row % 2;
    let second = at + 1 - row % 2;
    let p = prediction(samples, 0, col, first);
    let q = prediction(samples, 0, col, second);
    halves(samples, first, second, p, q)
}
