// The residuals of a V0 block. The lent samples are read where the exchange of places has them.
ghost use Rattle.std.specs.Prelude.{◌≡◌, ◌+◌, ◌*◌, ◌≤◌, ◌<◌, length, get_or};
ghost use Rattle.rules.specs.Limits.{most_side};
ghost use Rattle.write_rules.specs.Writer.{residual};
ghost use Rattle.write_rules.specs.Exchanged.{evens_start, odds_start, place_of};
ghost use Rattle.write_frame.specs.Frames.{InFrame, BlockLent, exchanged, block_residuals};

use super::halves::{halves, less, prediction};
use rules::{Size, V0Row};

// ── Places ──

// Where a row's even columns are read, as if all of the row stood there.
fn evens_start(width: usize, row: usize) -> usize
    requires { (width ≤ most_side) × (row < most_side) }
    ensures { result ≡ evens_start width row }
{
    if row % 2 == 0 {
        return row * width;
    }
    (row - 1) * width + 1
}

// Where a row's odd columns are read, as if all of the row stood there.
fn odds_start(size: Size, row: usize) -> usize
    requires { (0 < size.width) × (size.width ≤ most_side) × (row < most_side) }
    ensures { result ≡ odds_start size row }
{
    if row % 2 == 1 {
        return row * size.width;
    }
    if row + 1 < size.height {
        return (row + 1) * size.width - 1;
    }
    row * size.width
}

// Where a sample of the exchanged frame is read.
fn place(size: Size, row: usize, col: usize) -> usize
    requires { InFrame size row col }
    ensures { result ≡ place_of size row col }
{
    if col % 2 == 1 {
        return odds_start(size, row) + col;
    }
    if col + 1 < size.width {
        return evens_start(size.width, row) + col;
    }
    row * size.width + col
}

// A sample of the exchanged frame.
fn sample(samples: &[u16], size: Size, row: usize, col: usize) -> u16
    requires { InFrame size row col × (length samples.now ≡ size.width * size.height) }
    ensures { result ≡ get_or (exchanged size samples.now) (row * size.width + col) 0 }
{
    samples[place(size, row, col)]
}

// ── Residuals ──

// The residual of sample c of the block at a column of a row.
fn residual_at(samples: &[u16], size: Size, row: usize, col: usize, c: usize) -> u16
    requires { BlockLent size row col samples.now × (c < 16) }
    ensures { result ≡ residual size.width (exchanged size samples.now) row col c }
{
    if size.width <= col + c {
        return 0;
    }
    let a = sample(samples, size, row, col + c);
    if col == 0 {
        return less(a, V0Row::CONSTANT);
    }
    let p = sample(samples, size, row, col - 2 + c % 2);
    less(a, p)
}

// The residuals of a block that may reach past the row's end, in the order of the stream.
fn edge_residuals(samples: &[u16], size: Size, row: usize, col: usize) -> [u16; 16]
    requires { BlockLent size row col samples.now }
    ensures { result ≡ block_residuals size samples.now row col }
{
    let mut d = [0u16; V0Row::BLOCK];
    for k in 0..V0Row::BLOCK {
        d[k] = residual_at(samples, size, row, col, 2 * (k % 8) + k / 8);
    }
    d
}

// The residuals of a block that ends within the row.
fn inner_residuals(samples: &[u16], size: Size, row: usize, col: usize) -> [u16; 16]
    requires { BlockLent size row col samples.now × (col + 16 ≤ size.width) }
    ensures { result ≡ block_residuals size samples.now row col }
{
    let evens = evens_start(size.width, row) + col;
    let odds = odds_start(size, row) + col + 1;
    let even = prediction(samples, V0Row::CONSTANT, col, evens);
    let odd = prediction(samples, V0Row::CONSTANT, col, odds);
    halves(samples, evens, odds, even, odd)
}

// The residuals of the block at a column of a row.
pub fn residuals_of(samples: &[u16], size: Size, row: usize, col: usize) -> [u16; 16]
    requires { BlockLent size row col samples.now }
    ensures { result ≡ block_residuals size samples.now row col }
{
    if size.width < col + V0Row::BLOCK {
        return edge_residuals(samples, size, row, col);
    }
    inner_residuals(samples, size, row, col)
}
