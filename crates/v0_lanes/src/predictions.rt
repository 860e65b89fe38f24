// A block whose residuals lie as their lanes came, by its predictions or in the order of its columns: all are made first and then stored.
ghost use Rattle.std.specs.Prelude.{◌≡◌, ◌+◌, ◌*◌, ◌%◌, ◌<◌, ◌≤◌, true, false, length};
ghost use Rattle.v0_cells.specs.Places.{Inside, Low};
ghost use Rattle.v0_lanes.specs.Blocks.{lane_of, Columns, predict_lanes, order_lanes};

use rules::V0Row;
use v0_cells::inner::{put_columns, store};

// Where the residual of sample c lies among those stored.
fn lane_of(c: usize) -> usize
    requires { c < 16 }
    ensures { (result ≡ lane_of c) × (result < 16) }
{
    c % 2 * 8 + c / 8 * 4 + 3 - c / 2 % 4
}

// The residuals of a block in the order of its columns.
fn columns_at(out: &[u16], base: usize) -> [u16; V0Row::BLOCK]
    requires { (base + 16 ≤ length out.now) × Low base }
    ensures { Columns out.now base 16 result }
{
    let mut d = [0; V0Row::BLOCK];
    for c in 0..V0Row::BLOCK {
        d[c] = out[base + lane_of(c)];
    }
    d
}

// An inner block, by its direction.
pub fn predict(out: &mut [u16], w: usize, base: usize, up: bool)
    requires { Inside w base out.old × Low base }
    ensures { out.new ≡ predict_lanes w base up out.old }
{
    let d = columns_at(out, base);
    put_columns(out, w, base, up, d);
}

// The residuals of a block to their own columns.
pub fn order_block(out: &mut [u16], base: usize)
    requires { (base + 16 ≤ length out.old) × Low base }
    ensures { out.new ≡ order_lanes base out.old }
{
    let d = columns_at(out, base);
    store(out, base, &d[..]);
}
