// Runs of short blocks: as long as a block lies within its row, its lengths are short and the stream has room for a block, blocks
// follow one another by position, and the record is made again only after them. No way of reading long residuals stands in the loop,
// so that the compiler keeps what it goes on with in registers.
//
//   base     the byte position that bits are counted from
//   q        the bit that a block begins at
//   k        the block's number in its row
//   lengths  the row's four lengths before the block
ghost use Rattle.std.specs.Prelude.{true, ◌&&◌, ◌≡◌, ℕ, ◌+◌, ◌-◌, ◌*◌, ◌/◌, ◌≤◌, length};
ghost use Rattle.rules.specs.Limits.{most_side};
ghost use Rattle.rules.specs.V0.{order};
ghost use Rattle.rules.specs.Phases.{store_samples};
ghost use Rattle.read_window.specs.Window.{Standing, standing_in};
ghost use Rattle.v0_parse_window.specs.ByWindow.{Ahead, last_start, Short, short, Ends, residuals_of, block_ahead, residuals_ahead};
ghost use Rattle.v0_parse_window.specs.Run.{run_length, blocks_of_run};
ghost use Rattle.v0_phase1.specs.RowLent.{RunLent};
ghost use Rattle.v0_phase1.specs.Ran.{RanAt, Ran, row_at};

use super::store_four;
use read_window::four::four_at;
use read_window::{BACK_BITS, BACK_BYTES, stands_within, state_at};
use rules::V0Row;
use v0_parse_window::{BLOCK_BYTES, WindowHead, are_short, last_start, plan_of, window_head};

// A point in a row: a block's number, by which its direction is kept, the bit that it begins at, and the lengths before it. The direct
// decoder's points go by columns, as its samples do: in one type with these, one of the two would count in the other's unit.
#[derive(Clone, Copy)]
pub struct Point {
    pub k: usize,
    pub q: usize,
    pub lengths: [i32; 4],
}

// The block that comes next in a row, and the row's state before it.
#[derive(Clone, Copy)]
pub struct Run {
    pub k: usize,
    pub row: V0Row,
}

// The short residuals after a head that was read by position, to the block at a column within its row; and the bit after them. It is
// `store_groups` by the short way alone: a reader as its parameter would need a longer contract than these lines.
fn store_short(
    src: &[u8],
    base: usize,
    head: WindowHead,
    out: &mut [u16],
    width: usize,
    col: usize,
) -> usize
    requires short { Short head.lengths }
    requires ahead { Ahead src.now base head.q residuals_ahead × ((width ≤ length out.old) × ((col + 16 ≤ width) × (width ≤ most_side))) }
    ensures ends { Ends src.now base head result }
    ensures samples { out.new ≡ store_samples 0 width col order (residuals_of src.now base head) out.old }
{
    let plan = plan_of(head);
    let a = four_at(src, base, head.q, plan.n0);
    store_four(out, col, a);
    let b = four_at(src, base, plan.q1, plan.n1);
    store_four(out, col + 8, b);
    let c = four_at(src, base, plan.q2, plan.n2);
    store_four(out, col + 1, c);
    let d = four_at(src, base, plan.q3, plan.n3);
    store_four(out, col + 9, d);
    plan.end
}

// Blocks from a point on, and the point after them: the next is not short, does not lie within the row or has too little room.
fn short_blocks(
    src: &[u8],
    base: usize,
    start: Point,
    width: usize,
    out: &mut [u16],
    dirs: &mut [u8],
) -> Point
    requires { Ahead src.now base start.q block_ahead × RunLent width start.k start.lengths out.old dirs.old }
    ensures ran { RanAt src.now base width start out.old dirs.old result out.new dirs.new }
    ensures reaches { (f : ℕ) → result.k ≡ start.k + run_length src.now (base * 8 + last_start (length src.now - base)) (width / 16 - start.k) (row_at src.now base f start) }
{
    let last = last_start(src.len() - base);
    let mut k = start.k;
    let mut q = start.q;
    let mut lengths = start.lengths;
    while (k + 1) * V0Row::BLOCK <= width && q <= last {
        let head = window_head(src, base, q, lengths);
        let after = head.lengths;
        if !are_short(after) {
            break;
        }
        q = store_short(src, base, head, out, width, k * V0Row::BLOCK);
        dirs[k] = u8::from(head.up);
        lengths = after;
        k += 1;
    }
    Point { k, q, lengths }
}

// Whether a run begins at a block: after short lengths, so that a row of long blocks costs no more, and where the record stands in the
// stream.
fn begins(src: &[u8], row: V0Row) -> bool
    ensures answered { result ≡ short row.lengths && standing_in src.now row.bits 80 }
    ensures stands { result ≡ true → Standing src.now row.bits 80 }
{
    are_short(row.lengths) && stands_within(src, row.bits, BLOCK_BYTES)
}

// The run from block k on, of which there may be none. The record is made again after its last block.
pub fn parse_run(
    src: &[u8],
    row: V0Row,
    width: usize,
    k: usize,
    out: &mut [u16],
    dirs: &mut [u8],
) -> Run
    requires { RunLent width k row.lengths out.old dirs.old }
    ensures ran { Ran src.now width k row out.old dirs.old result.k result.row out.new dirs.new }
    ensures reaches { result.k ≡ k + blocks_of_run src.now (width / 16 - k) row }
{
    if !begins(src, row) {
        return Run { k, row };
    }
    let bits = row.bits;
    let lengths = row.lengths;
    let base = bits.pos as usize - BACK_BYTES;
    let start = Point {
        k,
        q: BACK_BITS - bits.count as usize,
        lengths,
    };
    let end = short_blocks(src, base, start, width, out, dirs);
    let lengths = end.lengths;
    Run {
        k: end.k,
        row: V0Row {
            lengths,
            bits: state_at(src, base, end.q, bits.filler),
        },
    }
}
