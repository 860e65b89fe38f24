// A run: inner blocks of short lengths one after another, by position. The reader's record is made after the last of them, and every
// other way leaves the loop, so that the compiler keeps what a block needs in registers.
//
//   base     the byte position that bits are counted from
//   q        the bit that a block begins at
//   col      the block's first column
//   lengths  the row's four lengths before the block
//
// A run goes on while the next block lies within its row, its lengths are short (0 to 15 bits a residual) and the stream has room
// for it.
ghost use Rattle.std.specs.Prelude.{true, ◌≡◌, ◌+◌, ◌-◌, ◌*◌, ◌/◌, ◌<◌, length};
ghost use Rattle.rules.specs.Frame.{cells};
ghost use Rattle.read_window.specs.Window.{Standing};
ghost use Rattle.v0_parse_window.specs.ByWindow.{Ahead, last_start, short, block_ahead};
ghost use Rattle.v0_parse_window.specs.Run.{run_length};
ghost use Rattle.v0_cells.specs.Places.{InFrame, Inner, Whole};
ghost use Rattle.v0_direct.specs.FrameLent.{RunLent};
ghost use Rattle.v0_direct.specs.Block.{Ran};
ghost use Rattle.v0_direct.specs.Run.{run_begins, run_end, row_at, RanAt, finished, finished_marks};

use super::{V0Place, is_inner};
use read_window::{BACK_BITS, BACK_BYTES, stands_within, state_at};
use rules::V0Row;
use v0_cells::inner::mark_block;
use v0_lanes::blocks::{head_at, store_block};
use v0_lanes::lengths::{all_fit, ends_of, lengths_after, packed, unpacked};
use v0_lanes::predictions::predict;
use v0_lanes::tables::Tables;
use v0_parse_window::{BLOCK_BYTES, are_short, last_start};

// Where a run ends: the column after its last block, and the row's state there.
#[derive(Clone, Copy)]
pub struct Run {
    pub col: usize,
    pub state: V0Row,
}

// A point in a row: a block's first column, the bit that it begins at, and the lengths before it.
#[derive(Clone, Copy)]
pub struct Point {
    pub col: usize,
    pub q: usize,
    pub lengths: [i32; 4],
}

// What the block before a column waits for, where the run has one there: its predictions, and its marks.
fn finish(out: &mut [u16], map: &mut [u8], at: V0Place, from: usize, up: bool)
    requires { (from < at.col → Inner at.size at.row (at.col - 16)) × ((length out.old ≡ cells at.size) × Whole at.size map.old) }
    ensures samples { out.new ≡ finished at.size at.row from at.col up out.old }
    ensures marks { map.new ≡ finished_marks at.size at.row from at.col up map.old }
{
    if at.col <= from {
        return;
    }
    let w = at.size.width;
    let col = at.col - V0Row::BLOCK;
    predict(out, w, at.row * w + col, up);
    mark_block(map, at.size, at.row, col, up);
}

// Blocks from an inner one on, where no word was missing, and the point after them: the next is not short, does not lie within the row
// or has too little room. A block's head is read before the residuals of the one before it, and its predictions wait until the next
// one's residuals are stored: so neither the next place in the stream nor what was just stored is waited for.
fn short_blocks(
    src: &[u8],
    base: usize,
    at: V0Place,
    start: Point,
    out: &mut [u16],
    map: &mut [u8],
    tables: &Tables,
) -> Point
    requires inner { Inner at.size at.row start.col × (Ahead src.now base start.q block_ahead × RunLent at.size start.col start.lengths out.old map.old) }
    requires short { short start.lengths ≡ true }
    ensures ran { RanAt src.now base at.size at.row start out.old map.old result out.new map.new }
    ensures reaches { result.col ≡ start.col + 16 * run_length src.now (base * 8 + last_start (length src.now - base)) ((at.size.width - start.col) / 16) (row_at src.now base start) }
{
    let last = last_start(src.len() - base);
    let w = at.size.width;
    let mut q = start.q;
    let mut lengths = packed(start.lengths);
    let mut col = start.col;
    let mut up = false;
    let mut head = head_at(src, base, q, lengths, &tables.heads);
    while col + V0Row::BLOCK <= w && q <= last {
        if !all_fit(head.sums) {
            break;
        }
        let from = q + head.size;
        let next = head.up;
        lengths = lengths_after(head.sums);
        let ends = ends_of(from, lengths);
        q = ends.fourth;
        head = head_at(src, base, q, lengths, &tables.heads);
        store_block(
            src,
            base,
            from,
            lengths,
            out,
            at.row * w + col,
            &tables.lanes,
        );
        finish(out, map, V0Place { col, ..at }, start.col, up);
        up = next;
        col += V0Row::BLOCK;
    }
    finish(out, map, V0Place { col, ..at }, start.col, up);
    Point {
        col,
        q,
        lengths: unpacked(lengths),
    }
}

// Whether a run begins at a block: at an inner one, after short lengths, where the record stands in the stream and no word was missing.
#[tactic(auto, unfolding(crate::specs::Run::run_begins))]
fn begins(src: &[u8], at: V0Place, state: V0Row) -> bool
    requires { InFrame at.size at.row at.col }
    ensures answered { result ≡ run_begins src.now at.size at.row at.col state }
    ensures stands { result ≡ true → Standing src.now state.bits 80 }
{
    is_inner(at.size, at.row, at.col)
        && state.bits.filler == 0
        && are_short(state.lengths)
        && stands_within(src, state.bits, BLOCK_BYTES)
}

// The run from a block on, of which there may be none. The record is made again after its last block.
pub fn decode_run(
    src: &[u8],
    at: V0Place,
    state: V0Row,
    out: &mut [u16],
    map: &mut [u8],
    tables: &Tables,
) -> Run
    requires { InFrame at.size at.row at.col × RunLent at.size at.col state.lengths out.old map.old }
    ensures ran { Ran src.now at.size at.row at.col state out.old map.old result.col result.state out.new map.new }
    ensures reaches { result.col ≡ run_end src.now at.size at.row at.col state }
{
    if !begins(src, at, state) {
        return Run { col: at.col, state };
    }
    let bits = state.bits;
    let lengths = state.lengths;
    let base = bits.pos as usize - BACK_BYTES;
    let start = Point {
        col: at.col,
        q: BACK_BITS - bits.count as usize,
        lengths,
    };
    let end = short_blocks(src, base, at, start, out, map, tables);
    let lengths = end.lengths;
    Run {
        col: end.col,
        state: V0Row {
            lengths,
            bits: state_at(src, base, end.q, 0),
        },
    }
}
