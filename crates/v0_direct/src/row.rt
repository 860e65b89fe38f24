// A row: its blocks one after another, the inner ones in one go and the others by the literal rule.
ghost use Rattle.std.specs.Prelude.{◌≡◌, ◌+◌, ◌*◌, ◌^◌, ◌<◌, length};
ghost use Rattle.rules.specs.V0 as V0;
ghost use Rattle.rules.specs.Reader.{has_filler};
ghost use Rattle.rules.specs.Frame.{cells, ended};
ghost use Rattle.rules.specs.Map.{with_filler, v0_marks};
ghost use Rattle.v0_parse_window.specs.ByWindow.{Ahead, Ends, residuals_of, residuals_ahead};
ghost use Rattle.v0_cells.specs.Inner.{inner_ops};
ghost use Rattle.v0_cells.specs.Places.{InFrame, Inner};
ghost use Rattle.v0_direct.specs.FrameLent.{InRow, BlockLent, RunLent};
ghost use Rattle.v0_direct.specs.Block.{Decoded, BlockRun};

use super::run::{Run, decode_run};
use super::sample::decode_samples;
use super::{V0Place, is_inner};
use frame_map::fill_block;
use read_window::{BACK_BITS, BACK_BYTES, stands_within, state_at};
use rules::{Bits, Size, V0Row};
use v0_cells::inner::{mark_block, put_four, put_inner};
use v0_lanes::tables::Tables;
use v0_parse::block::{read_block, read_block_head};
use v0_parse_window::{BLOCK_BYTES, WindowHead, group_at, plan_of, window_head};

// The residuals after a head that was read by position: the bit after them. Each group is put as it is read, so that few registers hold
// a block.
fn put_groups(src: &[u8], base: usize, head: WindowHead, at: V0Place, out: &mut [u16]) -> usize
    requires { Ahead src.now base head.q residuals_ahead × (Inner at.size at.row at.col × (length out.old ≡ cells at.size)) }
    ensures ends { Ends src.now base head result }
    ensures samples { out.new ≡ V0.apply V0.sample_kind (inner_ops at.size.width (at.row * at.size.width + at.col) head.up V0.order (residuals_of src.now base head)) out.old }
{
    let plan = plan_of(head);
    let w = at.size.width;
    let first = at.row * w + at.col;
    let a = group_at(src, base, head.q, plan.n0);
    put_four(out, w, first, head.up, 0, a);
    let b = group_at(src, base, plan.q1, plan.n1);
    put_four(out, w, first, head.up, 8, b);
    let c = group_at(src, base, plan.q2, plan.n2);
    put_four(out, w, first, head.up, 1, c);
    let d = group_at(src, base, plan.q3, plan.n3);
    put_four(out, w, first, head.up, 9, d);
    plan.end
}

// An inner block by the record, whatever its state.
fn decode_by_record(src: &[u8], at: V0Place, state: V0Row, out: &mut [u16], map: &mut [u8]) -> V0Row
    requires { Inner at.size at.row at.col × BlockLent at.size state.lengths out.old map.old }
    ensures { Decoded src.now at.size at.row at.col state out.old map.old result out.new map.new }
{
    let x = read_block(src, state, true);
    let w = at.size.width;
    put_inner(out, w, at.row * w + at.col, x.up, x.residuals);
    mark_block(map, at.size, at.row, at.col, x.up);
    x.row
}

// An inner block: from row 2 on, after column 0 and inside its row nothing is skipped, so that all residuals are read in one go, by
// windows where the record stands in the stream.
fn decode_inner(src: &[u8], at: V0Place, state: V0Row, out: &mut [u16], map: &mut [u8]) -> V0Row
    requires { Inner at.size at.row at.col × BlockLent at.size state.lengths out.old map.old }
    ensures { Decoded src.now at.size at.row at.col state out.old map.old result out.new map.new }
{
    let bits = state.bits;
    if stands_within(src, bits, BLOCK_BYTES) {
        let base = bits.pos as usize - BACK_BYTES;
        let head = window_head(src, base, BACK_BITS - bits.count as usize, state.lengths);
        let end = put_groups(src, base, head, at, out);
        mark_block(map, at.size, at.row, at.col, head.up);
        let lengths = head.lengths;
        return V0Row {
            lengths,
            bits: state_at(src, base, end, bits.filler),
        };
    }
    decode_by_record(src, at, state, out, map)
}

// A block by the literal rule, sample by sample. Its end is `end_block`.
fn decode_edge(src: &[u8], at: V0Place, state: V0Row, out: &mut [u16], map: &mut [u8]) -> V0Row
    requires { InFrame at.size at.row at.col × BlockLent at.size state.lengths out.old map.old }
    ensures { Decoded src.now at.size at.row at.col state out.old map.old result out.new map.new }
{
    let head = read_block_head(src, state);
    let bits = decode_samples(src, at, head, out, map);
    let lengths = head.row.lengths;
    V0Row { lengths, bits }
}

// One block: an inner one in one go, any other sample by sample. Its end is `end_block`.
fn decode_block(src: &[u8], at: V0Place, state: V0Row, out: &mut [u16], map: &mut [u8]) -> V0Row
    requires { InFrame at.size at.row at.col × BlockLent at.size state.lengths out.old map.old }
    ensures { Decoded src.now at.size at.row at.col state out.old map.old result out.new map.new }
{
    if is_inner(at.size, at.row, at.col) {
        return decode_inner(src, at, state, out, map);
    }
    decode_edge(src, at, state, out, map)
}

// A block's end: its map bytes gain 2 if its reader had fetched filler by then.
fn end_block(map: &mut [u8], place: usize, bits: Bits)
    requires { place + 16 < 2 ^ 64 }
    ensures { map.new ≡ ended with_filler 0 (has_filler bits) place map.old }
{
    if bits.filler == 0 {
        return;
    }
    fill_block(map, place);
}

// A run of blocks from a column on, and the block after it, if the row has one more.
fn decode_blocks(
    src: &[u8],
    at: V0Place,
    state: V0Row,
    out: &mut [u16],
    map: &mut [u8],
    tables: &Tables,
) -> Run
    requires { InFrame at.size at.row at.col × RunLent at.size at.col state.lengths out.old map.old }
    ensures { (at.col < result.col) × BlockRun src.now at.size at.row at.col state out.old map.old result.col result.state out.new map.new }
{
    let run = decode_run(src, at, state, out, map, tables);
    let w = at.size.width;
    if w <= run.col {
        return run;
    }
    let next = V0Place { col: run.col, ..at };
    let state = decode_block(src, next, run.state, out, map);
    end_block(map, at.row * w + run.col, state.bits);
    Run {
        col: run.col + V0Row::BLOCK,
        state,
    }
}

// A row whose data begins at an offset of the stream: how many words were missing in it.
pub fn decode_row(
    src: &[u8],
    size: Size,
    row: usize,
    offset: u32,
    out: &mut [u16],
    map: &mut [u8],
    tables: &Tables,
) -> u64
    requires { InRow size row out.old map.old }
    ensures missing { result ≡ (V0.row_blocks src.now size row offset).bits.filler }
    ensures samples { out.new ≡ V0.write_all V0.sample_kind (V0.row_blocks src.now size row offset).blocks out.old }
    ensures marks { map.new ≡ V0.write_all v0_marks (V0.row_blocks src.now size row offset).blocks map.old }
{
    let w = size.width;
    let mut state = V0Row::fresh(row, offset);
    let mut col: usize = 0;
    while col < w {
        let blocks = decode_blocks(src, V0Place { size, row, col }, state, out, map, tables);
        state = blocks.state;
        col = blocks.col;
    }
    state.bits.filler
}

// A row whose data begins at `start`, by the literal rule alone: rows 0 and 1 have no inner block, so that they need no tables.
pub fn decode_early_row(
    src: &[u8],
    size: Size,
    row: usize,
    start: u32,
    out: &mut [u16],
    map: &mut [u8],
)
    requires { InRow size row out.old map.old }
    ensures { out.new ≡ V0.write_all V0.sample_kind (V0.row_blocks src.now size row start).blocks out.old }
{
    let w = size.width;
    let mut state = V0Row::fresh(row, start);
    for block in 0..V0Row::blocks_in(w) {
        let col = block * V0Row::BLOCK;
        state = decode_edge(src, V0Place { size, row, col }, state, out, map);
        end_block(map, row * w + col, state.bits);
    }
}
