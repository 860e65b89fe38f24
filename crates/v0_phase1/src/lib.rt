// Phase one: a row's residuals to its samples, and the directions of its blocks to the scratch.
#![tactic(auto)]

mod run;

ghost use Rattle.std.specs.Prelude.{◌≡◌, cond, ◌++◌, map, ◌+◌, ◌-◌, ◌≤◌, ◌<◌, ltb, length, get_or, set, drop};
ghost use Rattle.rules.specs.Limits.{most_side};
ghost use Rattle.rules.specs.V0.{order, blocks_in};
ghost use Rattle.rules.specs.Answer.{scratch_bytes};
ghost use Rattle.rules.specs.Phases.{store_samples, store_blocks, row_records, direction, phase_one, scratch};
ghost use Rattle.v0_parse_window.specs.ByWindow.{Ahead, Ends, residuals_of, residuals_ahead};
ghost use Rattle.v0_cells.specs.Places.{PhaseLent};
ghost use Rattle.v0_phase1.specs.RowLent.{RowLent, BlockLent, RunLent};
ghost use Rattle.v0_phase1.specs.Parsed.{Parsed};
ghost use Rattle.v0_phase1.specs.Ran.{Ran};

use read_window::{BACK_BITS, BACK_BYTES, stands_within, state_at};
use rules::{Size, V0Row};
use run::{Run, parse_run};
use v0_parse::block::read_block;
use v0_parse::order::stream_column;
use v0_parse_window::{BLOCK_BYTES, WindowHead, group_at, plan_of, window_head};

// A residual to column i of a row; past the row's end it is dropped.
fn store_residual(out: &mut [u16], width: usize, i: usize, residual: u16)
    requires { width ≤ length out.old }
    ensures { out.new ≡ cond (ltb i width) (set out.old i residual) out.old }
{
    if i < width {
        out[i] = residual;
    }
}

// The residuals of a block that may reach past its row's end.
fn store_edge(out: &mut [u16], width: usize, col: usize, residuals: [u16; 16])
    requires { (width ≤ length out.old) × (col < most_side) }
    ensures { out.new ≡ store_samples 0 width col order residuals out.old }
{
    for k in 0..V0Row::BLOCK {
        let c = stream_column(k);
        store_residual(out, width, col + c, residuals[k]);
    }
}

// The residuals of a block that lies within its row, with no test of each.
fn store_inner(out: &mut [u16], width: usize, col: usize, residuals: [u16; 16])
    requires { (width ≤ length out.old) × ((col + 16 ≤ width) × (width ≤ most_side)) }
    ensures { out.new ≡ store_samples 0 width col order residuals out.old }
{
    for k in 0..V0Row::BLOCK {
        let c = stream_column(k);
        out[col + c] = residuals[k];
    }
}

// The residuals of the block at a column of a row.
fn store_residuals(out: &mut [u16], width: usize, col: usize, residuals: [u16; 16])
    requires { (width ≤ length out.old) × ((col < most_side) × (width ≤ most_side)) }
    ensures { out.new ≡ store_samples 0 width col order residuals out.old }
{
    if col + V0Row::BLOCK <= width {
        store_inner(out, width, col, residuals);
    } else {
        store_edge(out, width, col, residuals);
    }
}

// Four residuals to column i of a row and every other one after it.
fn store_four(out: &mut [u16], i: usize, four: [u16; 4])
    requires { (i + 6 < length out.old) × (i < most_side) }
    ensures { out.new ≡ set (set (set (set out.old i (get_or four 0 0)) (i + 2) (get_or four 1 0)) (i + 4) (get_or four 2 0)) (i + 6) (get_or four 3 0) }
{
    out[i] = four[0];
    out[i + 2] = four[1];
    out[i + 4] = four[2];
    out[i + 6] = four[3];
}

// The residuals after a head that was read by position, to the block at a column within its row; and the bit after them. Each group
// is stored as it is read, so that few registers hold a block.
fn store_groups(
    src: &[u8],
    base: usize,
    head: WindowHead,
    out: &mut [u16],
    width: usize,
    col: usize,
) -> usize
    requires { Ahead src.now base head.q residuals_ahead × ((width ≤ length out.old) × ((col + 16 ≤ width) × (width ≤ most_side))) }
    ensures ends { Ends src.now base head result }
    ensures samples { out.new ≡ store_samples 0 width col order (residuals_of src.now base head) out.old }
{
    let plan = plan_of(head);
    let a = group_at(src, base, head.q, plan.n0);
    store_four(out, col, a);
    let b = group_at(src, base, plan.q1, plan.n1);
    store_four(out, col + 8, b);
    let c = group_at(src, base, plan.q2, plan.n2);
    store_four(out, col + 1, c);
    let d = group_at(src, base, plan.q3, plan.n3);
    store_four(out, col + 9, d);
    plan.end
}

// Block k of a row by the record, whatever its state.
fn parse_by_record(
    src: &[u8],
    row: V0Row,
    width: usize,
    k: usize,
    out: &mut [u16],
    dirs: &mut [u8],
) -> V0Row
    requires { BlockLent width k row.lengths out.old dirs.old }
    ensures { Parsed src.now row width k out.old dirs.old result out.new dirs.new }
{
    let block = read_block(src, row, true);
    dirs[k] = u8::from(block.up);
    store_residuals(out, width, k * V0Row::BLOCK, block.residuals);
    block.row
}

// Block k of a row: its residuals and its direction, by windows where it lies within the row and the record stands in the stream.
fn parse_block(
    src: &[u8],
    row: V0Row,
    width: usize,
    k: usize,
    out: &mut [u16],
    dirs: &mut [u8],
) -> V0Row
    requires { BlockLent width k row.lengths out.old dirs.old }
    ensures { Parsed src.now row width k out.old dirs.old result out.new dirs.new }
{
    let bits = row.bits;
    let col = k * V0Row::BLOCK;
    if col + V0Row::BLOCK <= width && stands_within(src, bits, BLOCK_BYTES) {
        let base = bits.pos as usize - BACK_BYTES;
        let head = window_head(src, base, BACK_BITS - bits.count as usize, row.lengths);
        let end = store_groups(src, base, head, out, width, col);
        dirs[k] = u8::from(head.up);
        let lengths = head.lengths;
        return V0Row {
            lengths,
            bits: state_at(src, base, end, bits.filler),
        };
    }
    parse_by_record(src, row, width, k, out, dirs)
}

// Some blocks from block k on: a run of short ones, and the one after it.
fn parse_some(
    src: &[u8],
    row: V0Row,
    width: usize,
    k: usize,
    out: &mut [u16],
    dirs: &mut [u8],
) -> Run
    requires { RunLent width k row.lengths out.old dirs.old }
    ensures { Ran src.now width k row out.old dirs.old result.k result.row out.new dirs.new × (k < result.k) }
{
    let run = parse_run(src, row, width, k, out, dirs);
    if run.k < V0Row::blocks_in(width) {
        let row = parse_block(src, run.row, width, run.k, out, dirs);
        return Run { k: run.k + 1, row };
    }
    run
}

// A row from row 2 on, whose first sample is the first of `out`, and its first block's direction the first of `dirs`.
pub fn parse_v0_residuals(src: &[u8], offset: u32, width: usize, out: &mut [u16], dirs: &mut [u8])
    requires { RowLent width out.old dirs.old }
    ensures residuals { out.new ≡ store_blocks 0 width 0 (row_records src.now width 2 offset) out.old }
    ensures directions { dirs.new ≡ map direction (row_records src.now width 2 offset) ++ drop (blocks_in width) dirs.old }
{
    let blocks = V0Row::blocks_in(width);
    let mut row = V0Row::fresh(2, offset);
    let mut k: usize = 0;
    while k < blocks {
        let run = parse_some(src, row, width, k, out, dirs);
        row = run.row;
        k = run.k;
    }
}

// Rows 2 on: each is lent as the part of the samples that starts at its first, and the part of the scratch that starts at its
// first direction.
pub fn parse_rows(src: &[u8], offsets: &[u32], size: Size, out: &mut [u16], dirs: &mut [u8])
    requires { PhaseLent size out.old dirs.old × (size.height ≤ length offsets.now) }
    ensures residuals { out.new ≡ phase_one src.now offsets.now size.width (size.height - 2) 2 out.old }
    ensures directions { dirs.new ≡ scratch src.now offsets.now size ++ drop (scratch_bytes size) dirs.old }
{
    let w = size.width;
    let h = size.height;
    let blocks = V0Row::blocks_in(w);
    for r in 0..h.saturating_sub(2) {
        let row = r + 2;
        let first = row * w;
        let start = r * blocks;
        parse_v0_residuals(src, offsets[row], w, &mut out[first..], &mut dirs[start..]);
    }
}
