// The check of clean frames (docs/RULES.md, "Clean frames") over a whole V0 stream, before a sample is written. Blocks are read as
// the direct decoder reads them, by the same functions, but that an inner block's residuals are passed over where they are there;
// nothing is written, since the frame that the others would write to has no cells.
#![tactic(auto)]

ghost use Rattle.std.specs.Prelude.{◌≡◌, true, ◌&&◌, ltb, ◌+◌, ◌≤◌, ◌<◌, ◌^◌};
ghost use Rattle.v0_cells.specs.Places.{InFrame};
ghost use Rattle.v0_parse.specs.Block.{whole_block};
ghost use Rattle.v0_parse.specs.Lengths.{Within, furthest};
ghost use Rattle.rules.specs.Answer.{done};
ghost use Rattle.rules.specs.Refusals.{refusal_number, answer_number};
ghost use Rattle.rules_clean.specs.Verdict.{fits, all_fit, block_fault, row_fault, fault_at, rows_verdict, verdict};
ghost use Rattle.v0_lanes.specs.Lengths.{actions};
ghost use Rattle.v0_lanes.specs.Tables.{Holds};
ghost use Rattle.v0_clean.specs.OffsetsLent.{OffsetsLent, RowLent, InRow, FourLent};
ghost use Rattle.v0_clean.specs.Block.{seen};
ghost use Rattle.v0_clean.specs.Row.{Placed, fault_from, Decides};
ghost use Rattle.v0_clean.specs.Faults.{told};
ghost use Rattle.v0_clean.specs.Rows.{RowsIn, RowsPlaced, or_after, in_order, four_from, Parted};

pub mod heads;

use heads::{OfFour, pass_rows};
use read_window::{BACK_BITS, BACK_BYTES, stands_within, state_at};
use rules::{Answer, Refusal, Size, V0Head, V0Row};
use v0_direct::run::Run;
use v0_direct::sample::decode_samples;
use v0_direct::{V0Place, is_inner};
use v0_lanes::tables::fill_heads;
use v0_parse::block::{read_block, read_block_head};
use v0_parse_window::{BLOCK_BYTES, plan_of, window_head};

// A block of which nothing is skipped. Where the record stands in the stream, its residuals are passed over: the head tells how many
// bits they have.
fn pass_block(src: &[u8], state: V0Row) -> V0Head
    requires { Within furthest state.lengths }
    ensures { result ≡ record { up = (whole_block src.now state).up; row = (whole_block src.now state).row } }
{
    let bits = state.bits;
    if stands_within(src, bits, BLOCK_BYTES) {
        let base = bits.pos as usize - BACK_BYTES;
        let head = window_head(src, base, BACK_BITS - bits.count as usize, state.lengths);
        let plan = plan_of(head);
        let lengths = head.lengths;
        let bits = state_at(src, base, plan.end, bits.filler);
        return V0Head {
            up: head.up,
            row: V0Row { lengths, bits },
        };
    }
    let block = read_block(src, state, true);
    V0Head {
        up: block.up,
        row: block.row,
    }
}

// A block read to its end: its direction, and the row's state there.
fn see_block(src: &[u8], size: Size, row: usize, col: usize, state: V0Row) -> V0Head
    requires { InFrame size row col × Within furthest state.lengths }
    ensures { result ≡ seen src.now size row col state }
{
    if is_inner(size, row, col) {
        return pass_block(src, state);
    }
    let head = read_block_head(src, state);
    let mut no_samples = [0u16; 0];
    let mut no_map = [0u8; 0];
    let at = V0Place { size, row, col };
    let bits = decode_samples(src, at, head, &mut no_samples, &mut no_map);
    let lengths = head.row.lengths;
    V0Head {
        up: head.up,
        row: V0Row { lengths, bits },
    }
}

// What is wrong with a frame: its first fault, and the row that has it.
#[derive(Clone, Copy)]
pub struct Fault {
    pub refusal: Refusal,
    pub row: u32,
}

// A fault's number and its row; no word counts as missing.
impl From<Fault> for Answer {
    ghost from_gives = { λ fault answer. answer ≡ fault_at fault.row (refusal_number fault.refusal) };

    fn from(fault: Fault) -> Answer {
        Answer {
            number: fault.refusal.number(),
            row: fault.row,
            filler: 0,
        }
    }
}

// A refusal of the whole frame: its row is 0.
impl From<Refusal> for Fault {
    ghost from_gives = { λ refusal fault. fault ≡ record { refusal = refusal; row = 0 } };

    fn from(refusal: Refusal) -> Fault {
        Fault { refusal, row: 0 }
    }
}

// The answer of a check: done, or its fault's.
pub fn answer_of(checked: Result<(), Fault>) -> Answer
    ensures { result ≡ told checked }
{
    match checked {
        Ok(()) => Answer::done(),
        Err(fault) => Answer::from(fault),
    }
}

// The greatest length of a clean block.
const MOST_LENGTH: i32 = 16;

// Whether a length lies in 0 to 16.
fn length_fits(length: i32) -> bool
    ensures { result ≡ fits length }
{
    0 <= length && length <= MOST_LENGTH
}

// Whether all four lengths of a block lie in 0 to 16.
fn lengths_fit(lengths: [i32; 4]) -> bool
    ensures { result ≡ all_fit lengths }
{
    if !length_fits(lengths[0]) {
        return false;
    }
    if !length_fits(lengths[1]) {
        return false;
    }
    if !length_fits(lengths[2]) {
        return false;
    }
    length_fits(lengths[3])
}

// Whether a block looks up from row 0 or 1.
fn is_early(row: usize, up: bool) -> bool
    ensures { result ≡ ltb row 2 && up }
{
    row < 2 && up
}

// What is wrong with a block of a row.
fn check_block(row: usize, block: V0Head) -> Result<(), Refusal>
    ensures { answer_number result ≡ block_fault row block block.row.bits }
{
    if is_early(row, block.up) {
        return Err(Refusal::EarlyUpward);
    }
    if !lengths_fit(block.row.lengths) {
        return Err(Refusal::BadLength);
    }
    if block.row.bits.filler != 0 {
        return Err(Refusal::MissingWord);
    }
    Ok(())
}

// The first that is wrong with a row from a point on. A `while` steps by blocks, since the point is any column.
fn check_from(src: &[u8], size: Size, row: usize, at: Run) -> Result<(), Refusal>
    requires { InRow size row × Placed size at }
    ensures { answer_number result ≡ fault_from src.now size row at }
{
    let mut state = at.state;
    let mut col = at.col;
    while col < size.width {
        let block = see_block(src, size, row, col, state);
        check_block(row, block)?;
        state = block.row;
        col += V0Row::BLOCK;
    }
    Ok(())
}

// A row whose data begins at an offset of the stream, after its first block if that is clean, else before it.
fn begin_row(src: &[u8], size: Size, row: usize, offset: u32) -> Run
    requires { InRow size row × (0 < size.width) }
    ensures { Decides src.now size row (row_fault src.now size row offset) result }
{
    let state = V0Row::fresh(row, offset);
    let block = see_block(src, size, row, 0, state);
    match check_block(row, block) {
        Ok(()) => Run {
            col: V0Row::BLOCK,
            state: block.row,
        },
        Err(_) => Run { col: 0, state },
    }
}

// The first fault of a row from a point on.
fn check_rest(src: &[u8], size: Size, row: usize, at: Run) -> Result<(), Fault>
    requires { InRow size row × Placed size at }
    ensures { told result ≡ or_after row (fault_from src.now size row at) done }
{
    check_from(src, size, row, at).map_err(|refusal| Fault {
        refusal,
        row: row as u32,
    })
}

// The verdict on one row.
fn check_one(src: &[u8], offsets: &[u32], size: Size, row: usize) -> Result<(), Fault>
    requires { OffsetsLent size offsets.now × (row < size.height) }
    ensures { told result ≡ rows_verdict src.now offsets.now size 1 row }
{
    let start = Run {
        col: 0,
        state: V0Row::fresh(row, offsets[row]),
    };
    check_rest(src, size, row, start)
}

// The first fault of four rows from points on, in the order of the rows.
fn check_in_order(src: &[u8], size: Size, row: usize, rows: OfFour<Run>) -> Result<(), Fault>
    requires { RowsIn size row × RowsPlaced size rows }
    ensures { told result ≡ in_order src.now size row rows }
{
    check_rest(src, size, row, rows.a)?;
    check_rest(src, size, row + 1, rows.b)?;
    check_rest(src, size, row + 2, rows.c)?;
    check_rest(src, size, row + 3, rows.d)
}

// The verdict on four rows from row 2 on, their heads side by side.
fn check_four(
    src: &[u8],
    offsets: &[u32],
    size: Size,
    row: usize,
    heads: &[u32; 1024],
) -> Result<(), Fault>
    requires { FourLent size row offsets.now × Holds actions 1_024 heads.now }
    ensures { told result ≡ rows_verdict src.now offsets.now size 4 row }
{
    let begun = OfFour {
        a: begin_row(src, size, row, offsets[row]),
        b: begin_row(src, size, row + 1, offsets[row + 1]),
        c: begin_row(src, size, row + 2, offsets[row + 2]),
        d: begin_row(src, size, row + 3, offsets[row + 3]),
    };
    let passed = pass_rows(src, size, begun, heads);
    check_in_order(src, size, row, passed)
}

// Whether four rows from a row on can be checked side by side: all are there, none is row 0 or 1, and they are not empty.
fn has_four(size: Size, row: usize) -> bool
    requires { row < size.height }
    ensures answered { result ≡ four_from size row }
    ensures there { result ≡ true → (2 ≤ row) × ((row + 4 ≤ size.height) × (0 < size.width)) }
{
    if row < 2 {
        return false;
    }
    if size.height - row < 4 {
        return false;
    }
    0 < size.width
}

// Checks four rows, or one where there are no four from row 2 on: how many.
fn check_part(
    src: &[u8],
    offsets: &[u32],
    size: Size,
    row: usize,
    heads: &[u32; 1024],
) -> Result<usize, Fault>
    requires { RowLent size row offsets.now × Holds actions 1_024 heads.now }
    ensures { Parted src.now offsets.now size row result }
{
    if !has_four(size, row) {
        check_one(src, offsets, size, row)?;
        return Ok(1);
    }
    check_four(src, offsets, size, row, heads)?;
    Ok(4)
}

// The verdict on a frame: its first fault, or none if it is clean. A `while` steps by parts, of one row or of four.
pub fn check_frame(src: &[u8], offsets: &[u32], size: Size) -> Result<(), Fault>
    requires { OffsetsLent size offsets.now }
    ensures { told result ≡ verdict src.now offsets.now size }
{
    let mut heads = [0u32; 1024];
    fill_heads(&mut heads);
    let mut row = 0;
    while row < size.height {
        row += check_part(src, offsets, size, row, &heads)?;
    }
    Ok(())
}
