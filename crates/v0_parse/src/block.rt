// A block's head and, where nothing is skipped, all sixteen residuals by value, read in one go. Both V0 decoders read their blocks
// by it.
ghost use Rattle.std.specs.Prelude.{true, cond, ◌≡◌, ◌+◌, ◌<◌, ◌^◌};
ghost use Rattle.rules.specs.V0.{length_bits, residual_bits, head};
ghost use Rattle.v0_parse.specs.Lengths.{Within, furthest};
ghost use Rattle.v0_parse.specs.Block.{with_residuals, whole_block, head_block};
ghost use Rattle.v0_parse.specs.PastEnd.{PastEnd, block_of_ones};

use super::head::read_head;
use read_bits::four::read_four;
use read_bits::held_sum;
use read_fields::residual_of;
use rules::{Bits, Predictor, V0Head, V0Row};

// A block's direction, the row's state after it, and its residuals in the order of the stream.
#[derive(Clone, Copy)]
pub struct ReadBlock {
    pub up: bool,
    pub row: V0Row,
    pub residuals: [u16; 16],
}

// The bits of a residual of some length.
pub fn residual_length(length: i32) -> u32
    ensures { result ≡ length_bits length }
{
    if length <= 0 {
        return 0;
    }
    if length < 32 {
        return length as u32;
    }
    32
}

// The bits of a sample's residual: a skipped one reads nothing.
pub fn residual_bits(from: Predictor, length: i32) -> u32
    ensures { result ≡ residual_bits from length }
{
    match from {
        Predictor::Skipped => 0,
        Predictor::Constant => residual_length(length),
        Predictor::Sample(_) => residual_length(length),
    }
}

// The residuals after a head. Samples 4 j to 4 j + 3 of the stream have length number j.
fn read_residuals(src: &[u8], head: V0Head) -> ReadBlock
    ensures { result ≡ with_residuals src.now head }
{
    let row = head.row;
    let lengths = row.lengths;
    let mut bits = row.bits;
    let mut residuals = [0; V0Row::BLOCK];
    for j in 0..4 {
        let n = residual_length(lengths[j]);
        let four = read_four(src, bits, n);
        let values = four.value;
        let k = 4 * j;
        residuals[k] = residual_of(values[0], n);
        residuals[k + 1] = residual_of(values[1], n);
        residuals[k + 2] = residual_of(values[2], n);
        residuals[k + 3] = residual_of(values[3], n);
        bits = four.bits;
    }
    let next = V0Row { lengths, bits };
    ReadBlock {
        up: head.up,
        row: next,
        residuals,
    }
}

// Whether a state is past the end of the stream, with ones alone left in it.
fn is_past(src: &[u8], bits: Bits) -> bool
    ensures { result ≡ true → PastEnd src.now bits }
{
    if bits.word != Bits::FILLER {
        return false;
    }
    if 31 < bits.count {
        return false;
    }
    if bits.pos < src.len() as u64 {
        return false;
    }
    bits.pos < 1_000_000_000_000_000_000
}

// The block that every state past the end reads: 265 ones.
fn ones_block(bits: Bits) -> ReadBlock
    requires { (bits.count < 32) × (bits.pos + 36 < 2 ^ 64) }
    ensures { result ≡ block_of_ones bits }
{
    let words = (296 - bits.count) / Bits::WORD_BITS;
    let end = Bits {
        pos: bits.pos + Bits::WORD_BYTES * words as u64,
        word: Bits::FILLER,
        count: bits.count + Bits::WORD_BITS * words - 265,
        filler: held_sum(bits.filler, words as u64),
    };
    let next = V0Row {
        lengths: [15; 4],
        bits: end,
    };
    ReadBlock {
        up: true,
        row: next,
        residuals: [65_535; V0Row::BLOCK],
    }
}

// A block: its head, and its residuals if the block is read whole. The head of every block is read here, since the compiler
// then makes one piece of code of it; a block past the end is known only after that, which takes the least from the others.
pub fn read_block(src: &[u8], row: V0Row, whole: bool) -> ReadBlock
    requires { Within furthest row.lengths }
    ensures { result ≡ cond whole (whole_block src.now row) (head_block src.now row) }
{
    let head = read_head(src, row);
    if whole {
        let bits = row.bits;
        if is_past(src, bits) {
            return ones_block(bits);
        }
        return read_residuals(src, head);
    }
    let next = head.row;
    ReadBlock {
        up: head.up,
        row: next,
        residuals: [0; V0Row::BLOCK],
    }
}

// A block's head alone.
pub fn read_block_head(src: &[u8], row: V0Row) -> V0Head
    requires { Within furthest row.lengths }
    ensures { result ≡ head src.now row }
{
    let block = read_block(src, row, false);
    let next = block.row;
    V0Head {
        up: block.up,
        row: next,
    }
}
