// Step 4 of a block: its four lengths, and what is remembered of them.
ghost use Rattle.std.specs.Prelude.{◌≡◌, ◌<◌, ◌≤◌};
ghost use Rattle.rules.specs.V2.{lengths_bit, colour, read_length, flagged_lengths, read_lengths};
ghost use Rattle.v2_parse.specs.Lengths.{moded};

use super::header::skips_bit;
use read_bits::four::read_flags;
use rules::{Bits, Got, Taken, V2Hdr};

// 0 where lengths follow.
fn lengths_bit(src: &[u8], hdr: V2Hdr, bits: Bits) -> Got
    ensures { result ≡ lengths_bit src.now hdr bits }
{
    if skips_bit(hdr) {
        Got { value: 0, bits }
    } else {
        read_bits::get(src, bits, 1)
    }
}

// The colour that length j belongs to.
fn colour_of(row: usize, j: usize) -> usize
    requires { j < 4 }
    ensures answered { result ≡ colour row j }
    ensures small { result < 3 }
{
    if row % 2 == 1 { j / 2 } else { (j / 2 + 2) % 3 }
}

// A length by its flag and the colour's first remembered length. Flag 1 takes 2^32 - 1 off, which adds one, and flag 2 takes one off,
// without a branch.
fn next_length(src: &[u8], flag: u32, first: u32, bits: Bits) -> Got
    requires { flag < 4 }
    ensures { result ≡ read_length src.now flag first bits }
{
    if flag == 3 {
        return read_bits::get(src, bits, 4);
    }
    let less = (flag / 2).wrapping_sub(flag % 2);
    Got {
        value: first.wrapping_sub(less),
        bits,
    }
}

// A length is above depth + 1: the four lengths so far, 0 where none was read, and the reader's state after them.
#[derive(Clone, Copy)]
pub struct TooLong {
    pub read: Taken<[u32; 4]>,
}

// A block's lengths, or the refusal that they meet, and beside either what is remembered after them.
#[derive(Clone, Copy)]
pub struct BlockLengths {
    pub read: Result<Taken<[u32; 4]>, TooLong>,
    pub remembered: [[u32; 2]; 3],
}

// Reads the four lengths of a block, up to the first that is too long, and remembers each in its colour's pair. What was remembered
// before it is a value of its own.
fn four_lengths(
    src: &[u8],
    depth: u32,
    row: usize,
    lengths: [[u32; 2]; 3],
    bits: Bits,
) -> BlockLengths
    requires { depth ≤ 16 }
    ensures { moded result.read result.remembered ≡ flagged_lengths src.now depth row lengths bits }
{
    let flags = read_flags(src, bits);
    let mut remembered = lengths;
    let mut read = Taken {
        value: [0u32; 4],
        bits: flags.bits,
    };
    for j in 0..4 {
        let colour = colour_of(row, j);
        let [first, second] = remembered[colour];
        let length = next_length(src, flags.value[j], first, read.bits);
        remembered[colour] = [second, length.value];
        read.value[j] = length.value;
        read.bits = length.bits;
        if depth + 1 < length.value {
            return BlockLengths {
                read: Err(TooLong { read }),
                remembered,
            };
        }
    }
    BlockLengths {
        read: Ok(read),
        remembered,
    }
}

// Reads a block's lengths: none where the stream says that all four are 0, and then what was remembered stays.
pub fn block_lengths(
    src: &[u8],
    hdr: V2Hdr,
    row: usize,
    lengths: [[u32; 2]; 3],
    bits: Bits,
) -> BlockLengths
    requires { hdr.depth ≤ 16 }
    ensures { moded result.read result.remembered ≡ read_lengths src.now hdr row lengths bits }
{
    let flag = lengths_bit(src, hdr, bits);
    if flag.value == 0 {
        return four_lengths(src, hdr.depth, row, lengths, flag.bits);
    }
    BlockLengths {
        read: Ok(Taken {
            value: [0u32; 4],
            bits: flag.bits,
        }),
        remembered: lengths,
    }
}
