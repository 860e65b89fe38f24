// What V2 reads of a block last: its differences, out of windows where the reader's record stands in the stream, else two by two.
#![tactic(auto)]

ghost use Rattle.std.specs.Prelude.{◌≡◌, ℕ, ◌+◌, ◌<◌};
ghost use Rattle.rules.specs.V2.{differences_from};
ghost use Rattle.read_window.specs.Window.{Standing};
ghost use Rattle.v2_differences.specs.Four.{Short, short};
ghost use Rattle.v2_differences.specs.Pairs.{signed_pair};
ghost use Rattle.v2_differences.specs.Positions.{row_positions, stored_four};

pub mod positions;

use positions::Positions;
use read_bits::{get_whole, read_signed};
use read_fields::{field, signed_of};
use read_window::four::four_at;
use read_window::{BACK_BITS, BACK_BYTES, SHORT_BITS, stands_within, state_at};
use rules::{Bits, Taken, V2Row};

// Two differences of n bits, by one read where 32 bits hold both: a read costs more than a cut of its value.
fn read_pair(src: &[u8], bits: Bits, n: u32) -> Taken<(i32, i32)>
    ensures { result ≡ signed_pair src.now n bits }
{
    if n <= 16 {
        let both = get_whole(src, bits, 2 * n);
        let v = u64::from(both.value);
        return Taken {
            value: (signed_of(field(v, n, n), n), signed_of(field(v, 0, n), n)),
            bits: both.bits,
        };
    }
    let first = read_signed(src, bits, n);
    let second = read_signed(src, first.bits, n);
    Taken {
        value: (first.value, second.value),
        bits: second.bits,
    }
}

// The sixteen differences two by two, whatever the state and the lengths.
fn by_pairs(
    src: &[u8],
    positions: &Positions,
    lengths: [u32; 4],
    bits: Bits,
    values: &mut [i32; 16],
) -> Bits
    ensures { (row : ℕ) → positions.now.places ≡ row_positions row → record { values = values.exit.now; bits = result } ≡ differences_from src.now row lengths 16 0 (record { values = values.entry.now; bits = bits }) }
{
    let mut at = bits;
    for half in 0..V2Row::BLOCK / 2 {
        let k = 2 * half;
        let pair = read_pair(src, at, lengths[k / 4]);
        let (first, second) = pair.value;
        values[positions.entry(k)] = first;
        values[positions.entry(k + 1)] = second;
        at = pair.bits;
    }
    at
}

// The bytes that the differences' windows reach over, from the word fetched last on: the last starts 224 bits on at most, and
// takes three words.
const REACH: usize = 40;

// Four differences, from number k on, each to the position that the table has for it, which is read right before its store: a
// register holds it no longer than that.
fn store_four(values: &mut [i32; 16], positions: &Positions, k: usize, four: [i32; 4])
    requires { k + 3 < 16 }
    ensures { values.new ≡ stored_four values.old positions.now.places k four }
{
    values[positions.entry(k)] = four[0];
    values[positions.entry(k + 1)] = four[1];
    values[positions.entry(k + 2)] = four[2];
    values[positions.entry(k + 3)] = four[3];
}

// The sixteen differences out of four windows, where the state stands in the stream: no read asks whether a word is left, and the
// state is made again at the end. Bits are counted from two words before the one fetched last.
fn by_windows(
    src: &[u8],
    positions: &Positions,
    lengths: [u32; 4],
    bits: Bits,
    values: &mut [i32; 16],
) -> Bits
    requires { Standing src.now bits 40 × Short lengths }
    ensures { (row : ℕ) → positions.now.places ≡ row_positions row → record { values = values.exit.now; bits = result } ≡ differences_from src.now row lengths 16 0 (record { values = values.entry.now; bits = bits }) }
{
    let base = bits.pos as usize - BACK_BYTES;
    let mut q = BACK_BITS - bits.count as usize;
    for j in 0..4 {
        let n = lengths[j];
        let four: [i32; 4] = four_at(src, base, q, n);
        store_four(values, positions, 4 * j, four);
        q += 4 * n as usize;
    }
    state_at(src, base, q, bits.filler)
}

// Whether a window holds four differences of each length.
fn are_short(lengths: [u32; 4]) -> bool
    ensures { result ≡ short lengths }
{
    lengths.iter().all(|length| *length <= SHORT_BITS)
}

// The sixteen differences, each at its position, for a row that has these.
pub fn block_differences(
    src: &[u8],
    positions: &Positions,
    lengths: [u32; 4],
    bits: Bits,
    values: &mut [i32; 16],
) -> Bits
    ensures { (row : ℕ) → positions.now.places ≡ row_positions row → record { values = values.exit.now; bits = result } ≡ differences_from src.now row lengths 16 0 (record { values = values.entry.now; bits = bits }) }
{
    if are_short(lengths) && stands_within(src, bits, REACH) {
        return by_windows(src, positions, lengths, bits, values);
    }
    by_pairs(src, positions, lengths, bits, values)
}
