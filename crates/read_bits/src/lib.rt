// The reader's core: bits of a stream of words, the state by value. Any state, any stream, any count of bits and any 64-bit
// position is answered, by docs/RULES.md, "The reader".
//
// The state, `Bits`:
//   word     the word fetched last; its low `count` bits are unread
//   count    how many bits are unread, 0 to 31; a greater number counts as 0
//   pos      the byte position of the next word
//   filler   how many words were missing so far, held at the greatest count
//
// A word is missing where fewer than 4 bytes of the stream remain. It is read as ones, the filler.
#![tactic(auto)]

ghost use Rattle.std.specs.Prelude.{◌≡◌, ◌+◌, ◌*◌, ◌%◌, ◌<◌, ◌≤◌, min, true};
ghost use Rattle.rules.specs.Reader.{most_filler, fetched, counted, held, reset_at, read, read_signed, read_residual};
ghost use Rattle.read_bits.specs.Refilled.{joined_with, Enough, Whole};

pub mod four;

use read_fields::{field, residual_of, signed_of};
pub use rules::{Bits, Got, Taken};

// The word at `pos`, or none where fewer than 4 bytes remain: it is read as the filler.
pub fn fetch(src: &[u8], pos: u64) -> Option<u32>
    ensures { result ≡ fetched src.now pos }
{
    let at = pos as usize;
    let n = src.len();
    if 4 <= n {
        if at <= n - 4 {
            let bytes = [src[at], src[at + 1], src[at + 2], src[at + 3]];
            return Some(u32::from_le_bytes(bytes));
        }
    }
    None
}

// How many bits a read of n takes.
fn capped(n: u32) -> u32
    ensures { result ≡ min n 32 }
{
    n.min(Bits::WORD_BITS)
}

// A count of missing words after one more.
fn count_missing(filler: u64) -> u64
    ensures { result ≡ counted filler true }
{
    filler.saturating_add(1)
}

// Returns the sum of two counts of missing words, held at the greatest count as a reader's is.
pub fn held_sum(a: u64, b: u64) -> u64
    ensures { result ≡ min (a + b) most_filler }
{
    a.saturating_add(b)
}

// How many bits a state holds.
fn held_bits(bits: Bits) -> u32
    ensures { result ≡ held bits }
{
    if bits.count < Bits::WORD_BITS {
        bits.count
    } else {
        0
    }
}

// A state with enough bits for a read, and its bits: the low `bits.count` of `words`.
#[derive(Clone, Copy)]
struct Refilled {
    words: u64,
    bits: Bits,
}

// The bits held and those of a word that follows them, and the state after it with a count of missing words.
fn joined(bits: Bits, have: u32, word: u32, filler: u64) -> Refilled
    requires { have < 32 }
    ensures { result ≡ joined_with bits have word filler }
{
    Refilled {
        words: u64::from(bits.word) * 4_294_967_296 + u64::from(word),
        bits: Bits {
            pos: bits.pos.wrapping_add(Bits::WORD_BYTES),
            word,
            count: have + Bits::WORD_BITS,
            filler,
        },
    }
}

// Fetches a word if fewer than k bits are held. A missing word has a way out of its own, so that where words are there nothing is
// spent on the count.
fn refill(src: &[u8], bits: Bits, k: u32) -> Refilled
    requires { k ≤ 32 }
    ensures { Enough src.now bits k result }
{
    let have = held_bits(bits);
    if k <= have {
        return Refilled {
            words: u64::from(bits.word),
            bits: Bits {
                pos: bits.pos,
                word: bits.word,
                count: have,
                filler: bits.filler,
            },
        };
    }
    match fetch(src, bits.pos) {
        Some(word) => joined(bits, have, word, bits.filler),
        None => joined(bits, have, Bits::FILLER, count_missing(bits.filler)),
    }
}

// Reads n bits, at most 32, and says that a word it fetched has 32 bits: so the value can be cut into shorter fields. Both ways
// of `refill` end in one cut, and the remainder by 32, which changes nothing, tells the compiler what the next read need not
// test: so this reads in fewer instructions than two ways with a result each.
pub fn get_whole(src: &[u8], bits: Bits, n: u32) -> Got
    ensures { Whole src.now bits n result }
{
    let k = capped(n);
    let r = refill(src, bits, k);
    let full = r.bits;
    let left = full.count - k;
    Got {
        value: field(r.words, left, k),
        bits: Bits {
            pos: full.pos,
            word: full.word,
            count: left % Bits::WORD_BITS,
            filler: full.filler,
        },
    }
}

// Reads n bits, at most 32.
pub fn get(src: &[u8], bits: Bits, n: u32) -> Got
    ensures { result ≡ read src.now bits n }
{
    get_whole(src, bits, n)
}

// Drops the buffered bits and goes to `pos`; the count of missing words stays.
pub fn reset_at(bits: Bits, pos: u64) -> Bits
    ensures { result ≡ reset_at bits pos }
{
    let filler = bits.filler;
    Bits {
        pos,
        word: 0,
        count: 0,
        filler,
    }
}

// Reads a number of n bits, at most 32, in two's complement.
// The next function does the same for samples: each is a definition of the rules, which its contract names.
pub fn read_signed(src: &[u8], bits: Bits, n: u32) -> Taken<i32>
    ensures { result ≡ read_signed src.now bits n }
{
    let k = capped(n);
    let g = get(src, bits, n);
    let next = g.bits;
    Taken {
        value: signed_of(g.value, k),
        bits: next,
    }
}

// Reads a number of n bits, at most 32, in two's complement, modulo 65,536 as a sample adds it.
pub fn read_residual(src: &[u8], bits: Bits, n: u32) -> Taken<u16>
    ensures { result ≡ read_residual src.now bits n }
{
    let k = capped(n);
    let g = get(src, bits, n);
    let next = g.bits;
    Taken {
        value: residual_of(g.value, k),
        bits: next,
    }
}
