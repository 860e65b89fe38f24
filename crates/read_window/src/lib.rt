// Reading by position, where all the words that a read needs are in the stream, so that no filler is read.
//
//   base     the byte position that bits are counted from: the start of a word
//   q        a bit's number, from the first bit of the word at `base` on
//   window   the 64 bits from bit q on, as a number
//   record   the reader's state, `Bits` (docs/RULES.md, "The reader")
//   stands   a record stands in the stream if its word is the stream's word before `pos`, so that a bit's number says the same as
//            the record does
//
// A caller asks first whether the record stands in the stream (`stands_within`), reads by position, and makes the record again at
// the bit after what it read (`state_at`).
#![tactic(auto)]

ghost use Rattle.std.specs.Prelude.{true, ◌≡◌, ◌+◌, ◌*◌, ◌/◌, ◌≤◌, ◌<◌, ◌^◌, length};
ghost use Rattle.rules.specs.Reader.{word_at};
ghost use Rattle.read_window.specs.Window.{state_at, Window, stands_in, Standing, standing_in};

pub mod four;

use rules::Bits;

// A record that stands in the stream is counted from three words before its position: how many bytes and bits these are.
pub const BACK_BYTES: usize = 12;

pub const BACK_BITS: usize = 96;

// The most bits that each of four numbers has that one window holds.
pub const SHORT_BITS: u32 = 16;

// The word at `at`, which is there. The compiler makes one load of the four.
fn word_there(src: &[u8], at: usize) -> u64
    requires { at + 4 ≤ length src.now }
    ensures { (result ≡ word_at src.now at) × (result < 2 ^ 32) }
{
    u64::from(src[at])
        + u64::from(src[at + 1]) * 256
        + u64::from(src[at + 2]) * 65_536
        + u64::from(src[at + 3]) * 16_777_216
}

// The 64 bits from bit q on: two words and the first bits of a third, moved up. A short number of the word takes fewer instructions.
pub fn window(src: &[u8], base: usize, q: usize) -> u64
    requires { (q < 2 ^ 32) × (base + q / 32 * 4 + 12 ≤ length src.now) }
    ensures { Window src.now base q result }
{
    let bit = q as u32;
    let at = base + (bit / 32) as usize * 4;
    let left = bit % 32;
    let two = word_there(src, at) * 4_294_967_296 + word_there(src, at + 4);
    let third = word_there(src, at + 8);
    (two << left) + (third << left) / 4_294_967_296
}

// Whether a state stands in the stream, with `more` bytes there from the word fetched last on. It compares that word with the
// stream's: so it answers for any state that a caller hands in.
fn stands(src: &[u8], bits: Bits, more: usize) -> bool
    requires { 4 ≤ more }
    ensures { result ≡ stands_in src.now bits more }
{
    let at = bits.pos as usize;
    let n = src.len();
    if 31 < bits.count {
        return false;
    }
    if at < 4 {
        return false;
    }
    if n < more {
        return false;
    }
    if n - more < at - 4 {
        return false;
    }
    word_there(src, at - 4) == u64::from(bits.word)
}

// Whether a state stands in the stream, with `more` bytes there from the word fetched last on and two words before that one: a
// window that ends in what follows may begin in them. Where it doesn't, a caller reads by the record.
pub fn stands_within(src: &[u8], bits: Bits, more: usize) -> bool
    requires { 4 ≤ more }
    ensures answered { result ≡ standing_in src.now bits more }
    ensures stands { result ≡ true → Standing src.now bits more }
{
    if bits.pos < 12 {
        return false;
    }
    stands(src, bits, more)
}

// Returns the record that stands before bit q, with a count of missing words.
pub fn state_at(src: &[u8], base: usize, q: usize, filler: u64) -> Bits
    requires { (0 < q) × ((q < 2 ^ 32) × (base + (q + 31) / 32 * 4 ≤ length src.now)) }
    ensures { result ≡ state_at src.now base q filler }
{
    let words = (q + 31) / 32;
    let at = base + words * 4;
    Bits {
        pos: at as u64,
        word: word_there(src, at - 4) as u32,
        count: (words * 32 - q) as u32,
        filler,
    }
}
