// Bits written into a lent buffer, word by word, and a block of V0 or V2. What waits for its word is passed by value.
#![tactic(auto)]

ghost use Rattle.std.specs.Prelude.{◌≡◌, [], ◌∷◌, ◌++◌, ◌+◌, ◌*◌, ◌-◌, ◌/◌, ◌%◌, ◌^◌, ◌≤◌, ◌<◌, false, length, replicate};
ghost use Rattle.std.proofs.lemmas.List.Edits.{sets};
ghost use Rattle.write_rules.specs.Writer.{bits_of, gap, Unit, word_bytes, smallest, lengths_for, block_bits};
ghost use Rattle.write_rules.specs.Weight.{weight, Short};
ghost use Rattle.write_rules.specs.Pending.{put_state, put_out};
ghost use Rattle.write_bits.specs.Block.{numbers, numbers_bits, opening_number, Shorts, Lengths};

use read_fields::power;
use rules::V0Row;
pub use write_rules::Pending;

// ── Words ──

// Stores a word's four bytes, lowest first.
pub fn store(out: &mut [u8], at: usize, x: u32)
    requires { at + 4 ≤ length out.old }
    ensures { out.new ≡ sets out.old at (word_bytes x) }
{
    // Four stores become one; before `copy_from_slice` addresses would be compared.
    let bytes = x.to_le_bytes();
    out[at] = bytes[0];
    out[at + 1] = bytes[1];
    out[at + 2] = bytes[2];
    out[at + 3] = bytes[3];
}

// The bits that wait, and the low n bits of x after them.
fn join(p: Pending, n: u32, x: u32) -> u64
    requires { n ≤ 32 }
    ensures { result ≡ p.word * 2 ^ n + x % 2 ^ n }
{
    u64::from(p.word) * power(n) + u64::from(x) % power(n)
}

// The low 32 bits of x.
fn low(x: u64) -> u32
    ensures { result ≡ x % 2 ^ 32 }
{
    // A cast, since the library has no `From` for it.
    (x % 4_294_967_296) as u32
}

// ── Bits ──

// Writes the low n bits of x, n at most 32: a word is stored once it is full.
pub fn put(out: &mut [u8], p: Pending, n: u32, x: u32) -> Pending
    requires { (p.count < 32) × (n ≤ 32) × (8 * p.pos + p.count + n ≤ 8 * length out.old) }
    ensures { (result ≡ put_state p (bits_of n x)) × (out.new ≡ put_out out.old p (bits_of n x)) }
{
    let both = join(p, n, x);
    let at = p.pos;
    let count = p.count + n;
    if count < 32 {
        return Pending {
            pos: at,
            word: low(both),
            count,
        };
    }
    let left = count - 32;
    store(out, at, low(both >> left));
    Pending {
        pos: at + 4,
        word: low(both),
        count: left,
    }
}

// Writes zero bits up to a whole word.
fn to_word(out: &mut [u8], p: Pending) -> Pending
    requires { (p.count < 32) × (8 * p.pos + p.count + gap 32 p.count ≤ 8 * length out.old) }
    ensures { (result ≡ put_state p (replicate (gap 32 p.count) false)) × (out.new ≡ put_out out.old p (replicate (gap 32 p.count) false)) }
{
    if p.count == 0 {
        return p;
    }
    let n = 32 - p.count;
    put(out, p, n, 0)
}

// Writes zero bits up to a whole number of `unit` bytes.
pub fn finish(out: &mut [u8], p: Pending, unit: usize) -> Pending
    requires { Unit unit × (p.count < 32) × (p.pos % 4 ≡ 0) × (8 * p.pos + p.count + gap (8 * unit) (8 * p.pos + p.count) ≤ 8 * length out.old) }
    ensures { (result ≡ put_state p (replicate (gap (8 * unit) (8 * p.pos + p.count)) false)) × (out.new ≡ put_out out.old p (replicate (gap (8 * unit) (8 * p.pos + p.count)) false)) }
{
    let mut q = to_word(out, p);
    while q.pos % unit != 0 {
        q = put(out, q, 32, 0);
    }
    q
}

// ── Lengths ──

// A number's weight.
fn weight_of(d: u16) -> u32
    ensures { result ≡ weight d }
{
    let x = u32::from(d);
    if x < 32_768 {
        return 2 * x;
    }
    2 * (65_535 - x) + 1
}

// The smallest length of 0 to 15 that holds four numbers: as many bits as the greatest weight has.
pub fn length_of(a: u16, b: u16, c: u16, d: u16) -> u32
    requires { Short a × Short b × Short c × Short d }
    ensures { result ≡ smallest (a ∷ b ∷ c ∷ d ∷ []) }
{
    let ab = weight_of(a).max(weight_of(b));
    let cd = weight_of(c).max(weight_of(d));
    32 - ab.max(cd).leading_zeros()
}

// A block's four lengths.
// No type for `Shorts`: it holds of frames that can be written (`Writable`), and `numbers_of` is asked of others too.
fn lengths_of(d: [u16; 16]) -> [u32; 4]
    requires { Shorts d }
    ensures { result ≡ lengths_for (numbers d) }
{
    [
        length_of(d[0], d[1], d[2], d[3]),
        length_of(d[4], d[5], d[6], d[7]),
        length_of(d[8], d[9], d[10], d[11]),
        length_of(d[12], d[13], d[14], d[15]),
    ]
}

// ── A block ──

// A block's first 25 bits: 0, four times 3, and the lengths.
fn opening(lengths: [u32; 4]) -> u32
    requires { Lengths lengths }
    ensures { result ≡ opening_number lengths }
{
    16_711_680 + lengths[0] * 4_096 + lengths[1] * 256 + lengths[2] * 16 + lengths[3]
}

// How many bits a block has.
pub fn block_length(d: [u16; 16]) -> usize
    requires { Shorts d }
    ensures { result ≡ length (block_bits (numbers d)) }
{
    let lengths = lengths_of(d);
    // A cast, since the library has no `From` for it.
    (25 + 4 * (lengths[0] + lengths[1] + lengths[2] + lengths[3])) as usize
}

// Two numbers of n bits as one of twice as many.
fn pair(n: u32, a: u16, b: u16) -> u32
    requires { n < 16 }
    ensures { result ≡ a * 2 ^ n + b % 2 ^ n }
{
    // A cast, since the library has no `From` for it.
    (u64::from(a) * power(n) + u64::from(b) % power(n)) as u32
}

// Writes the low n bits of two numbers at once.
fn put_pair(out: &mut [u8], p: Pending, n: u32, a: u16, b: u16) -> Pending
    requires { (p.count < 32) × (n < 16) × (8 * p.pos + p.count + 2 * n ≤ 8 * length out.old) }
    ensures { (result ≡ put_state p (bits_of n a ++ bits_of n b)) × (out.new ≡ put_out out.old p (bits_of n a ++ bits_of n b)) }
{
    put(out, p, 2 * n, pair(n, a, b))
}

// Writes sixteen numbers, each with its length. Two that follow one another have the same.
fn put_numbers(out: &mut [u8], p: Pending, lengths: [u32; 4], d: [u16; 16]) -> Pending
    requires { (p.count < 32) × Lengths lengths × (8 * p.pos + p.count + length (numbers_bits lengths d) ≤ 8 * length out.old) }
    ensures { (result ≡ put_state p (numbers_bits lengths d)) × (out.new ≡ put_out out.old p (numbers_bits lengths d)) }
{
    let mut q = p;
    for k in 0..V0Row::BLOCK / 2 {
        q = put_pair(out, q, lengths[k / 2], d[2 * k], d[2 * k + 1]);
    }
    q
}

// Writes a block of V0 or V2, whose numbers come in the order of the stream.
pub fn put_block(out: &mut [u8], p: Pending, d: [u16; 16]) -> Pending
    requires { (p.count < 32) × Shorts d × (8 * p.pos + p.count + length (block_bits (numbers d)) ≤ 8 * length out.old) }
    ensures { (result ≡ put_state p (block_bits (numbers d))) × (out.new ≡ put_out out.old p (block_bits (numbers d))) }
{
    let lengths = lengths_of(d);
    let q = put(out, p, 25, opening(lengths));
    put_numbers(out, q, lengths, d)
}
