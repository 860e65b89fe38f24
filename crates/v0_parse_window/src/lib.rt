// A block by position, where the reader's record stands in the stream: its head out of one window, and four residuals of one length
// out of one or two. Nothing here is read twice, and no branch asks whether a word is to be fetched.
#![tactic(auto)]

ghost use Rattle.std.specs.Prelude.{◌≡◌, ◌+◌, ◌-◌, ◌*◌, ◌/◌, ◌%◌, ◌^◌, ◌<◌, ◌≤◌, length, if◌then◌else◌, nat_eq};
ghost use Rattle.std.specs.Int.Signed.{mag};
ghost use Rattle.v0_parse_window.specs.ByWindow.{residual, Room, length_in, HeadAt, last_start, Plans, short_length, short, Group};
ghost use Rattle.v0_parse.specs.Lengths.{Within, furthest};

use read_fields::{field, power};
use read_window::four::{Cut, four_at};
use read_window::{SHORT_BITS, window};
use v0_parse::block::residual_length;
use v0_parse::head::step;

// The bytes that have to be there from the word fetched last on: a block ends at most 569 bits after that word's start, in the
// eighteenth word, and a window may reach into the next but one.
pub const BLOCK_BYTES: usize = 80;

// The last bit of some bytes that a block may begin at: 608 are there from it on. A row's blocks have fewer than 2^20 bits, so that no
// more are counted, which need not fit.
pub fn last_start(bytes: usize) -> usize
    requires { 76 ≤ bytes }
    ensures { result ≡ last_start bytes }
{
    if bytes < 131_072 {
        return bytes * 8 - 608;
    }
    1_047_968
}

// A length after its operation, and how many bits of a window are left after what the operation read.
#[derive(Clone, Copy)]
struct WindowLength {
    length: i32,
    left: u32,
}

// A block's head, and the bit after it, where its residuals begin.
#[derive(Clone, Copy)]
pub struct WindowHead {
    pub up: bool,
    pub lengths: [i32; 4],
    pub q: usize,
}

// b if t is 1, a if it is 0: a product, since a test would often be guessed wrong.
fn chosen(t: u32, a: i32, b: i32) -> i32
    requires { (t < 2) × ((mag a ≤ 1_100) × (mag b ≤ 1_100)) }
    ensures { result ≡ (if nat_eq t 1 then b else a) }
{
    a + t as i32 * (b - a)
}

// A length after the operation that stands above `at` bits of a window v, where `left` bits of it are left: operation 3 takes the
// length from the first four of these.
fn window_length(v: u64, at: u32, left: u32, length: i32) -> WindowLength
    requires { (at < 64) × ((4 ≤ left) × ((left < 64) × (mag length ≤ furthest))) }
    ensures { result ≡ length_in v at left length }
{
    let op = field(v, at, 2);
    let reads = (op + 1) / 4;
    WindowLength {
        length: chosen(reads, step(op, length), field(v, left - 4, 4) as i32),
        left: left - 4 * reads,
    }
}

// A block's head from bit q on.
pub fn window_head(src: &[u8], base: usize, q: usize, lengths: [i32; 4]) -> WindowHead
    requires { Room src.now base q × Within furthest lengths }
    ensures { HeadAt src.now base q lengths result }
{
    let v = window(src, base, q);
    let a = window_length(v, 61, 55, lengths[0]);
    let b = window_length(v, 59, a.left, lengths[1]);
    let c = window_length(v, 57, b.left, lengths[2]);
    let d = window_length(v, 55, c.left, lengths[3]);
    WindowHead {
        up: field(v, 63, 1) == 1,
        lengths: [a.length, b.length, c.length, d.length],
        q: q + (64 - d.left) as usize,
    }
}

// How the residuals after a head lie: the bits of each group's, the bit that each group after the first begins at, and the bit after
// the last.
#[derive(Clone, Copy)]
pub struct Plan {
    pub n0: u32,
    pub n1: u32,
    pub n2: u32,
    pub n3: u32,
    pub q1: usize,
    pub q2: usize,
    pub q3: usize,
    pub end: usize,
}

// The plan after a head.
pub fn plan_of(head: WindowHead) -> Plan
    requires { head.q < 2 ^ 31 }
    ensures { Plans head result }
{
    let lengths = head.lengths;
    let n0 = residual_length(lengths[0]);
    let n1 = residual_length(lengths[1]);
    let n2 = residual_length(lengths[2]);
    let n3 = residual_length(lengths[3]);
    let q1 = head.q + 4 * n0 as usize;
    let q2 = q1 + 4 * n1 as usize;
    let q3 = q2 + 4 * n2 as usize;
    let end = q3 + 4 * n3 as usize;
    Plan {
        n0,
        n1,
        n2,
        n3,
        q1,
        q2,
        q3,
        end,
    }
}

// The longest of short lengths: four bits hold each, and with one more bit what an operation makes of it.
const SHORT: i32 = 15;

// Whether a length is the number of its residuals' bits, and four of them lie in one window; where it isn't, another way reads them. A
// clean length may be one more: either limit is a definition of its own (`short_length`, `fits`).
fn is_short(length: i32) -> bool
    ensures { result ≡ short_length length }
{
    0 <= length && length <= SHORT
}

// Whether all four lengths of a block are short.
pub fn are_short(lengths: [i32; 4]) -> bool
    ensures { result ≡ short lengths }
{
    lengths.iter().all(|length| is_short(*length))
}

// Four residuals of n bits, more than 16, from bit q on: two out of each of two windows.
pub fn four_long_at(src: &[u8], base: usize, q: usize, n: u32) -> [u16; 4]
    requires { (16 < n) × ((n ≤ 32) × ((q < 2 ^ 31) × (base + (q + 2 * n) / 32 * 4 + 12 ≤ length src.now))) }
    ensures { Group src.now base q n result }
{
    let b = window(src, base, q) / power(64 - 2 * n);
    let d = window(src, base, q + 2 * n as usize) / power(64 - 2 * n);
    [
        Cut::low(b / power(n), n),
        Cut::low(b, n),
        Cut::low(d / power(n), n),
        Cut::low(d, n),
    ]
}

// Four residuals of n bits from bit q on, however many bits these are. Inlined: a call would hand them over in memory.
#[inline(always)]
pub fn group_at(src: &[u8], base: usize, q: usize, n: u32) -> [u16; 4]
    requires { (n ≤ 32) × ((64 ≤ q) × ((q < 2 ^ 31) × (base + (q + 64) / 32 * 4 + 12 ≤ length src.now))) }
    ensures { Group src.now base q n result }
{
    if n <= SHORT_BITS {
        return four_at(src, base, q, n);
    }
    four_long_at(src, base, q, n)
}
