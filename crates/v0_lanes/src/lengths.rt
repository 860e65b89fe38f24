// The four lengths of a block in one number, a byte each: a head's operations on all four at once, one test of all, and where the groups
// end.
ghost use Rattle.std.specs.Prelude.{◌≡◌, ◌+◌, ◌-◌, ◌*◌, ◌/◌, ◌%◌, ◌^◌, ◌<◌, true};
ghost use Rattle.v0_parse_window.specs.ByWindow.{short};
ghost use Rattle.v0_lanes.specs.Lanes.{lanes};
ghost use Rattle.v0_lanes.specs.Lengths.{Packed, HeadOf, actions, lengths_of, lengths_after, block_end, byte0, byte1, byte2};
ghost use Rattle.v0_lanes.specs.Tables.{Holds};

use v0_parse::block::residual_length;

// Four lengths of 0 to 15, the first in the lowest byte.
#[derive(Clone, Copy)]
pub struct ShortLengths {
    pub bytes: u32,
    pub ghost packed: { Packed bytes },
}

// Four short lengths in one number, and the four of a number. The remainders say that each is below 16.
pub fn packed(lengths: [i32; 4]) -> ShortLengths
    requires { short lengths ≡ true }
    ensures { lengths_of result.bytes ≡ lengths }
{
    ShortLengths {
        bytes: residual_length(lengths[0]) % 16
            + residual_length(lengths[1]) % 16 * 256
            + residual_length(lengths[2]) % 16 * 65_536
            + residual_length(lengths[3]) % 16 * 16_777_216,
    }
}

pub fn unpacked(l: ShortLengths) -> [i32; 4]
    ensures { result ≡ lengths_of l.bytes }
{
    [
        (l.bytes % 256) as i32,
        (l.bytes / 256 % 256) as i32,
        (l.bytes / 65_536 % 256) as i32,
        (l.bytes / 16_777_216) as i32,
    ]
}

// A head: its direction, the lengths after it, each 128 more, and how many bits it has.
#[derive(Clone, Copy)]
pub struct PackedHead {
    pub up: bool,
    pub sums: u32,
    pub size: usize,
}

// The four bits of x that each byte of s points to, in bytes.
fn nibbles(x: u64, s: u32) -> u32
    ensures { result ≡ lanes 8 (x / 2 ^ (s / 16_777_216 % 64 + 24) % 16) (x / 2 ^ (s / 65_536 % 64 + 16) % 16) (x / 2 ^ (s / 256 % 64 + 8) % 16) (x / 2 ^ (s % 64) % 16) }
{
    let first = (x >> (s % 64)) % 16;
    let second = (x >> (s / 256 % 64)) & 3_840;
    let third = (x >> (s / 65_536 % 64)) & 983_040;
    let fourth = (x >> (s / 16_777_216 % 64)) & 251_658_240;
    (first + second + third + fourth) as u32
}

// A head out of the bits v, its first bit highest, after lengths of 0 to 15.
pub fn packed_head(v: u64, l: ShortLengths, t: &[u32; 1024]) -> PackedHead
    requires { Holds actions 1_024 t.now }
    ensures { HeadOf v l.bytes result }
{
    let i = (v / 36_028_797_018_963_968 % 256) as usize * 4;
    let x = nibbles(v % 36_028_797_018_963_968, t[i + 2]);
    PackedHead {
        up: v / 9_223_372_036_854_775_808 == 1,
        sums: (l.bytes & t[i]) + t[i + 1] + x,
        size: t[i + 3] as usize,
    }
}

// Whether all four lengths are 0 to 15.
pub fn all_fit(sums: u32) -> bool
    ensures { result ≡ short (lengths_after sums) }
{
    sums & 4_042_322_160 == 2_155_905_152
}

// The lengths for the next head, if all are. The mask tells the compiler that each is below 16.
pub fn lengths_after(sums: u32) -> ShortLengths
    ensures { short (lengths_after sums) ≡ true → lengths_of result.bytes ≡ lengths_after sums }
{
    ShortLengths {
        bytes: sums & 252_645_135,
    }
}

// Where the four groups after a head end, if the first begins at bit q.
#[derive(Clone, Copy)]
pub struct Ends {
    pub first: usize,
    pub second: usize,
    pub third: usize,
    pub fourth: usize,
}

pub fn ends_of(q: usize, l: ShortLengths) -> Ends
    requires { q < 2 ^ 32 }
    ensures first_value { result.first ≡ q + 4 * byte0 l.bytes }
    ensures second_value { result.second ≡ q + 4 * byte0 l.bytes + 4 * byte1 l.bytes }
    ensures third_value { result.third ≡ q + 4 * byte0 l.bytes + 4 * byte1 l.bytes + 4 * byte2 l.bytes }
    ensures fourth_value { result.fourth ≡ block_end q l.bytes }
{
    let sums = u64::from(l.bytes) * 16_843_009;
    Ends {
        first: q + (l.bytes % 256 * 4) as usize,
        second: q + (sums / 256 % 256) as usize * 4,
        third: q + (sums / 65_536 % 256) as usize * 4,
        fourth: q + (sums / 16_777_216 % 256) as usize * 4,
    }
}
