// What the lanes and the packed lengths go by, made once for a frame. The tables are the caller's: handed back by value, each would lie
// on the stack twice.
ghost use Rattle.std.specs.Prelude.{◌≡◌, ◌+◌, ◌-◌, ◌*◌, ◌/◌, ◌%◌, ◌<◌, length};
ghost use Rattle.v0_lanes.specs.Lanes.{lanes};
ghost use Rattle.v0_lanes.specs.Lengths.{keep, step, reads, shift, action, actions};
ghost use Rattle.v0_lanes.specs.Tables.{Holds, shape, shapes};

use read_fields::power;

// The table of the lanes and that of the heads, each filled by its rule. What reads heads alone, as the verdict on a clean frame does,
// fills that table alone.
#[derive(Drop)]
pub struct Tables {
    pub lanes: [u64; 96],
    pub heads: [u32; 1024],
    pub ghost of_lanes: { Holds shapes 96 lanes },
    pub ghost of_heads: { Holds actions 1_024 heads },
}

// What four residuals of n bits are made with, by its number k.
#[tactic(auto, unfolding(crate::specs::Tables::shape))]
fn shape_of(n: u32, k: usize) -> u64
    requires { n < 16 }
    ensures { result ≡ shape n k }
{
    let t = power(n);
    match k {
        0 => power(4 * n) - 1,
        1 => 4_294_967_296 - power(2 * n),
        2 => (t - 1) * 4_294_967_296 + (t - 1),
        3 => 65_536 - t,
        4 => t / 2 * 281_479_271_743_489,
        _ => 131_072 / t - 2,
    }
}

// All of it for each n below 16, to a table of 96.
pub fn fill_lanes(t: &mut [u64; 96])
    requires { length t.old ≡ 96 }
    ensures { Holds shapes 96 t.new }
{
    for i in 0..96 {
        t[i] = shape_of((i % 16) as u32, i / 16);
    }
}

// The bits of a length that an operation keeps. An operation is its number, 0 to 3, and no enum: each rule below reckons with it.
#[tactic(auto, unfolding(crate::specs::Lengths::keep))]
fn keep_of(op: u32) -> u32
    ensures { (result ≡ keep op) × (result < 256) }
{
    if op == 3 { 0 } else { 255 }
}

// What it adds, 128 more.
#[tactic(auto, unfolding(crate::specs::Lengths::step))]
fn step_of(op: u32) -> u32
    requires { op < 4 }
    ensures { (result ≡ step op) × (result < 256) }
{
    if op == 3 { 128 } else { 128 + op % 2 - op / 2 }
}

// How many lengths it reads.
fn reads_of(op: u32) -> u32
    requires { op < 4 }
    ensures { (result ≡ reads op) × (result < 2) }
{
    (op + 1) / 4
}

// How far the bits that it reads, after r others, lie above byte j.
#[tactic(auto, unfolding(crate::specs::Lengths::shift))]
fn shift_of(op: u32, r: u32, j: u32) -> u32
    requires { (r < 4) × (j < 4) }
    ensures { (result ≡ shift op r j) × (result < 64) }
{
    if op == 3 { 51 - 4 * r - 8 * j } else { 63 }
}

// Four bytes in a number, the first lowest.
fn four_bytes(a: u32, b: u32, c: u32, d: u32) -> u32
    requires { (a < 256) × ((b < 256) × ((c < 256) × (d < 256))) }
    ensures { result ≡ lanes 8 d c b a }
{
    ((d * 256 + c) * 256 + b) * 256 + a
}

// What the head of the operations o does, by its number k.
#[tactic(auto, unfolding(crate::specs::Lengths::action))]
fn action_of(o: u32, k: usize) -> u32
    requires { o < 256 }
    ensures { result ≡ action o k }
{
    let a = o / 64;
    let b = o / 16 % 4;
    let c = o / 4 % 4;
    let d = o % 4;
    let second = reads_of(a);
    let third = second + reads_of(b);
    let fourth = third + reads_of(c);
    match k {
        0 => four_bytes(keep_of(a), keep_of(b), keep_of(c), keep_of(d)),
        1 => four_bytes(step_of(a), step_of(b), step_of(c), step_of(d)),
        2 => four_bytes(
            shift_of(a, 0, 0),
            shift_of(b, second, 1),
            shift_of(c, third, 2),
            shift_of(d, fourth, 3),
        ),
        _ => 9 + 4 * (fourth + reads_of(d)),
    }
}

// All of it for each of 256 heads, to a table of 1,024.
pub fn fill_heads(t: &mut [u32; 1024])
    requires { length t.old ≡ 1_024 }
    ensures { Holds actions 1_024 t.new }
{
    for i in 0..1024 {
        t[i] = action_of((i / 4) as u32, i % 4);
    }
}
