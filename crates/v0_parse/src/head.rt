// A block's head: its direction, and the row's lengths after its operations.
ghost use Rattle.std.specs.Prelude.{◌≡◌, ◌<◌, ◌≤◌};
ghost use Rattle.std.specs.Int.Signed.{mag};
ghost use Rattle.rules.specs.V0.{operated, operate, head};
ghost use Rattle.v0_parse.specs.Lengths.{stepped, Below, Within, furthest};

use read_bits::{get, get_whole};
use rules::{Bits, Taken, V0Head, V0Row};

// A length after operation 0, 1 or 2; operation 3 leaves it. A sum, since a test of the operation would often be guessed wrong.
pub fn step(op: u32, length: i32) -> i32
    requires { (op < 4) × (mag length ≤ furthest) }
    ensures { result ≡ stepped op length }
{
    length + (op % 2) as i32 - (op / 2) as i32
}

// A length after its operation.
fn read_length(src: &[u8], op: u32, length: i32, bits: Bits) -> Taken<i32>
    requires { (op < 4) × (mag length ≤ furthest) }
    ensures { result ≡ operated src.now op length bits }
{
    if op == 3 {
        let g = get(src, bits, 4);
        let next = g.bits;
        return Taken {
            value: g.value as i32,
            bits: next,
        };
    }
    Taken {
        value: step(op, length),
        bits,
    }
}

// The four lengths after their operations, in order.
fn read_lengths(src: &[u8], ops: [u32; 4], lengths: [i32; 4], bits: Bits) -> V0Row
    requires { Below 4 ops × Within furthest lengths }
    ensures { result ≡ operate src.now ops lengths bits }
{
    let a = read_length(src, ops[0], lengths[0], bits);
    let b = read_length(src, ops[1], lengths[1], a.bits);
    let c = read_length(src, ops[2], lengths[2], b.bits);
    let d = read_length(src, ops[3], lengths[3], c.bits);
    let next = d.bits;
    V0Row {
        lengths: [a.value, b.value, c.value, d.value],
        bits: next,
    }
}

// A direction bit, four 2-bit operations, and the lengths that they leave. The nine bits are read at once.
pub(crate) fn read_head(src: &[u8], row: V0Row) -> V0Head
    requires { Within furthest row.lengths }
    ensures { result ≡ head src.now row }
{
    let g = get_whole(src, row.bits, 9);
    let v = g.value;
    let ops = [v / 64 % 4, v / 16 % 4, v / 4 % 4, v % 4];
    let lengths = row.lengths;
    let next = read_lengths(src, ops, lengths, g.bits);
    V0Head {
        up: v / 256 == 1,
        row: next,
    }
}
