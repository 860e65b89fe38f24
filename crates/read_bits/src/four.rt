// Four fields of one width, in as few reads as 32 bits allow: a read costs more than the cuts of its value.
ghost use Rattle.std.specs.Prelude.{◌≡◌, ◌≤◌};
ghost use Rattle.rules.specs.Reader.{four};

use super::{get, get_whole};
use read_fields::field;
use rules::{Bits, Taken};

// Reads four fields of n bits by one read.
fn read_short(src: &[u8], bits: Bits, n: u32) -> Taken<[u32; 4]>
    requires { n ≤ 8 }
    ensures { result ≡ four src.now n bits }
{
    let g = get_whole(src, bits, 4 * n);
    let v = u64::from(g.value);
    let next = g.bits;
    Taken {
        value: [
            field(v, 3 * n, n),
            field(v, 2 * n, n),
            field(v, n, n),
            field(v, 0, n),
        ],
        bits: next,
    }
}

// Reads four fields of n bits, two by each of two reads.
fn read_medium(src: &[u8], bits: Bits, n: u32) -> Taken<[u32; 4]>
    requires { n ≤ 16 }
    ensures { result ≡ four src.now n bits }
{
    let g = get_whole(src, bits, 2 * n);
    let h = get_whole(src, g.bits, 2 * n);
    let v = u64::from(g.value);
    let w = u64::from(h.value);
    let next = h.bits;
    Taken {
        value: [
            field(v, n, n),
            field(v, 0, n),
            field(w, n, n),
            field(w, 0, n),
        ],
        bits: next,
    }
}

// Reads four fields of n bits, each by a read of its own.
fn read_long(src: &[u8], bits: Bits, n: u32) -> Taken<[u32; 4]>
    ensures { result ≡ four src.now n bits }
{
    let a = get(src, bits, n);
    let b = get(src, a.bits, n);
    let c = get(src, b.bits, n);
    let d = get(src, c.bits, n);
    let next = d.bits;
    Taken {
        value: [a.value, b.value, c.value, d.value],
        bits: next,
    }
}

pub fn read_four(src: &[u8], bits: Bits, n: u32) -> Taken<[u32; 4]>
    ensures { result ≡ four src.now n bits }
{
    if n <= 8 {
        return read_short(src, bits, n);
    }
    if n <= 16 {
        return read_medium(src, bits, n);
    }
    read_long(src, bits, n)
}

// Four fields of 2 bits. A function of its own, since `read_four` is called from one place and so compiled into it.
pub fn read_flags(src: &[u8], bits: Bits) -> Taken<[u32; 4]>
    ensures { result ≡ four src.now 2 bits }
{
    read_short(src, bits, 2)
}
