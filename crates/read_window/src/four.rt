// Four numbers of one width out of a window, in two's complement: whole, or modulo 65,536 as a sample adds them.
ghost use Rattle.std.specs.Prelude.{◌≡◌, ℕ, ◌+◌, ◌-◌, ◌*◌, ◌/◌, ◌%◌, ◌^◌, ◌<◌, ◌≤◌, length};
ghost use Rattle.std.proofs.Math.Dec.{lit≤};
ghost use Rattle.rules.specs.Reader.{signed, modulo};
ghost use Rattle.read_window.specs.Window.{FourAt};

use super::window;
use read_fields::power;

// What bits cut out of a window are.
pub trait Cut: Copy {
    // The most bits that one can have, and what n bits are.
    ghost most: { ℕ };

    ghost number: { ℕ → ℕ → Self };

    // The number that the lowest n bits of x are.
    fn low(x: u64, n: u32) -> Self
        requires { n ≤ most }
        ensures { result ≡ number n (x % 2 ^ n) };

    // Four that a window holds have at most 16 each.
    ghost short: { 16 ≤ most };
}

// A sum, a remainder and a difference, with no test of the sign.
impl Cut for i32 {
    ghost most = { 16 };

    ghost number = { signed };

    fn low(x: u64, n: u32) -> i32 {
        let top = power(n);
        let half = top / 2;
        (x.wrapping_add(half) % top) as i32 - half as i32
    }

    ghost short = { lit≤ tt };
}

// The same, modulo 65,536.
impl Cut for u16 {
    ghost most = { 32 };

    ghost number = { λ n v. modulo (signed n v) };

    fn low(x: u64, n: u32) -> u16 {
        let top = power(n);
        let half = top / 2;
        ((x.wrapping_add(half) % top + 4_294_967_296 - half) % 65_536) as u16
    }

    ghost short = { lit≤ tt };
}

// Four numbers of n bits from bit q on, out of the window that ends with them: the last is its lowest n bits. Each is moved down from
// the one after it, by the same number of bits: that takes fewer instructions than four cuts.
pub fn four_at<T: Cut>(src: &[u8], base: usize, q: usize, n: u32) -> [T; 4]
    requires { (n ≤ 16) × ((64 ≤ q) × ((q < 2 ^ 32) × (base + (q + 4 * n - 64) / 32 * 4 + 12 ≤ length src.now))) }
    ensures { FourAt (T.number n) src.now base q n result }
{
    let d = window(src, base, q + 4 * n as usize - 64);
    let c = d / power(n);
    let b = c / power(n);
    let a = b / power(n);
    [T::low(a, n), T::low(b, n), T::low(c, n), T::low(d, n)]
}
