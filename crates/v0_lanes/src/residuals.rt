// Four residuals of one length at once: the four fields that a window ends with are moved apart into four lanes of 16 bits, all by two
// products, and a third fills the bits above each that is negative. What they are multiplied by and masked with is in a table.
ghost use Rattle.std.specs.Prelude.{◌≡◌, ◌+◌, ◌-◌, ◌*◌, ◌/◌, ◌%◌, ◌^◌, ◌<◌, ◌≤◌, length};
ghost use Rattle.v0_parse_window.specs.ByWindow.{residual, Group};
ghost use Rattle.v0_lanes.specs.Lanes.{lanes, lanes_of, residual_lanes, LanesBelow};
ghost use Rattle.v0_lanes.specs.Tables.{Holds, shapes};

use read_window::window;

// Four fields of n bits as two halves of 32. That n is below 16 each contract says by itself: a type for it would be opened at each shift.
fn halved(d: u64, n: u32, whole: u64, gap: u64) -> u64
    requires { (n < 16) × ((whole ≡ 2 ^ (4 * n) - 1) × (gap ≡ 2 ^ 32 - 2 ^ (2 * n))) }
    ensures { result ≡ d / 2 ^ (2 * n) % 2 ^ (2 * n) * 2 ^ 32 + d % 2 ^ (2 * n) }
{
    let x = d & whole;
    x + (x >> (2 * n)) * gap
}

// Two halves of two fields each as four lanes of 16.
fn quartered(y: u64, n: u32, mask: u64, gap: u64) -> u64
    requires n_bound { (n < 16) × ((y / 2 ^ 32 < 2 ^ (2 * n)) × (y % 2 ^ 32 < 2 ^ (2 * n))) }
    requires mask_value { (mask ≡ (2 ^ n - 1) * 2 ^ 32 + (2 ^ n - 1)) × (gap ≡ 2 ^ 16 - 2 ^ n) }
    ensures { result ≡ lanes 16 (y / 2 ^ 32 / 2 ^ n) (y / 2 ^ 32 % 2 ^ n) (y % 2 ^ 32 / 2 ^ n) (y % 2 ^ 32 % 2 ^ n) }
{
    y + ((y >> n) & mask) * gap
}

// Each lane as the residual that its field of n bits is.
fn with_signs(z: u64, n: u32, signs: u64, fill: u64) -> u64
    requires n_bound { (n < 16) × LanesBelow (2 ^ n) z }
    requires signs_value { (signs ≡ 2 ^ n / 2 * 281_479_271_743_489) × (fill ≡ 131_072 / 2 ^ n - 2) }
    ensures { result ≡ lanes 16 (residual n (z / 2 ^ 48)) (residual n (z / 2 ^ 32 % 2 ^ 16)) (residual n (z / 2 ^ 16 % 2 ^ 16)) (residual n (z % 2 ^ 16)) }
{
    z + (z & signs) * fill
}

// The four residuals of n bits that d ends with.
pub fn four_lanes(d: u64, n: u32, t: &[u64; 96]) -> u64
    requires { (n < 16) × Holds shapes 96 t.now }
    ensures { result ≡ residual_lanes n d }
{
    let i = n as usize;
    let y = halved(d, n, t[i], t[i + 16]);
    let z = quartered(y, n, t[i + 32], t[i + 48]);
    with_signs(z, n, t[i + 64], t[i + 80])
}

// The four residuals of n bits that end before bit e, out of the window that ends with them.
pub fn lanes_at(src: &[u8], base: usize, e: usize, n: u32, t: &[u64; 96]) -> u64
    requires n_bound { (n < 16) × Holds shapes 96 t.now }
    requires n_bound_2 { (64 + 4 * n ≤ e) × ((e < 2 ^ 32) × (base + (e - 64) / 32 * 4 + 12 ≤ length src.now)) }
    ensures { Group src.now base (e - 4 * n) n (lanes_of result) }
{
    four_lanes(window(src, base, e - 64), n, t)
}
