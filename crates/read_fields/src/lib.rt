// Numbers cut out of words, and two's complement: what `read_bits` reads with, and what cuts a read of several fields. Not interface:
// each caller shows that its widths fit.
#![tactic(auto)]

ghost use Rattle.std.specs.Prelude.{◌≡◌, ◌*◌, ◌/◌, ◌%◌, ◌^◌, ◌≤◌, ◌<◌};
ghost use Rattle.rules.specs.Reader.{signed, modulo};

// Returns 2 to the power k.
pub fn power(k: u32) -> u64
    requires { k < 64 }
    ensures { result ≡ 2 ^ k }
{
    1u64 << k
}

// The k bits of x above its lowest `left`.
pub fn field(x: u64, left: u32, k: u32) -> u32
    requires { (left < 64) × (k ≤ 32) }
    ensures { result ≡ x / 2 ^ left % 2 ^ k }
{
    (x / power(left) % power(k)) as u32
}

// What two's complement takes off the k bits v: 2^k if the highest is set, else 0. A residual's sign is not to be guessed, so
// there is no branch.
fn sign_part(v: u32, k: u32) -> u64
    requires { (k ≤ 32) × (v < 2 ^ k) }
    ensures { result ≡ v * 2 / 2 ^ k * 2 ^ k }
{
    let top = power(k);
    v as u64 * 2 / top * top
}

// The number that the k bits v are in two's complement.
pub fn signed_of(v: u32, k: u32) -> i32
    requires { (k ≤ 32) × (v < 2 ^ k) }
    ensures { result ≡ signed k v }
{
    (v as i64 - sign_part(v, k) as i64) as i32
}

// The number that the k bits v are in two's complement, modulo 65,536.
pub fn residual_of(v: u32, k: u32) -> u16
    requires { (k ≤ 32) × (v < 2 ^ k) }
    ensures { result ≡ modulo (signed k v) }
{
    ((4_294_967_296 + v as u64 - sign_part(v, k)) % 65_536) as u16
}
