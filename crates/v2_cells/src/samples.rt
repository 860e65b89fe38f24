// Step 6 of a block: its samples.
ghost use Rattle.std.specs.Prelude.{◌≡◌, ℕ, ◌<◌, pos, ◌+ℤ◌, length, get_or};
ghost use Rattle.std.specs.Int.{w32};
ghost use Rattle.std.proofs.Common.{SFits};
ghost use Rattle.rules.specs.Frame.{tabulate};
ghost use Rattle.rules.specs.V2.{value, hold, sample};
ghost use Rattle.rules.specs.Ranges.{Between, Small, Fits};

use rules::V2Row;

// Base + difference times (2 scale + 1) + scale.
fn scaled(base: u16, d: i32, scale: i32) -> i32
    requires { Fits base d scale }
    ensures { result ≡ value base d scale }
{
    i32::from(base) + d * (2 * scale + 1) + scale
}

// Base + difference: what `scaled` comes to where the scale is 0, without its products.
fn unscaled(base: u16, d: i32) -> i32
    requires { SFits w32 (pos base +ℤ d) }
    ensures { result ≡ pos base +ℤ d }
{
    i32::from(base) + d
}

// A block has one scale, often 0: the compiler tests it once for all sixteen samples.
fn value_of(base: u16, d: i32, scale: i32) -> i32
    requires { Fits base d scale }
    ensures { result ≡ value base d scale }
{
    if scale == 0 {
        return unscaled(base, d);
    }
    scaled(base, d, scale)
}

// A value held to 0..top.
fn held(v: i32, top: u32) -> u32
    ensures { result ≡ hold top v }
{
    (v.max(0) as u32).min(top)
}

fn sample_of(base: u16, d: i32, scale: i32, top: u32) -> u16
    requires { Small d × (Between 512 4_605 scale × (top < 65_536)) }
    ensures { result ≡ sample top scale d base }
{
    held(value_of(base, d, scale), top) as u16
}

// The sixteen samples from their bases and differences.
pub fn build(base: &[u16; 16], d: &[i32; 16], scale: i32, top: u32, samples: &mut [u16; 16])
    requires { ((k : ℕ) → Small (get_or d.now k (pos 0))) × (Between 512 4_605 scale × (top < 65_536)) }
    ensures { samples.new ≡ tabulate 16 0 (λ i. sample top scale (get_or d.now i (pos 0)) (get_or base.now i 0)) }
{
    for i in 0..V2Row::BLOCK {
        samples[i] = sample_of(base[i], d[i], scale, top);
    }
}
