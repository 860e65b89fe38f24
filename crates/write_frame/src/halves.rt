// A block by its halves: in the order of the stream eight samples of one parity come first, then eight of the other. Those of a half
// are two places apart, and have one prediction.
ghost use Rattle.std.specs.Prelude.{◌≡◌, cond, ◌+◌, ◌-◌, ◌%◌, ◌≤◌, ◌<◌, eqb, ltb, length, get_or};
ghost use Rattle.rules.specs.Frame.{tabulate};
ghost use Rattle.write_frame.specs.Frames.{by_halves};

use rules::V0Row;

// A sample less its prediction, modulo 65,536.
pub fn less(a: u16, p: u16) -> u16
    ensures { result ≡ (a + 65_536 - p) % 65_536 }
{
    a.wrapping_sub(p)
}

// What a half is predicted from: in a row's first block a constant, else the sample two places before its first.
pub fn prediction(samples: &[u16], constant: u16, col: usize, first: usize) -> u16
    requires { (col % 16 ≡ 0) × (col ≤ first) × (first < length samples.now) }
    ensures { result ≡ cond (eqb col 0) constant (get_or samples.now (first - 2) 0) }
{
    if col == 0 {
        return constant;
    }
    samples[first - 2]
}

// What belongs to the half of sample k.
fn of_half<T: Copy>(k: usize, first: T, second: T) -> T
    ensures { result ≡ cond (ltb k 8) first second }
{
    if k < 8 { first } else { second }
}

// The numbers of a block whose halves begin at `first` and at `second`, predicted from `p` and from `q`.
pub fn halves(samples: &[u16], first: usize, second: usize, p: u16, q: u16) -> [u16; 16]
    requires { (first + 14 < length samples.now) × (second + 14 < length samples.now) }
    ensures { result ≡ tabulate 16 0 (by_halves samples.now first second p q) }
{
    let mut d = [0u16; V0Row::BLOCK];
    for k in 0..V0Row::BLOCK {
        let start = of_half(k, first, second);
        let prediction = of_half(k, p, q);
        d[k] = less(samples[start + 2 * (k % 8)], prediction);
    }
    d
}
