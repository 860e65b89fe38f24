// The samples of a call, made from its seed, and the sum of what it leaves.
ghost use Rattle.std.specs.Prelude.{◌<◌};

fn next_old(x: usize) -> usize
    ensures { result < 65_536 }
{
    (25_173 * (x % 65_536) + 13_849) % 65_536
}

fn sample_of(x: usize, quarter: bool) -> u16
    requires { x < 65_536 }
{
    if quarter {
        return (x / 4) as u16;
    }
    x as u16
}

// The samples that a seed makes, or a quarter of each, so that none is above 16,383.
pub(crate) fn fill(samples: &mut [u16], seed: usize, quarter: bool) {
    let mut x = seed;
    for sample in samples {
        x = next_old(x);
        *sample = sample_of(x, quarter);
    }
}

// Goes on with a sum over numbers.
pub(crate) fn sum<T>(first: usize, numbers: &[T]) -> usize
where
    T: Copy,
    u32: From<T>,
{
    let mut sum = first;
    for number in numbers {
        sum = (31 * (sum % 4_294_967_296) + u32::from(*number) as usize) % 4_294_967_296;
    }
    sum
}
