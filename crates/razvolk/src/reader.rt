// The bit reader, its state by value.
ghost use Rattle.std.specs.Prelude.{◌≡◌};
ghost use Rattle.rules.specs.Reader.{reset_at, read};

use rules::{Bits, Got};

// Reads n bits, at most 32, of the stream at a state.
#[unsafe(no_mangle)]
pub extern "C" fn razvolk_get(src: &[u8], state: Bits, n: u32) -> Got
    ensures { result ≡ read src.now state n }
{
    read_bits::get(src, state, n)
}

// Drops the buffered bits and goes to `pos`; the count of missing words stays.
#[unsafe(no_mangle)]
pub extern "C" fn razvolk_reset_at(state: Bits, pos: u64) -> Bits
    ensures { result ≡ reset_at state pos }
{
    read_bits::reset_at(state, pos)
}
