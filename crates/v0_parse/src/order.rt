// The order of a block's samples in the stream: evens first, then odds.
ghost use Rattle.std.specs.Prelude.{◌≡◌, ◌<◌, get_or};
ghost use Rattle.rules.specs.V0.{order};

// The column in its block of sample k of the stream.
pub fn stream_column(k: usize) -> usize
    requires { k < 16 }
    ensures { (result ≡ get_or order k 0) × (result < 16) }
{
    2 * (k % 8) + k / 8
}
