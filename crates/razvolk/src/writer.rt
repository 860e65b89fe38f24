// The V0 writer.
ghost use Rattle.write_rules.specs.Calls.{call, Yields};

use write_rules::Written;

// Writes samples as V0: the stream, and where each row begins. Refusals 1, 3, 9 and 10, which change nothing.
#[unsafe(no_mangle)]
pub extern "C" fn razvolk_write_v0(
    samples: &[u16],
    width: usize,
    height: usize,
    stream: &mut [u8],
    offsets: &mut [u32],
) -> Written
    ensures { Yields (call samples.now width height stream.old offsets.old)
        result stream.new offsets.new }
{
    entry_frames::write_v0(samples, width, height, stream, offsets)
}
