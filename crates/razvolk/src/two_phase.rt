// The two-phase V0 decoder. It makes no map.
ghost use Rattle.std.proofs.Math.Option.{none, some};
ghost use Rattle.rules.specs.Answer.{two_phase, ask, buffers, Yields};

use rules::Answer;

// Decodes a V0 frame over what `samples` holds, its directions in `scratch`. Refusals 1, 3 and 4.
#[unsafe(no_mangle)]
pub extern "C" fn razvolk_decode_v0(
    src: &[u8],
    offsets: &[u32],
    width: usize,
    height: usize,
    samples: &mut [u16],
    scratch: &mut [u8],
) -> Answer
    ensures { Yields (ask two_phase src.now offsets.now width height)
        (buffers samples.old none (some scratch.old))
        result (buffers samples.new none (some scratch.new)) }
{
    samsung::decode_v0(src, offsets, width, height, samples, scratch)
}
