// The two-phase V0 decoder's entry. It makes no map.
ghost use Rattle.std.proofs.Math.Option.{none, some};
ghost use Rattle.rules.specs.Answer.{two_phase, ask, buffers, Yields};

use entry_refusals::refuse_two_phase;
use rules::{Answer, Size};
use v0_two_phase::frame::decode_frame;

// Decodes a V0 frame over what `out` holds, its directions in `scratch`. Refusals 1, 3 and 4.
pub fn decode_v0(
    src: &[u8],
    offsets: &[u32],
    width: usize,
    height: usize,
    out: &mut [u16],
    scratch: &mut [u8],
) -> Answer
    ensures { Yields (ask two_phase src.now offsets.now width height)
        (buffers out.old none (some scratch.old))
        result (buffers out.new none (some scratch.new)) }
{
    let size = Size { width, height };
    if let Err(refusal) = refuse_two_phase(size, out.len(), offsets.len(), scratch.len()) {
        return Answer::from(refusal);
    }
    let n = width * height;
    decode_frame(src, offsets, size, &mut out[..n], scratch);
    Answer::done()
}
