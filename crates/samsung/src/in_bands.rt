// The V0 decoder in bands: the two-phase decoder, with phase two done block by block in the sequence of a list of steps.
ghost use Rattle.rules_bands.specs.Call.{call, Yields};

use entry_refusals::refuse_two_phase;
use rules::{Answer, Size};
use rules_bands::Cut;
use v0_bands::decode_frame;

// Decodes a V0 frame over what `out` holds, its directions in `scratch`. Refusals 1, 3, 4, 11 and 12, each before anything is
// written.
pub fn decode_v0_bands(
    src: &[u8],
    offsets: &[u32],
    width: usize,
    height: usize,
    out: &mut [u16],
    scratch: &mut [u8],
    bands: usize,
    block_width: usize,
    steps: &[u32],
) -> Answer
    ensures { Yields (call src.now offsets.now width height
        out.old scratch.old bands block_width steps.now)
        result out.new scratch.new }
{
    let size = Size { width, height };
    if let Err(refusal) = refuse_two_phase(size, out.len(), offsets.len(), scratch.len()) {
        return Answer::from(refusal);
    }
    let cut = Cut {
        size,
        bands,
        block_width,
    };
    if let Err(unfit) = cut.refuse_steps(steps) {
        return Answer::from(unfit);
    }
    let n = width * height;
    decode_frame(src, offsets, cut, &mut out[..n], scratch, steps);
    Answer::done()
}
