// The V0 decoder in bands.
ghost use Rattle.rules_bands.specs.Call.{call, Yields};

use rules::Answer;

// Decodes a V0 frame over what `samples` holds, its directions in `scratch`, phase two in the sequence of `steps`. Refusals 1, 3,
// 4, 11 and 12.
#[unsafe(no_mangle)]
pub extern "C" fn razvolk_decode_v0_bands(
    src: &[u8],
    offsets: &[u32],
    width: usize,
    height: usize,
    samples: &mut [u16],
    scratch: &mut [u8],
    bands: usize,
    block_width: usize,
    steps: &[u32],
) -> Answer
    ensures { Yields (call src.now offsets.now width height
        samples.old scratch.old bands block_width steps.now)
        result samples.new scratch.new }
{
    samsung::decode_v0_bands(
        src,
        offsets,
        width,
        height,
        samples,
        scratch,
        bands,
        block_width,
        steps,
    )
}
