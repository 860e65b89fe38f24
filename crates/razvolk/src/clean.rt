// The direct V0 decoder for clean frames.
ghost use Rattle.std.proofs.Math.Option.{none, some};
ghost use Rattle.rules.specs.Answer.{direct, ask, buffers};
ghost use Rattle.rules_clean.specs.Clean.{Yields};

use rules::Answer;

// Decodes a clean V0 frame over what `samples` holds. Refusals 1, 3 and 17 to 19.
#[unsafe(no_mangle)]
pub extern "C" fn razvolk_decode_v0_clean(
    src: &[u8],
    offsets: &[u32],
    width: usize,
    height: usize,
    samples: &mut [u16],
) -> Answer
    ensures { Yields (ask direct src.now offsets.now width height)
        (buffers samples.old none none)
        result (buffers samples.new none none) }
{
    samsung::decode_v0_clean(src, offsets, width, height, samples)
}

// Decodes a clean V0 frame over what `samples` holds, and its map, which is all 0. Refusals 1, 3, 4 and 17 to 19.
#[unsafe(no_mangle)]
pub extern "C" fn razvolk_decode_v0_clean_map(
    src: &[u8],
    offsets: &[u32],
    width: usize,
    height: usize,
    samples: &mut [u16],
    map: &mut [u8],
) -> Answer
    ensures { Yields (ask direct src.now offsets.now width height)
        (buffers samples.old (some map.old) none)
        result (buffers samples.new (some map.new) none) }
{
    samsung::decode_v0_clean_map(src, offsets, width, height, samples, map)
}
