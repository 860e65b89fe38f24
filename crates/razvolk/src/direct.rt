// The direct V0 decoder.
ghost use Rattle.std.proofs.Math.Option.{none, some};
ghost use Rattle.rules.specs.Answer.{direct, ask, buffers, Yields};

use rules::Answer;

// Decodes a V0 frame over what `samples` holds. Refusals 1 and 3.
#[unsafe(no_mangle)]
pub extern "C" fn razvolk_decode_v0_reference(
    src: &[u8],
    offsets: &[u32],
    width: usize,
    height: usize,
    samples: &mut [u16],
) -> Answer
    ensures { Yields (ask direct src.now offsets.now width height)
        (buffers samples.old none none)
        result (buffers samples.new none none) }
{
    samsung::decode_v0_reference(src, offsets, width, height, samples)
}

// Decodes a V0 frame over what `samples` holds, and tells in `map` what each sample rests on: old values, filler, both or neither.
// Refusals 1, 3 and 4.
#[unsafe(no_mangle)]
pub extern "C" fn razvolk_decode_v0_reference_map(
    src: &[u8],
    offsets: &[u32],
    width: usize,
    height: usize,
    samples: &mut [u16],
    map: &mut [u8],
) -> Answer
    ensures { Yields (ask direct src.now offsets.now width height)
        (buffers samples.old (some map.old) none)
        result (buffers samples.new (some map.new) none) }
{
    samsung::decode_v0_reference_map(src, offsets, width, height, samples, map)
}
