// The V2 decoder.
ghost use Rattle.std.specs.Prelude.{[]};
ghost use Rattle.std.proofs.Math.Option.{none, some};
ghost use Rattle.rules.specs.Answer.{v2, ask, buffers, Yields};

use rules::Answer;

// Decodes a V2 frame over what `samples` holds. Refusals 1 to 3 and 5 to 8.
#[unsafe(no_mangle)]
pub extern "C" fn razvolk_decode_v2(
    src: &[u8],
    width: usize,
    height: usize,
    samples: &mut [u16],
) -> Answer
    ensures { Yields (ask v2 src.now [] width height)
        (buffers samples.old none none)
        result (buffers samples.new none none) }
{
    samsung::decode_v2(src, width, height, samples)
}

// Decodes a V2 frame over what `samples` holds, and tells in `map` what each sample rests on: old values, filler, both or neither.
// Refusals 1 to 8.
#[unsafe(no_mangle)]
pub extern "C" fn razvolk_decode_v2_map(
    src: &[u8],
    width: usize,
    height: usize,
    samples: &mut [u16],
    map: &mut [u8],
) -> Answer
    ensures { Yields (ask v2 src.now [] width height)
        (buffers samples.old (some map.old) none)
        result (buffers samples.new (some map.new) none) }
{
    samsung::decode_v2_map(src, width, height, samples, map)
}
