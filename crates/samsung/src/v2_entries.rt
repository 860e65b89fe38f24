// The V2 decoder's entries.
ghost use Rattle.std.specs.Prelude.{[]};
ghost use Rattle.std.proofs.Math.Option.{none, some};
ghost use Rattle.rules.specs.Answer.{v2, ask, buffers, Yields};

use entry_refusals::refuse_v2;
use frame_map::mark_old;
use rules::{Answer, Size};
use v2_frame::frame::decode_frame;

// Decodes a V2 frame over what `out` holds. Refusals 1 to 3 and 5 to 8.
pub fn decode_v2(src: &[u8], width: usize, height: usize, out: &mut [u16]) -> Answer
    ensures { Yields (ask v2 src.now [] width height)
        (buffers out.old none none)
        result (buffers out.new none none) }
{
    let size = Size { width, height };
    if let Err(refusal) = refuse_v2(size, out.len(), None) {
        return Answer::from(refusal);
    }
    let n = width * height;
    let mut no_map = [0u8; 0];
    decode_frame(src, size, &mut out[..n], &mut no_map)
}

// Decodes a V2 frame over what `out` holds, and tells in `map` what each sample rests on: old values, filler, both or neither.
// Refusals 1 to 8.
pub fn decode_v2_map(
    src: &[u8],
    width: usize,
    height: usize,
    out: &mut [u16],
    map: &mut [u8],
) -> Answer
    ensures { Yields (ask v2 src.now [] width height)
        (buffers out.old (some map.old) none)
        result (buffers out.new (some map.new) none) }
{
    let size = Size { width, height };
    if let Err(refusal) = refuse_v2(size, out.len(), Some(map.len())) {
        return Answer::from(refusal);
    }
    let n = width * height;
    let marks = &mut map[..n];
    mark_old(marks);
    decode_frame(src, size, &mut out[..n], marks)
}
