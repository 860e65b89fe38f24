// The direct V0 decoder's entries.
ghost use Rattle.std.proofs.Math.Option.{none, some};
ghost use Rattle.rules.specs.Answer.{direct, ask, buffers, Yields};

use entry_refusals::refuse_direct;
use frame_map::mark_old;
use rules::{Answer, Size};
use v0_direct::frame::decode_frame;

// Decodes a V0 frame over what `out` holds. Refusals 1 and 3.
pub fn decode_v0_reference(
    src: &[u8],
    offsets: &[u32],
    width: usize,
    height: usize,
    out: &mut [u16],
) -> Answer
    ensures { Yields (ask direct src.now offsets.now width height)
        (buffers out.old none none)
        result (buffers out.new none none) }
{
    let size = Size { width, height };
    if let Err(refusal) = refuse_direct(size, out.len(), offsets.len(), None) {
        return Answer::from(refusal);
    }
    let n = width * height;
    let mut no_map = [0u8; 0];
    let filler = decode_frame(src, offsets, size, &mut out[..n], &mut no_map);
    Answer::done_with(filler)
}

// Decodes a V0 frame over what `out` holds, and tells in `map` what each sample rests on: old values, filler, both or neither.
// Refusals 1, 3 and 4.
pub fn decode_v0_reference_map(
    src: &[u8],
    offsets: &[u32],
    width: usize,
    height: usize,
    out: &mut [u16],
    map: &mut [u8],
) -> Answer
    ensures { Yields (ask direct src.now offsets.now width height)
        (buffers out.old (some map.old) none)
        result (buffers out.new (some map.new) none) }
{
    let size = Size { width, height };
    if let Err(refusal) = refuse_direct(size, out.len(), offsets.len(), Some(map.len())) {
        return Answer::from(refusal);
    }
    let n = width * height;
    let marks = &mut map[..n];
    mark_old(marks);
    let filler = decode_frame(src, offsets, size, &mut out[..n], marks);
    Answer::done_with(filler)
}
