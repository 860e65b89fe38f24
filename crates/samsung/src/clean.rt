// The direct V0 decoder for clean frames: the whole stream is checked before a sample is written.
ghost use Rattle.std.specs.Prelude.{◌≡◌, cond, [], eqb};
ghost use Rattle.std.proofs.Math.Option.{none, some};
ghost use Rattle.rules.specs.V0.{decoded};
ghost use Rattle.rules.specs.Answer.{direct, ask, buffers};
ghost use Rattle.v0_direct.specs.FrameLent.{FrameLent};
ghost use Rattle.rules_clean.specs.Verdict.{verdict};
ghost use Rattle.rules_clean.specs.Clean.{Yields};
ghost use Rattle.v0_clean.specs.Faults.{told};

use entry_refusals::refuse_direct;
use frame_map::mark_all;
use rules::{Answer, Size};
use v0_clean::{Fault, answer_of, check_frame};
use v0_direct::frame::decode_frame;

// Decodes a frame if it is clean; else returns its first fault, and changes nothing.
fn decode_checked(src: &[u8], offsets: &[u32], size: Size, out: &mut [u16]) -> Result<(), Fault>
    requires { FrameLent size offsets.now out.old [] }
    ensures answered { told result ≡ verdict src.now offsets.now size }
    ensures samples { out.new
        ≡ cond (eqb (told result).number 0) (decoded src.now offsets.now size out.old) out.old }
{
    check_frame(src, offsets, size)?;
    let mut no_map = [0u8; 0];
    decode_frame(src, offsets, size, out, &mut no_map);
    Ok(())
}

// Decodes a clean V0 frame over what `out` holds. Refusals 1 and 3, then 17 to 19 with their row; each changes nothing.
pub fn decode_v0_clean(
    src: &[u8],
    offsets: &[u32],
    width: usize,
    height: usize,
    out: &mut [u16],
) -> Answer
    ensures { Yields (ask direct src.now offsets.now width height)
        (buffers out.old none none)
        result (buffers out.new none none) }
{
    let size = Size { width, height };
    if let Err(refusal) = refuse_direct(size, out.len(), offsets.len(), None) {
        return Answer::from(refusal);
    }
    let n = width * height;
    answer_of(decode_checked(src, offsets, size, &mut out[..n]))
}

// Decodes a clean V0 frame over what `out` holds, and its map, which is all 0. Refusals 1, 3 and 4, then 17 to 19 with their row;
// each changes nothing.
pub fn decode_v0_clean_map(
    src: &[u8],
    offsets: &[u32],
    width: usize,
    height: usize,
    out: &mut [u16],
    map: &mut [u8],
) -> Answer
    ensures { Yields (ask direct src.now offsets.now width height)
        (buffers out.old (some map.old) none)
        result (buffers out.new (some map.new) none) }
{
    let size = Size { width, height };
    if let Err(refusal) = refuse_direct(size, out.len(), offsets.len(), Some(map.len())) {
        return Answer::from(refusal);
    }
    let n = width * height;
    if let Err(fault) = decode_checked(src, offsets, size, &mut out[..n]) {
        return Answer::from(fault);
    }
    mark_all(&mut map[..n], 0);
    Answer::done()
}
