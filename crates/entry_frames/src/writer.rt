// The V0 writer's entry.
ghost use Rattle.std.specs.Prelude.{◌≡◌, ◌||◌, cond, ltb, length, take};
ghost use Rattle.rules.specs.Answer.{too_large};
ghost use Rattle.rules.specs.Frame.{cells};
ghost use Rattle.rules.specs.Refusals.{answer_number};
ghost use Rattle.write_rules.specs.Calls.{call, too_bright, Yields};

use entry_refusals::refuse_lent;
use rules::{Refusal, Size};
use write_frame::measure::v0_length;
use write_frame::write;
use write_rules::{Written, is_too_bright};

// Refuses samples that are to be written, by the first of 1, 3 and 9 that holds.
pub fn refuse_samples(samples: &[u16], size: Size) -> Result<(), Refusal>
    ensures { answer_number result
        ≡ cond (too_large size) 1 (cond (ltb (length samples.now) (cells size)) 3 (cond (too_bright (take (cells size) samples.now)) 9 0)) }
{
    refuse_lent(size, samples.len(), None)?;
    let n = size.width * size.height;
    if is_too_bright(&samples[..n]) {
        return Err(Refusal::TooBright);
    }
    Ok(())
}

// 10: a buffer is shorter than what would be written into it.
fn is_short(stream: usize, length: usize, offsets: usize, rows: usize) -> bool
    ensures { result ≡ (ltb stream length || ltb offsets rows) }
{
    stream < length || offsets < rows
}

// Writes samples as V0: the stream, and where each row begins. Refusals 1, 3, 9 and 10, which change nothing.
pub fn write_v0(
    samples: &[u16],
    width: usize,
    height: usize,
    stream: &mut [u8],
    offsets: &mut [u32],
) -> Written
    ensures { Yields (call samples.now width height stream.old offsets.old)
        result stream.new offsets.new }
{
    let size = Size { width, height };
    if let Err(refusal) = refuse_samples(samples, size) {
        return Written::from(refusal);
    }
    let n = width * height;
    let length = v0_length(&samples[..n], size);
    if is_short(stream.len(), length, offsets.len(), height) {
        return Written::from(Refusal::ShortOutput);
    }
    write::write_v0(stream, offsets, &samples[..n], size);
    Written::done(length as u64)
}
