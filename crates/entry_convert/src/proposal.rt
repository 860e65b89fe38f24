// The verdict on a V0 stream that an outside optimiser packed.
ghost use Rattle.std.specs.Prelude.{◌≡◌, length};
ghost use Rattle.v0_clean.specs.Faults.{told};
ghost use Rattle.write_packed.specs.Proposal.{proposal, before, same, Yields};

use entry_frames::writer::refuse_samples;
use entry_refusals::refuse_direct;
use rules::{Answer, Refusal, Size};
use samsung::decode_v0_reference;
use v0_clean::{Fault, check_frame};
use write_frame::measure::v0_length;

// What is found before a sample is decoded.
fn check_before(
    src: &[u8],
    offsets: &[u32],
    width: usize,
    height: usize,
    meant: &[u16],
    scratch: usize,
) -> Result<(), Fault>
    ensures { told result ≡ before (proposal src.now offsets.now width height meant.now) scratch }
{
    let size = Size { width, height };
    refuse_samples(meant, size)?;
    refuse_direct(size, scratch, offsets.len(), None)?;
    check_frame(src, offsets, size)?;
    let n = width * height;
    if v0_length(&meant[..n], size) < src.len() {
        return Err(Fault::from(Refusal::LongStream));
    }
    Ok(())
}

// Whether two frames are the same. A loop that never leaves early can take many samples at once.
fn is_same(frame: &[u16], meant: &[u16]) -> bool
    requires { length frame.now ≡ length meant.now }
    ensures { result ≡ same frame.now meant.now }
{
    let mut alike = true;
    for i in 0..frame.len() {
        alike &= frame[i] == meant[i];
    }
    alike
}

// Takes a proposal or refuses it, by itself alone: 1, 3, 9, 17 to 19 with their row, and 21 change nothing; then the frame is
// decoded into the scratch, and 20 comes if a sample isn't the one meant.
pub fn check_packed(
    src: &[u8],
    offsets: &[u32],
    width: usize,
    height: usize,
    meant: &[u16],
    scratch: &mut [u16],
) -> Answer
    ensures { Yields (proposal src.now offsets.now width height meant.now)
        scratch.old result scratch.new }
{
    if let Err(fault) = check_before(src, offsets, width, height, meant, scratch.len()) {
        return Answer::from(fault);
    }
    decode_v0_reference(src, offsets, width, height, scratch);
    let n = width * height;
    if is_same(&scratch[..n], &meant[..n]) {
        return Answer::done();
    }
    Answer::from(Refusal::OtherSample)
}
