// A frame into its colour planes, and the way back: out of one lent buffer into another.
ghost use Rattle.std.specs.Prelude.{◌≡◌, List, ℕ};
ghost use Rattle.rules.specs.declared.answer.Size.{Size};
ghost use Rattle.rules.specs.Refusals.{answer_number};
ghost use Rattle.frame_planes.specs.PlanesLent.{PlanesLent};
ghost use Rattle.frame_planes.specs.Planes.{to_planes, from_planes};
ghost use Rattle.entry_frames.specs.Moved.{refusal, answer, after};

use entry_refusals::is_too_large;
use rules::{Answer, Refusal, Size};

// Refuses a call by 1 if the size is above the limit, by 3 if either buffer has fewer than N samples.
fn refuse(size: Size, read: usize, written: usize) -> Result<(), Refusal>
    ensures { answer_number result ≡ refusal size read written }
{
    if is_too_large(size) {
        return Err(Refusal::TooLarge);
    }
    let n = size.width * size.height;
    if read < n || written < n {
        return Err(Refusal::ShortSamples);
    }
    Ok(())
}

// A way of moving a frame's samples.
trait Way {
    // What is written of what is read.
    ghost moved: { Size → List ℕ → List ℕ };

    fn carry(read: &[u16], size: Size, written: &mut [u16])
        requires { PlanesLent size read.now written.old }
        ensures { written.new ≡ moved size read.now };
}

struct ToPlanes;

struct FromPlanes;

impl Way for ToPlanes {
    ghost moved = { to_planes };

    fn carry(read: &[u16], size: Size, written: &mut [u16]) {
        frame_planes::to_planes(read, size, written);
    }
}

impl Way for FromPlanes {
    ghost moved = { from_planes };

    fn carry(read: &[u16], size: Size, written: &mut [u16]) {
        frame_planes::from_planes(read, size, written);
    }
}

// A frame's first N samples out of one lent buffer into the first N of another, in one of the ways. Refusals 1 and 3.
fn carry_lent<W: Way>(read: &[u16], width: usize, height: usize, written: &mut [u16]) -> Answer
    ensures answered { result ≡ answer width height read.now written.old }
    ensures written { written.new ≡ after W.moved width height read.now written.old }
{
    let size = Size { width, height };
    if let Err(refusal) = refuse(size, read.len(), written.len()) {
        return Answer::from(refusal);
    }
    let n = width * height;
    W::carry(&read[..n], size, &mut written[..n]);
    Answer::done()
}

// A frame's samples into its planes. Refusals 1 and 3.
pub fn to_planes(samples: &[u16], width: usize, height: usize, planes: &mut [u16]) -> Answer
    ensures answered { result ≡ answer width height samples.now planes.old }
    ensures planes { planes.new ≡ after to_planes width height samples.now planes.old }
{
    carry_lent::<ToPlanes>(samples, width, height, planes)
}

// The planes of a frame back into its samples. Refusals 1 and 3.
pub fn from_planes(planes: &[u16], width: usize, height: usize, samples: &mut [u16]) -> Answer
    ensures answered { result ≡ answer width height planes.now samples.old }
    ensures samples { samples.new ≡ after from_planes width height planes.now samples.old }
{
    carry_lent::<FromPlanes>(planes, width, height, samples)
}
