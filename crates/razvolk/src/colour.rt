// The exports of the colour planes.
ghost use Rattle.std.specs.Prelude.{◌≡◌};
ghost use Rattle.frame_planes.specs.Planes.{to_planes, from_planes};
ghost use Rattle.entry_frames.specs.Moved.{answer, after};

use rules::Answer;

#[unsafe(no_mangle)]
pub extern "C" fn razvolk_to_planes(
    samples: &[u16],
    width: usize,
    height: usize,
    planes: &mut [u16],
) -> Answer
    ensures answered { result ≡ answer width height samples.now planes.old }
    ensures planes { planes.new ≡ after to_planes width height samples.now planes.old }
{
    entry_frames::to_planes(samples, width, height, planes)
}

#[unsafe(no_mangle)]
pub extern "C" fn razvolk_from_planes(
    planes: &[u16],
    width: usize,
    height: usize,
    samples: &mut [u16],
) -> Answer
    ensures answered { result ≡ answer width height planes.now samples.old }
    ensures samples { samples.new ≡ after from_planes width height planes.now samples.old }
{
    entry_frames::from_planes(planes, width, height, samples)
}
