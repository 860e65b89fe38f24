// The archive export: a frame is blanked, and then written as V0.
ghost use Rattle.entry_frames.specs.Export.{export, Yields};

use crate::blanks::blank_with;
use crate::writer::write_v0;
use rules::Answer;

// The answer; how many samples were set, and how many runs they make; and the stream's length in bytes, which is 0 unless the call
// is done.
#[repr(C)]
#[derive(Clone, Copy)]
pub struct Exported {
    pub answer: Answer,
    pub count: u64,
    pub runs: u64,
    pub length: u64,
}

// Blanks a frame with fill 0 and writes it as V0. Refusals 1, 3, 4, 14 and 13 change nothing; 9 and 10 leave the frame
// blanked, its runs listed, and nothing written.
pub fn export_v0(
    samples: &mut [u16],
    map: &[u8],
    width: usize,
    height: usize,
    runs: &mut [u32],
    stream: &mut [u8],
    offsets: &mut [u32],
) -> Exported
    ensures { Yields (export samples.old map.now width height runs.old stream.old offsets.old)
        result samples.new runs.new stream.new offsets.new }
{
    let blanked = blank_with(samples, map, width, height, 0, runs);
    let answer = blanked.answer;
    if answer.number != 0 {
        return Exported {
            answer,
            count: blanked.count,
            runs: blanked.runs,
            length: 0,
        };
    }
    let written = write_v0(samples, width, height, stream, offsets);
    let answer = written.answer;
    Exported {
        answer,
        count: blanked.count,
        runs: blanked.runs,
        length: written.length,
    }
}
