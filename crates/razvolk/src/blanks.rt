// Blanking, and the archive export.
ghost use Rattle.frame_blank.specs.Blanking.{stated, unstated};
ghost use Rattle.frame_blank.specs.Calls.{call, Yields};
ghost use Rattle.entry_frames.specs.Export.{export};
ghost use Rattle.entry_frames.specs.Export as Export;

use entry_frames::Exported;
use frame_blank::Blanked;

// Sets the samples that a map marks to a stated fill, and lists their runs. Refusals 1, 3, 4, 14 and 13, which change nothing.
#[unsafe(no_mangle)]
pub extern "C" fn razvolk_blank_with(
    samples: &mut [u16],
    map: &[u8],
    width: usize,
    height: usize,
    fill: u16,
    runs: &mut [u32],
) -> Blanked
    ensures { Yields (call (stated fill) samples.old map.now width height runs.old)
        result samples.new runs.new }
{
    entry_frames::blank_with(samples, map, width, height, fill, runs)
}

// Sets the samples that a map marks to the nearest unmarked sample to their left, of their row and of their column's parity, or to
// 0 if there is none; and lists their runs. Refusals 1, 3, 4, 14 and 13, which change nothing.
#[unsafe(no_mangle)]
pub extern "C" fn razvolk_blank(
    samples: &mut [u16],
    map: &[u8],
    width: usize,
    height: usize,
    runs: &mut [u32],
) -> Blanked
    ensures { Yields (call unstated samples.old map.now width height runs.old)
        result samples.new runs.new }
{
    entry_frames::blank(samples, map, width, height, runs)
}

// Blanks a frame with fill 0 and writes it as V0. Refusals 1, 3, 4, 14 and 13 change nothing; 9 and 10 leave the frame
// blanked, its runs listed, and nothing written.
#[unsafe(no_mangle)]
pub extern "C" fn razvolk_export_v0(
    samples: &mut [u16],
    map: &[u8],
    width: usize,
    height: usize,
    runs: &mut [u32],
    stream: &mut [u8],
    offsets: &mut [u32],
) -> Exported
    ensures { Export.Yields (export samples.old map.now width height
        runs.old stream.old offsets.old)
        result samples.new runs.new stream.new offsets.new }
{
    entry_frames::export_v0(samples, map, width, height, runs, stream, offsets)
}
