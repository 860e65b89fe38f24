// Blanking: every marked sample of a decoded frame set to a fill.
ghost use Rattle.std.specs.Prelude.{◌≡◌, ◌*◌, ◌≤◌, ltb};
ghost use Rattle.frame_blank.specs.Blanking.{stated, unstated};
ghost use Rattle.frame_blank.specs.Calls.{call, Yields};
ghost use Rattle.frame_blank.specs.MapLent.{meant};

use entry_refusals::refuse_lent;
use frame_blank::{Blanked, blank_frame, is_bad_map, tally_frame};
use rules::{Refusal, Size};

// 13: a list has less than three numbers for each run.
fn is_short_list(list: usize, runs: usize) -> bool
    requires { runs ≤ 268_435_456 }
    ensures { result ≡ ltb list (3 * runs) }
{
    list < 3 * runs
}

// Sets the samples that a map marks, and lists their runs. Refusals 1, 3, 4, 14 and 13, which change nothing.
fn blank_by(
    samples: &mut [u16],
    map: &[u8],
    width: usize,
    height: usize,
    fill: Option<u16>,
    runs: &mut [u32],
) -> Blanked
    ensures { Yields (call (meant fill) samples.old map.now width height runs.old)
        result samples.new runs.new }
{
    let size = Size { width, height };
    if let Err(refusal) = refuse_lent(size, samples.len(), Some(map.len())) {
        return Blanked::from(refusal);
    }
    let n = width * height;
    if is_bad_map(&map[..n]) {
        return Blanked::from(Refusal::BadMap);
    }
    let found = tally_frame(&map[..n], size);
    if is_short_list(runs.len(), found.runs) {
        return Blanked::from(Refusal::ShortRuns);
    }
    blank_frame(&mut samples[..n], &map[..n], size, fill, runs);
    Blanked::done(found.marked as u64, found.runs as u64)
}

// Sets the samples that a map marks to a stated fill, and lists their runs. Refusals 1, 3, 4, 14 and 13, which change nothing.
pub fn blank_with(
    samples: &mut [u16],
    map: &[u8],
    width: usize,
    height: usize,
    fill: u16,
    runs: &mut [u32],
) -> Blanked
    ensures { Yields (call (stated fill) samples.old map.now width height runs.old)
        result samples.new runs.new }
{
    blank_by(samples, map, width, height, Some(fill), runs)
}

// Sets the samples that a map marks to the nearest unmarked sample to their left, of their row and of their column's parity, or to
// 0 if there is none; and lists their runs. Refusals 1, 3, 4, 14 and 13, which change nothing.
pub fn blank(
    samples: &mut [u16],
    map: &[u8],
    width: usize,
    height: usize,
    runs: &mut [u32],
) -> Blanked
    ensures { Yields (call unstated samples.old map.now width height runs.old)
        result samples.new runs.new }
{
    blank_by(samples, map, width, height, None, runs)
}
