// Refusals 1 to 4, tested before anything is written.
#![tactic(auto)]

ghost use Rattle.std.specs.Prelude.{◌≡◌, false, ◌≤◌, Some, None};
ghost use Rattle.rules.specs.Limits.{most_side};
ghost use Rattle.rules.specs.Answer.{v2, too_large, too_small, scratch_bytes};
ghost use Rattle.rules.specs.Refusals.{answer_number};
ghost use Rattle.entry_refusals.specs.Lending.{short, first_refusal};

use rules::{Refusal, Size, V0Row, V2Hdr};

// 1: the size is above the limit.
pub fn is_too_large(size: Size) -> bool
    ensures { result ≡ too_large size }
{
    Size::MOST < size.width || Size::MOST < size.height
}

// 2: a V2 frame is below the least size.
pub fn is_too_small(size: Size) -> bool
    ensures { result ≡ too_small v2 size }
{
    size.height < V2Hdr::LEAST_HEIGHT || size.width < V2Hdr::LEAST_WIDTH
}

// 3 of the offsets, 4 of map and scratch: a buffer is lent, and with fewer elements than the frame needs.
#[tactic(auto, unfolding(crate::specs::Lending::short))]
fn is_short(lent: Option<usize>, needed: usize) -> bool
    ensures { result ≡ short lent needed }
{
    lent.is_some_and(|n| n < needed)
}

// The two-phase scratch: a byte for each block of rows 2 on.
fn bytes_of_scratch(size: Size) -> usize
    requires { (size.width ≤ most_side) × (size.height ≤ most_side) }
    ensures { result ≡ scratch_bytes size }
{
    if size.height < 2 {
        return 0;
    }
    V0Row::blocks_in(size.width) * (size.height - 2)
}

// Refuses a call by the first of 1 to 4 that holds. Of a buffer that some calls do without, the length is given where it is lent.
pub fn refuse(
    size: Size,
    small: bool,
    samples: usize,
    offsets: Option<usize>,
    map: Option<usize>,
    scratch: Option<usize>,
) -> Result<(), Refusal>
    ensures { answer_number result ≡ first_refusal size small samples offsets map scratch }
{
    if is_too_large(size) {
        return Err(Refusal::TooLarge);
    }
    if small {
        return Err(Refusal::TooSmall);
    }
    let n = size.width * size.height;
    if samples < n {
        return Err(Refusal::ShortSamples);
    }
    if is_short(offsets, size.height) {
        return Err(Refusal::ShortSamples);
    }
    if is_short(map, n) {
        return Err(Refusal::ShortMap);
    }
    if is_short(scratch, bytes_of_scratch(size)) {
        return Err(Refusal::ShortMap);
    }
    Ok(())
}

// Refuses a call of a V0 decoder that takes no scratch, by the first of 1, 3 and 4 that holds. Every V0 frame's offsets are lent,
// and none is too small.
pub fn refuse_direct(
    size: Size,
    samples: usize,
    offsets: usize,
    map: Option<usize>,
) -> Result<(), Refusal>
    ensures { answer_number result ≡ first_refusal size false samples (Some offsets) map None }
{
    refuse(size, false, samples, Some(offsets), map, None)
}

// Refuses a call of the V2 decoder, which takes neither offsets nor scratch, by the first of 1 to 4 that holds.
pub fn refuse_v2(size: Size, samples: usize, map: Option<usize>) -> Result<(), Refusal>
    ensures { answer_number result ≡ first_refusal size (too_small v2 size) samples None map None }
{
    refuse(size, is_too_small(size), samples, None, map, None)
}

// Refuses a call that decodes nothing, by the first of 1, 3 and 4 that holds: it takes neither offsets nor scratch, and no frame is
// too small for it.
pub fn refuse_lent(size: Size, samples: usize, map: Option<usize>) -> Result<(), Refusal>
    ensures { answer_number result ≡ first_refusal size false samples None map None }
{
    refuse(size, false, samples, None, map, None)
}

// Refuses a call of a V0 decoder that takes scratch and makes no map, by the first of 1, 3 and 4 that holds.
pub fn refuse_two_phase(
    size: Size,
    samples: usize,
    offsets: usize,
    scratch: usize,
) -> Result<(), Refusal>
    ensures { answer_number result ≡ first_refusal size false samples (Some offsets) None (Some scratch) }
{
    refuse(size, false, samples, Some(offsets), None, Some(scratch))
}
