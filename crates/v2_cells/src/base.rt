// Step 3 of a block: the refusal that its base meets, and the sixteen cells that its differences are added to.
ghost use Rattle.std.specs.Prelude.{◌≡◌, false, cond, ◌+◌, ◌^◌, ◌<◌, length, get_or};
ghost use Rattle.rules.specs.declared.v2.V2Hdr.{V2Hdr};
ghost use Rattle.rules.specs.Frame.{tabulate};
ghost use Rattle.rules.specs.V2.{motion_averages, refers_before, base_refusal, base_cell, repeated};
ghost use Rattle.rules.specs.Ranges.{offset_4, reference_5};
ghost use Rattle.rules.specs.Refusals.{answer_number};
ghost use Rattle.v2_cells.specs.Places.{base_result, Placed, Inside, Based, Referring, ReferringAt, references, along, Runs, cell_from, base_cells, repeated_cells};

use super::V2Place;
use super::cell::Cell;
use rules::{Refusal, V2Row};

// Where samples 0 and 1 of a block refer to, and whether each base is the average of two samples.
#[derive(Clone, Copy)]
pub struct References {
    pub even: usize,
    pub odd: usize,
    pub averaging: bool,
}

// The columns' offsets of motions 0 to 6.
const OFFSETS: [i64; 7] = [-4, -2, -2, 0, 0, 2, 4];

// Whether a base of motion 0 to 6 is the average of two cells.
const AVERAGES: [bool; 7] = [false, false, true, false, true, false, false];

// 4 more than a motion's offset, so that none is below 0.
fn offset_plus_4(motion: u32) -> usize
    requires { motion < 7 }
    ensures { result ≡ offset_4 motion }
{
    (OFFSETS[motion as usize] + 4) as usize
}

fn averages(motion: u32) -> bool
    requires { motion < 7 }
    ensures { result ≡ get_or motion_averages motion false }
{
    AVERAGES[motion as usize]
}

// Where sample 0 or 1 refers to, 5 places on, so that none is below 0.
fn reference_plus_5(at: V2Place, motion: u32, i: usize) -> usize
    requires { ReferringAt at motion i }
    ensures { result ≡ reference_5 at.width at.row at.col motion i }
{
    let col = at.col + i + offset_plus_4(motion);
    if (at.row + i) % 2 == 1 {
        (at.row - 2) * at.width + col + 1
    } else {
        (at.row - 1) * at.width + col + (2 - i % 2 * 2)
    }
}

// The references of motions 0 to 6, in a block that meets no refusal.
pub fn references_of(at: V2Place, motion: u32) -> References
    requires { Referring at motion }
    ensures { result ≡ references at motion }
{
    let even = reference_plus_5(at, motion, 0) - 5;
    let odd = reference_plus_5(at, motion, 1) - 5;
    References {
        even,
        odd,
        averaging: averages(motion),
    }
}

// Where sample i refers to, from where samples 0 and 1 do.
pub fn along_from(refs: References, i: usize) -> usize
    requires { (refs.even + 15 < 2 ^ 64) × ((refs.odd + 15 < 2 ^ 64) × (i < 16)) }
    ensures { result ≡ along refs i }
{
    if i % 2 == 0 {
        refs.even + i
    } else {
        refs.odd + i - 1
    }
}

// Whether the block refers to before the frame's first sample: no other reference is outside the frame.
fn refers_before(at: V2Place, motion: u32) -> bool
    ensures { result ≡ refers_before at.row at.col motion }
{
    if at.row != 2 {
        return false;
    }
    at.col == 0 && motion < 3
}

// The refusal that the base meets, if it meets one.
pub fn refusal_of(at: V2Place, motion: u32) -> Result<(), Refusal>
    ensures number { answer_number result ≡ base_refusal at.row at.col motion }
    ensures refusal { result ≡ base_result at motion }
{
    if motion == V2Row::MOTION {
        return Ok(());
    }
    if at.row < 2 {
        return Err(Refusal::EarlyMotion);
    }
    if refers_before(at, motion) {
        return Err(Refusal::Outside);
    }
    Ok(())
}

// The cell at p, or its average with the one two places on.
fn base_from<C: Cell>(frame: &[C], p: usize, averaging: bool) -> C
    requires { p + cond averaging 2 0 < length frame.now }
    ensures { result ≡ cell_from C.kind frame.now averaging p }
{
    if averaging {
        frame[p].average(frame[p + 2])
    } else {
        frame[p]
    }
}

// The bases of motions 0 to 6.
fn refer<C: Cell>(frame: &[C], refs: References, cells: &mut [C; 16])
    requires { Runs (length frame.now) refs × (length cells.old ≡ 16) }
    ensures { cells.new ≡ tabulate 16 0 (λ i. cell_from C.kind frame.now refs.averaging (along refs i)) }
{
    for i in 0..V2Row::BLOCK {
        cells[i] = base_from(frame, along_from(refs, i), refs.averaging);
    }
}

// One of the two cells that motion 7 repeats; `initial` is the one that the header's initial sample gives.
fn before<C: Cell>(frame: &[C], initial: C, at: V2Place, i: usize) -> C
    requires { Inside (length frame.now) at × (i < 2) }
    ensures { (h : V2Hdr) → initial ≡ C.kind.constant h.initial → result ≡ base_cell C.kind frame.now (repeated h at.width at.row at.col i) }
{
    if at.col == 0 {
        return initial;
    }
    frame[at.first() - 2 + i % 2]
}

// The bases of motion 7.
fn repeat<C: Cell>(frame: &[C], initial: C, at: V2Place, cells: &mut [C; 16])
    requires { Inside (length frame.now) at }
    ensures { (h : V2Hdr) → initial ≡ C.kind.constant h.initial → cells.new ≡ repeated_cells C.kind h at frame.now }
{
    let a = before(frame, initial, at, 0);
    let b = before(frame, initial, at, 1);
    for pair in 0..V2Row::BLOCK / 2 {
        cells[2 * pair] = a;
        cells[2 * pair + 1] = b;
    }
}

// The bases of a block that meets no refusal, for samples and marks alike.
pub fn bases<C: Cell>(frame: &[C], initial: C, at: V2Place, motion: u32, cells: &mut [C; 16])
    requires { Based (length frame.now) at motion (length cells.old) }
    ensures { (h : V2Hdr) → initial ≡ C.kind.constant h.initial → cells.new ≡ base_cells C.kind h at motion frame.now }
{
    if motion == V2Row::MOTION {
        repeat(frame, initial, at, cells);
    } else {
        refer(frame, references_of(at, motion), cells);
    }
}
