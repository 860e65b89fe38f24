// Phase two of a V0 frame and the exchange, block by block in the sequence of a list of steps.
#![tactic(auto)]

ghost use Rattle.std.specs.Prelude.{◌≡◌, ◌-◌, ◌/◌, ◌≤◌, length, drop, ◌++◌};
ghost use Rattle.rules.specs.V0.{sample_kind};
ghost use Rattle.rules.specs.Answer.{scratch_bytes};
ghost use Rattle.rules.specs.Phases as Phases;
ghost use Rattle.rules.specs.Phases.{sample_stage};
ghost use Rattle.v0_cells.specs.Places.{PhaseLent};
ghost use Rattle.rules_bands.specs.Bands.{predict_band, in_bands};
ghost use Rattle.v0_bands.specs.Freed.{exchange_part, freed_rows, freed_columns, exchange_freed, steps_freed};
ghost use Rattle.v0_bands.specs.BandLent.{BandLent, PartLent, RowLent, ColumnLent, StepLent, StepsLent, FrameLent};

use rules::{Size, V0Row};
use rules_bands::Cut;
use v0_cells::exchange::{exchange, exchange_columns};
use v0_direct::frame::decode_v0_head;
use v0_phase1::parse_rows;
use v0_phase2::add_part;

// A block of a cut's columns, in n late rows from a row on.
fn add_band(out: &mut [u16], dirs: &[u8], cut: Cut, block: usize, row: usize, n: usize)
    requires { BandLent cut.size.width cut.block_width block row n out.old dirs.now }
    ensures { out.new ≡ predict_band sample_stage cut.size.width cut.block_width block n row dirs.now out.old }
{
    let w = cut.size.width;
    let blocks = V0Row::blocks_in(w);
    let wide = cut.block_width / V0Row::BLOCK;
    let from = block * wide;
    let to = blocks.min(from + wide);
    for r in row..row + n {
        add_part(out, dirs, (r - 2) * blocks, from, to, w, r);
    }
}

// The exchange in the pairs of rows from one up to another, for the columns from one up to another.
fn exchange_part(out: &mut [u16], w: usize, row: usize, end: usize, from: usize, to: usize)
    requires { PartLent w row end from to out.old }
    ensures { out.new ≡ exchange_part w ((to - from) / 2) from ((end - row) / 2) row out.old }
{
    for k in 0..(end - row) / 2 {
        exchange_columns(out, w, row + 2 * k, from, to);
    }
}

// The first row that a band frees.
fn freed_row(cut: Cut, band: usize) -> usize
    requires { RowLent cut.size.height cut.bands band }
    ensures { result ≡ freed_rows cut band }
{
    if band == cut.bands {
        return cut.size.height / 2 * 2;
    }
    band * cut.late_rows() / cut.bands / 2 * 2
}

// The first column that a block frees, of so many.
fn freed_column(cut: Cut, blocks: usize, block: usize) -> usize
    requires { ColumnLent cut blocks block }
    ensures { result ≡ freed_columns cut block }
{
    if block == blocks {
        return cut.size.width / 2 * 2;
    }
    (block * cut.block_width).saturating_sub(2)
}

// The exchange of what a step frees, while it is at hand: a pass over the whole frame would fetch it again.
fn exchange_freed(out: &mut [u16], cut: Cut, blocks: usize, n: usize)
    requires { StepLent cut blocks n out.old }
    ensures { out.new ≡ exchange_freed cut n out.old }
{
    let band = n / blocks;
    let block = n % blocks;
    let row = freed_row(cut, band);
    let end = freed_row(cut, band + 1);
    let from = freed_column(cut, blocks, block);
    let to = freed_column(cut, blocks, block + 1);
    exchange_part(out, cut.size.width, row, end, from, to);
}

// Phase two and the exchange, in the sequence of a good list.
pub fn add_steps(out: &mut [u16], dirs: &[u8], cut: Cut, steps: &[u32])
    requires { StepsLent cut steps.now out.old dirs.now }
    ensures { out.new ≡ steps_freed cut dirs.now steps.now out.old }
{
    let blocks = cut.blocks_per_band();
    let late = cut.late_rows();
    for step in steps {
        // A cast, since the library has no `From` for it.
        let n = *step as usize;
        let band = n / blocks;
        let first = band * late / cut.bands;
        let end = (band + 1) * late / cut.bands;
        add_band(out, dirs, cut, n % blocks, first + 2, end - first);
        exchange_freed(out, cut, blocks, n);
    }
}

// Rows 0 and 1, finished, and then phase one of the others: its residuals lie over what row 1 spilled.
fn store_rows(src: &[u8], offsets: &[u32], size: Size, out: &mut [u16], scratch: &mut [u8])
    requires { PhaseLent size out.old scratch.old × (size.height ≤ length offsets.now) }
    ensures samples { out.new ≡ Phases.phase_one src.now offsets.now size.width (size.height - 2) 2 (Phases.first_rows sample_kind src.now offsets.now size out.old) }
    ensures directions { scratch.new ≡ Phases.scratch src.now offsets.now size ++ drop (scratch_bytes size) scratch.old }
{
    decode_v0_head(src, offsets, size, out);
    parse_rows(src, offsets, size, out, scratch);
}

// A whole frame, as the plain decoder leaves it, with phase two in the sequence of a good list. There is no map. Without late rows
// or columns there are no steps, and the exchange is done alone.
pub fn decode_frame(
    src: &[u8],
    offsets: &[u32],
    cut: Cut,
    out: &mut [u16],
    scratch: &mut [u8],
    steps: &[u32],
)
    requires { FrameLent cut offsets.now out.old scratch.old steps.now }
    ensures samples { out.new ≡ in_bands src.now offsets.now cut steps.now out.old }
    ensures directions { scratch.new ≡ Phases.scratch src.now offsets.now cut.size ++ drop (length (Phases.scratch src.now offsets.now cut.size)) scratch.old }
{
    store_rows(src, offsets, cut.size, out, scratch);
    if steps.is_empty() {
        exchange(out, cut.size);
        return;
    }
    add_steps(out, scratch, cut, steps);
}
