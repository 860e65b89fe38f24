// A whole frame: rows 0 and 1 by the direct decoder's rules, then the two phases of the others, with the exchange of each pair of
// rows once no later row reads it. There is no map: the direct decoder alone makes one.
ghost use Rattle.std.specs.Prelude.{◌≡◌, ◌++◌, map, ◌+◌, ◌-◌, ◌*◌, ◌≤◌, length, take, drop};
ghost use Rattle.rules.specs.V0.{blocks_in, exchange_rows, sample_kind};
ghost use Rattle.rules.specs.Answer.{scratch_bytes};
ghost use Rattle.rules.specs.Phases as Phases;
ghost use Rattle.rules.specs.Phases.{direction, row_records, sample_stage};
ghost use Rattle.v0_cells.specs.Places.{PhaseLent};
ghost use Rattle.v0_direct.specs.Freed.{freed_pairs};
ghost use Rattle.v0_phase2.specs.LateRow.{LateRow};
ghost use Rattle.v0_two_phase.specs.ScratchLent.{ScratchLent};
ghost use Rattle.v0_two_phase.specs.LateRow.{late_row};

use rules::{Size, V0Row};
use v0_cells::exchange::exchange_samples;
use v0_direct::frame::{decode_v0_head, freed_pairs};
use v0_phase1::parse_v0_residuals;
use v0_phase2::add_part;

// Row r + 2: its residuals stored and its directions kept, then at once its predictions added, while its samples are in the cache.
fn decode_late_row(src: &[u8], offset: u32, w: usize, r: usize, out: &mut [u16], scratch: &mut [u8])
    requires { LateRow w (r + 2) out.old × (r * blocks_in w + blocks_in w ≤ length scratch.old) }
    ensures samples { out.new ≡ late_row src.now w (r + 2) offset out.old }
    ensures directions { scratch.new ≡ (take (r * blocks_in w) scratch.old ++ map direction (row_records src.now w (r + 2) offset)) ++ drop (r * blocks_in w + blocks_in w) scratch.old }
{
    let row = r + 2;
    let blocks = V0Row::blocks_in(w);
    let first = row * w;
    let start = r * blocks;
    parse_v0_residuals(src, offset, w, &mut out[first..], &mut scratch[start..]);
    add_part(out, scratch, start, 0, blocks, w, row);
}

// Rows 2 on, one after another. A row's phase two reads nothing that a later row's phase one writes, so that this comes to phase two
// of all rows after phase one of all; but the rows go through memory once, not twice. No later row reads one before row r + 1,
// so that the pair of rows that ends with row r, if one does, is exchanged.
fn decode_late_rows(src: &[u8], offsets: &[u32], size: Size, out: &mut [u16], scratch: &mut [u8])
    requires { PhaseLent size out.old scratch.old × (size.height ≤ length offsets.now) }
    ensures samples { out.new ≡ exchange_rows sample_kind size.width (freed_pairs size.height) 0 (Phases.phase_two sample_stage size.width (size.height - 2) 2 (Phases.scratch src.now offsets.now size) (Phases.phase_one src.now offsets.now size.width (size.height - 2) 2 out.old)) }
    ensures directions { scratch.new ≡ Phases.scratch src.now offsets.now size ++ drop (scratch_bytes size) scratch.old }
{
    let w = size.width;
    let h = size.height;
    for r in 0..h.saturating_sub(2) {
        decode_late_row(src, offsets[r + 2], w, r, out, scratch);
        exchange_samples(out, size, r / 2, (r + 1) / 2);
    }
}

// Rows 0 and 1, the rows after them, and the last pair.
pub fn decode_frame(src: &[u8], offsets: &[u32], size: Size, out: &mut [u16], scratch: &mut [u8])
    requires { ScratchLent size offsets.now out.old scratch.old }
    ensures samples { out.new ≡ Phases.two_phase src.now offsets.now size out.old }
    ensures directions { scratch.new ≡ Phases.scratch src.now offsets.now size ++ drop (length (Phases.scratch src.now offsets.now size)) scratch.old }
{
    decode_v0_head(src, offsets, size, out);
    decode_late_rows(src, offsets, size, out, scratch);
    let h = size.height;
    exchange_samples(out, size, freed_pairs(h), h / 2);
}
