// A whole frame: its rows, and the exchange of each pair of rows once no later row reads it, while the caches still hold it.
// Samples and marks go through the same code; a map that is not lent is a frame of no cells.
ghost use Rattle.std.specs.Prelude.{◌≡◌, [], ◌≤◌};
ghost use Rattle.rules.specs.V0 as V0;
ghost use Rattle.rules.specs.Map.{v0_marks};
ghost use Rattle.rules.specs.Phases.{first_rows};
ghost use Rattle.v0_direct.specs.Freed.{freed_pairs, rows_freed};
ghost use Rattle.v0_direct.specs.FrameLent.{FrameLent};

use super::row::{decode_early_row, decode_row};
use read_bits::held_sum;
use rules::Size;
use v0_cells::exchange::exchange_pairs;
use v0_lanes::tables::{Tables, fill_heads, fill_lanes};

// How many pairs of rows no row from this one on reads.
pub fn freed_pairs(row: usize) -> usize
    ensures { result ≡ freed_pairs row }
{
    row.saturating_sub(2) / 2
}

// The first `count` rows, with the pairs exchanged that no later row reads: how many words were missing in them.
fn decode_freeing(
    src: &[u8],
    offsets: &[u32],
    size: Size,
    count: usize,
    out: &mut [u16],
    map: &mut [u8],
) -> u64
    requires { FrameLent size offsets.now out.old map.old × (count ≤ size.height) }
    ensures missing { result ≡ V0.rows_filler src.now offsets.now size count 0 0 }
    ensures samples { out.new ≡ rows_freed V0.sample_kind src.now offsets.now size count out.old }
    ensures marks { map.new ≡ rows_freed v0_marks src.now offsets.now size count map.old }
{
    let mut tables = Tables {
        lanes: [0; 96],
        heads: [0; 1024],
    };
    fill_lanes(&mut tables.lanes);
    fill_heads(&mut tables.heads);
    let mut filler: u64 = 0;
    for row in 0..count {
        let missing = decode_row(src, size, row, offsets[row], out, map, &tables);
        filler = held_sum(filler, missing);
        exchange_pairs(out, map, size, freed_pairs(row), freed_pairs(row + 1));
    }
    filler
}

// Rows 0 and 1, or as many as there are: what the two-phase decoder begins with, without a map.
pub fn decode_v0_head(src: &[u8], offsets: &[u32], size: Size, out: &mut [u16])
    requires { FrameLent size offsets.now out.old [] }
    ensures { out.new ≡ first_rows V0.sample_kind src.now offsets.now size out.old }
{
    for row in 0..size.height.min(2) {
        decode_early_row(src, size, row, offsets[row], out, &mut []);
    }
}

// All rows, and the last pair after them: how many words were missing.
pub fn decode_frame(src: &[u8], offsets: &[u32], size: Size, out: &mut [u16], map: &mut [u8]) -> u64
    requires { FrameLent size offsets.now out.old map.old }
    ensures missing { result ≡ V0.frame_filler src.now offsets.now size }
    ensures samples { out.new ≡ V0.decoded src.now offsets.now size out.old }
    ensures marks { map.new ≡ V0.frame v0_marks src.now offsets.now size map.old }
{
    let h = size.height;
    let filler = decode_freeing(src, offsets, size, h, out, map);
    exchange_pairs(out, map, size, freed_pairs(h), h / 2);
    filler
}
