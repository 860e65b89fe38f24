// A block by the literal rule: sample by sample, each skipped one reading nothing. Rows 0 and 1 and the edges of the others go
// this way.
ghost use Rattle.std.specs.Prelude.{◌≡◌, [], ◌∷◌, ◌<◌};
ghost use Rattle.rules.specs.V0 as V0;
ghost use Rattle.rules.specs.Map.{v0_marks};
ghost use Rattle.v0_cells.specs.Places.{InFrame};
ghost use Rattle.v0_direct.specs.Block.{samples_of, Applied};

use super::V0Place;
use read_bits::read_residual;
use rules::{Bits, V0Head, V0Row};
use v0_cells::cells::{predict, put};
use v0_parse::block::residual_bits;
use v0_parse::order::stream_column;

// Sample c of a block after its head.
fn decode_sample(
    src: &[u8],
    at: V0Place,
    head: V0Head,
    c: usize,
    bits: Bits,
    out: &mut [u16],
    map: &mut [u8],
) -> Bits
    requires { InFrame at.size at.row at.col × (c < 16) }
    ensures { Applied (samples_of src.now at.size at.row at.col head (c ∷ []) bits) out.old map.old result out.new map.new }
{
    let from = predict(at.size, at.row, at.col, head.up, c);
    let lengths = head.row.lengths;
    let n = residual_bits(from, lengths[2 * (c % 2) + c / 8]);
    let g = read_residual(src, bits, n);
    let place = at.row * at.size.width + at.col + c;
    put(out, place, from, g.value);
    put(map, place, from, g.value);
    g.bits
}

// A block's sixteen samples after its head.
pub fn decode_samples(
    src: &[u8],
    at: V0Place,
    head: V0Head,
    out: &mut [u16],
    map: &mut [u8],
) -> Bits
    requires { InFrame at.size at.row at.col }
    ensures answered { result ≡ (samples_of src.now at.size at.row at.col head V0.order head.row.bits).bits }
    ensures samples { out.new ≡ V0.apply V0.sample_kind (samples_of src.now at.size at.row at.col head V0.order head.row.bits).ops out.old }
    ensures marks { map.new ≡ V0.apply v0_marks (samples_of src.now at.size at.row at.col head V0.order head.row.bits).ops map.old }
{
    let mut bits = head.row.bits;
    for k in 0..V0Row::BLOCK {
        let c = stream_column(k);
        bits = decode_sample(src, at, head, c, bits, out, map);
    }
    bits
}
