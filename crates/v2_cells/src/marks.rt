// The marks of a block: a sample's mark is that of the samples that its base was read from.
ghost use Rattle.std.specs.Prelude.{◌≡◌, ◌+◌, ◌*◌, length};
ghost use Rattle.rules.specs.declared.v2.V2Hdr.{V2Hdr};
ghost use Rattle.rules.specs.Frame.{ended};
ghost use Rattle.rules.specs.Reader.{has_filler};
ghost use Rattle.rules.specs.Map.{with_filler};
ghost use Rattle.v2_cells.specs.Places.{Markable, with_marks};

use super::V2Place;
use super::base::bases;
use super::cell::store;
use frame_map::fill_block;
use rules::Bits;

// The mark of the header's initial sample: nothing old is in it, and no filler.
const INITIAL: u8 = 0;

// Marks a block in a map of the whole frame; an empty map has nothing to mark.
fn mark_block(map: &mut [u8], at: V2Place, motion: u32)
    requires { Markable (length map.old) at motion }
    ensures { (h : V2Hdr) → map.new ≡ with_marks h at motion map.old }
{
    if map.len() == 0 {
        return;
    }
    let mut marks = [0u8; 16];
    bases(&map[..], INITIAL, at, motion, &mut marks);
    store(&mut map[..], at.first(), &marks);
}

// Marks a block in a map of the whole frame, and adds filler where the reader had fetched some by the block's end; an empty map has
// nothing to mark.
pub fn mark_ended_block(map: &mut [u8], at: V2Place, motion: u32, end: Bits)
    requires { Markable (length map.old) at motion }
    ensures { (h : V2Hdr) → map.new ≡ ended with_filler 0 (has_filler end) (at.row * at.width + at.col) (with_marks h at motion map.old) }
{
    mark_block(map, at, motion);
    if end.filler == 0 {
        return;
    }
    fill_block(map, at.first());
}
