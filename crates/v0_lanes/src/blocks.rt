// A block by position with packed lengths: its head out of one window, and its sixteen residuals, stored as they come out of the lanes,
// each group's four, the last first.
ghost use Rattle.std.specs.Prelude.{◌≡◌, ◌+◌, ◌/◌, ◌%◌, ◌^◌, ◌≤◌, Bool, length};
ghost use Rattle.v0_parse_window.specs.ByWindow.{Room, HeadAt, Ahead, Ends, residuals_of, residuals_ahead};
ghost use Rattle.v0_lanes.specs.Blocks.{four_set, stored, listed, head_after, head_before};
ghost use Rattle.v0_lanes.specs.Lengths.{actions, lengths_of, block_end};
ghost use Rattle.v0_lanes.specs.Tables.{Holds, shapes};

use super::lengths::{PackedHead, ShortLengths, ends_of, packed_head};
use super::residuals::lanes_at;
use read_window::window;

// The head that begins at bit q, after lengths of 0 to 15.
pub fn head_at(src: &[u8], base: usize, q: usize, l: ShortLengths, t: &[u32; 1024]) -> PackedHead
    requires { Room src.now base q × Holds actions 1_024 t.now }
    ensures { HeadAt src.now base q (lengths_of l.bytes) (head_after q result) }
{
    packed_head(window(src, base, q), l, t)
}

// Four lanes into four samples, the last lane first. The compiler makes one store of the four.
fn store_lanes(out: &mut [u16], at: usize, z: u64)
    requires { at + 4 ≤ length out.old }
    ensures { out.new ≡ four_set out.old at (z / 2 ^ 48) (z / 2 ^ 32 % 2 ^ 16) (z / 2 ^ 16 % 2 ^ 16) (z % 2 ^ 16) }
{
    out[at] = (z % 65_536) as u16;
    out[at + 1] = (z / 65_536 % 65_536) as u16;
    out[at + 2] = (z / 4_294_967_296 % 65_536) as u16;
    out[at + 3] = (z / 281_474_976_710_656) as u16;
}

// The residuals of a block from bit q on, of lengths of 0 to 15, into its samples.
pub fn store_block(
    src: &[u8],
    base: usize,
    q: usize,
    l: ShortLengths,
    out: &mut [u16],
    first: usize,
    t: &[u64; 96],
)
    requires { Holds shapes 96 t.now × (Ahead src.now base q residuals_ahead × (first + 16 ≤ length out.old)) }
    ensures ends { (up : Bool) → Ends src.now base (head_before up q l.bytes) (block_end q l.bytes) }
    ensures out_after { (up : Bool) → out.new ≡ stored out.old first (residuals_of src.now base (head_before up q l.bytes)) }
    ensures l_value { (up : Bool) → listed (residuals_of src.now base (head_before up q l.bytes)) ≡ residuals_of src.now base (head_before up q l.bytes) }
{
    let e = ends_of(q, l);
    store_lanes(out, first, lanes_at(src, base, e.first, l.bytes % 256, t));
    store_lanes(
        out,
        first + 4,
        lanes_at(src, base, e.second, l.bytes / 256 % 256, t),
    );
    store_lanes(
        out,
        first + 8,
        lanes_at(src, base, e.third, l.bytes / 65_536 % 256, t),
    );
    store_lanes(
        out,
        first + 12,
        lanes_at(src, base, e.fourth, l.bytes / 16_777_216, t),
    );
}
