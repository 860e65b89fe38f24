// In each even row with a row below, the sample right of each even column and the one below it change places, and so do their
// marks: after all rows, or in a pair of rows that no later row reads.
ghost use Rattle.std.specs.Prelude.{◌≡◌, ℕ, ◌+◌, ◌-◌, ◌*◌, ◌/◌, ◌<◌, [], length, slice_set};
ghost use Rattle.rules.specs.V0 as V0;
ghost use Rattle.rules.specs.Map.{v0_marks};
ghost use Rattle.v0_cells.specs.Places.{InColumns, MapInPair, PairsLent, Framed};

use super::cell::Cell;
use rules::Size;

// Stores two cells, given as one number, at a place and at the next one.
fn store_two<C: Cell>(cells: &mut [C], i: usize, two: C::Two)
    requires { i + 1 < length cells.old }
    ensures { cells.new ≡ slice_set (slice_set cells.old i (C.first_of two)) (i + 1) (C.second_of two) }
{
    cells[i] = C::first(two);
    cells[i + 1] = C::second(two);
}

// Of two pairs of cells, the second of the one and the first of the other change places. All four are stored, since the compiler
// joins no stores that leave gaps.
fn exchange_two<C: Cell>(cells: &mut [C], i: usize, j: usize)
    requires { (i + 1 < j) × (j + 1 < length cells.old) }
    ensures { cells.new ≡ V0.swap C.kind (i + 1) j cells.old }
{
    let x = C::joined(cells[i], cells[i + 1]);
    let y = C::joined(cells[j], cells[j + 1]);
    store_two(cells, i, C::joined(C::first(x), C::first(y)));
    store_two(cells, j, C::joined(C::second(x), C::second(y)));
}

// The cells of a pair of rows, in the columns from one up to another.
pub fn exchange_columns<C: Cell>(cells: &mut [C], w: usize, row: usize, from: usize, to: usize)
    requires { InColumns w row from to cells.old }
    ensures { cells.new ≡ V0.exchange_columns C.kind w row ((to - from) / 2) from cells.old }
{
    for pair in 0..(to - from) / 2 {
        let col = from + 2 * pair;
        exchange_two(cells, row * w + col, (row + 1) * w + col);
    }
}

// The marks of a pair of rows, where a map is lent.
fn exchange_marks(map: &mut [u8], w: usize, row: usize)
    requires { MapInPair w row map.old }
    ensures { map.new ≡ V0.exchange_columns v0_marks w row (w / 2) 0 map.old }
{
    if map.is_empty() {
        return;
    }
    exchange_columns(map, w, row, 0, w);
}

// Samples and marks of the pairs of rows from one number up to another.
pub fn exchange_pairs(out: &mut [u16], map: &mut [u8], size: Size, from: usize, to: usize)
    requires { PairsLent size from to out.old map.old }
    ensures samples { out.new ≡ V0.exchange_rows V0.sample_kind size.width (to - from) (from * 2) out.old }
    ensures marks { map.new ≡ V0.exchange_rows v0_marks size.width (to - from) (from * 2) map.old }
{
    let w = size.width;
    for pair in from..to {
        exchange_columns(out, w, pair * 2, 0, w);
        exchange_marks(map, w, pair * 2);
    }
}

// Samples of the pairs of rows from one number up to another, where no map is lent.
pub fn exchange_samples(out: &mut [u16], size: Size, from: usize, to: usize)
    requires { PairsLent {B = ℕ} size from to out.old [] }
    ensures { out.new ≡ V0.exchange_rows V0.sample_kind size.width (to - from) (from * 2) out.old }
{
    let mut no_map = [0u8; 0];
    exchange_pairs(out, &mut no_map, size, from, to);
}

// Samples of all pairs of rows, where no map is lent.
pub fn exchange(out: &mut [u16], size: Size)
    requires { Framed size out.old }
    ensures { out.new ≡ V0.exchange V0.sample_kind size out.old }
{
    exchange_samples(out, size, 0, size.height / 2);
}
