// One cell: where its prediction comes from, and what that does to a frame of samples or of marks.
ghost use Rattle.std.specs.Prelude.{◌≡◌, ◌<◌, ◌≤◌, slice_index_or};
ghost use Rattle.rules.specs.Limits.{most_side};
ghost use Rattle.rules.specs.V0 as V0;
ghost use Rattle.v0_cells.specs.Places.{InFrame};

use super::cell::Cell;
use rules::{Predictor, Size, V0Row};

// A sample that predicts from the place p is skipped if it or p lies at or beyond the bound.
fn bounded(size: Size, place: usize, p: usize) -> Predictor
    requires { (size.width ≤ most_side) × (size.height ≤ most_side) }
    ensures { result ≡ V0.bounded size place p }
{
    let limit = size.width * (size.height + 7);
    if place < limit {
        if p < limit {
            return Predictor::Sample(p);
        }
    }
    Predictor::Skipped
}

// The predictor of sample c of the block at a column of a row.
pub fn predict(size: Size, row: usize, col: usize, up: bool, c: usize) -> Predictor
    requires { InFrame size row col × (c < 16) }
    ensures { result ≡ V0.predictor size row col up c }
{
    let w = size.width;
    let place = row * w + col + c;
    if up {
        let rows = 1 + c % 2;
        if row < rows {
            return Predictor::Skipped;
        }
        return bounded(size, place, (row - rows) * w + col + c);
    }
    if col == 0 {
        return Predictor::Constant;
    }
    bounded(size, place, row * w + col - (2 - c % 2))
}

// The cell at a place, or that of 0 past the end.
fn cell_at<C: Cell>(cells: &[C], p: usize) -> C
    ensures { result ≡ slice_index_or cells.now p (C.kind.constant 0) }
{
    if p < cells.len() {
        cells[p]
    } else {
        C::constant(0)
    }
}

// One cell, written if its place is in the frame.
pub fn put<C: Cell>(cells: &mut [C], place: usize, from: Predictor, residual: u16)
    ensures { cells.new ≡ V0.put C.kind place from residual cells.old }
{
    if place < cells.len() {
        match from {
            Predictor::Skipped => {}
            Predictor::Constant => {
                cells[place] = C::constant(V0Row::CONSTANT).plus(residual);
            }
            Predictor::Sample(p) => {
                cells[place] = cell_at(cells, p).plus(residual);
            }
        }
    }
}
