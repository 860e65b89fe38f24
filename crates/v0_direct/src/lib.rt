// The direct V0 decoder from block to frame, by docs/RULES.md, "V0" and "The map".
#![tactic(auto)]

ghost use Rattle.std.specs.Prelude.{◌≡◌};
ghost use Rattle.v0_cells.specs.Places.{InFrame};
ghost use Rattle.v0_direct.specs.Run.{inner};

pub mod frame;
pub mod row;
pub mod run;
pub mod sample;

use rules::{Size, V0Row};

// Where a block lies: at a column of a row of a frame. That it lies inside is said by contracts, not by the type: a run may end at the
// row's end, which is such a place too.
#[derive(Clone, Copy)]
pub struct V0Place {
    pub size: Size,
    pub row: usize,
    pub col: usize,
}

// Whether a block is an inner one: from row 2 on, after column 0 and inside its row.
#[tactic(auto, unfolding(crate::specs::Run::inner))]
pub fn is_inner(size: Size, row: usize, col: usize) -> bool
    requires { InFrame size row col }
    ensures { result ≡ inner size row col }
{
    2 <= row && col != 0 && col + V0Row::BLOCK <= size.width
}
