// What a V2 block does with a frame's cells: the base that it predicts from, its samples and its marks. Samples and marks are cells.
#![tactic(auto)]

ghost use Rattle.std.specs.Prelude.{◌≡◌, ◌+◌, ◌*◌};
ghost use Rattle.v2_cells.specs.Places.{Placed};

pub mod base;
pub mod cell;
pub mod marks;
pub mod samples;

// Where a block stands: its row and first column, in a frame of `width` samples to a row.
// No invariant here: `refusal_of` answers for any place, and `Placed` is a part of what the others ask of place, motion and frame.
#[derive(Clone, Copy)]
pub struct V2Place {
    pub width: usize,
    pub row: usize,
    pub col: usize,
}

impl V2Place {
    // The block's first sample, as a position in the whole frame.
    pub fn first(self) -> usize
        requires { Placed self }
        ensures { result ≡ self.row * self.width + self.col }
    {
        self.row * self.width + self.col
    }
}
