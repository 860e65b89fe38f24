// Where a block's differences go, by the parity of its row.
ghost use Rattle.std.specs.Prelude.{◌≡◌, ℕ, ◌<◌, slice_index};
ghost use Rattle.v2_differences.specs.Positions.{row_positions, positions};

// Where the sixteen differences go in even rows, and in odd ones: docs/RULES.md, "V2", a block's differences.
const POSITIONS: [[u8; 16]; 2] = [
    [0, 2, 4, 6, 8, 10, 12, 14, 1, 3, 5, 7, 9, 11, 13, 15],
    [1, 3, 5, 7, 9, 11, 13, 15, 0, 2, 4, 6, 8, 10, 12, 14],
];

// The table, held to the rule at all 32 entries.
fn table() -> [[u8; 16]; 2]
    ensures { result ≡ positions }
{
    POSITIONS
}

// A row's part of the table: each is a place in the block. It is made once for a row and lent to its blocks, since a constant that is read in a loop is laid on
// the stack at each read.
#[derive(Clone, Copy)]
pub struct Positions {
    pub places: [u8; 16],
    ghost in_block: { (k : ℕ) → k < 16 → slice_index places k < 16 },
}

impl Positions {
    pub fn of(row: usize) -> Positions
        ensures { result.places ≡ row_positions row }
    {
        let both = table();
        Positions {
            places: both[row % 2],
        }
    }

    // Where difference k goes.
    pub fn entry(&self, k: usize) -> usize
        requires { k < 16 }
        ensures { (result ≡ slice_index self.now.places k) × (result < 16) }
    {
        usize::from(self.places[k])
    }
}
