// A cell of a frame, a sample or a mark: what a block does with either.
ghost use Rattle.std.specs.Prelude.{◌≡◌, ◌+◌, ◌≤◌, length};
ghost use Rattle.std.proofs.lemmas.List.Edits.{sets};
ghost use Rattle.rules.specs.V2.{Kind, average, sample_kind};
ghost use Rattle.rules.specs.Map.{v2_marks};

use rules::V2Row;

// A cell's kind says what a base makes of the cells that it is read from.
pub trait Cell: Copy {
    ghost kind: { Kind Self };

    // The cell of a base that averages two.
    fn average(self, other: Self) -> Self
        ensures { result ≡ kind.average self other };
}

// A sample. Which greatest sample its kind has makes no difference to a base.
impl Cell for u16 {
    ghost kind = { sample_kind 0 };

    fn average(self, other: u16) -> u16 {
        ((u32::from(self) + u32::from(other) + 1) / 2) as u16
    }
}

// A mark.
impl Cell for u8 {
    ghost kind = { v2_marks };

    fn average(self, other: u8) -> u8 {
        frame_map::either_part(self, other)
    }
}

// Sixteen cells to their place. `copy_from_slice` would be shorter, and misses the bar of speed: the compiler then takes the cells
// apart, and makes four of the sixteen samples one by one.
pub fn store<C: Cell>(frame: &mut [C], at: usize, cells: &[C; 16])
    requires { at + 16 ≤ length frame.old }
    ensures { frame.new ≡ sets frame.old at cells.now }
{
    for k in 0..V2Row::BLOCK {
        frame[at + k] = cells[k];
    }
}
