// A cell of a frame, a sample or a mark: what an operation makes of it, by the rule of its kind.
ghost use Rattle.std.specs.Prelude.{◌≡◌, ◌/◌, ◌%◌};
ghost use Rattle.rules.specs.V0.{Kind, sample_kind};
ghost use Rattle.rules.specs.Map.{v0_marks};

pub trait Cell: Copy {
    ghost kind: { Kind Self };

    // Two cells as one number: the compiler makes one load of both, or one store, and so it exchanges many pairs at once.
    type Two: Copy;

    ghost first_of: { Self.Two → Self };

    ghost second_of: { Self.Two → Self };

    // What a number of the rules is as a cell.
    fn constant(number: u16) -> Self
        ensures { result ≡ kind.constant number };

    // What a predictor with a residual is.
    fn plus(self, residual: u16) -> Self
        ensures { result ≡ kind.plus self residual };

    fn joined(first: Self, second: Self) -> Self::Two
        ensures first { first_of result ≡ first }
        ensures second { second_of result ≡ second };

    fn first(two: Self::Two) -> Self
        ensures { result ≡ first_of two };

    fn second(two: Self::Two) -> Self
        ensures { result ≡ second_of two };
}

impl Cell for u16 {
    ghost kind = { sample_kind };

    type Two = u32;

    ghost first_of = { λ two. two % 65_536 };

    ghost second_of = { λ two. two / 65_536 };

    fn constant(number: u16) -> u16 {
        number
    }

    fn plus(self, residual: u16) -> u16 {
        self.wrapping_add(residual)
    }

    fn joined(first: u16, second: u16) -> u32 {
        u32::from(first) + u32::from(second) * 65_536
    }

    fn first(two: u32) -> u16 {
        (two % 65_536) as u16
    }

    fn second(two: u32) -> u16 {
        (two / 65_536) as u16
    }
}

// The mark of a sample with nothing old in it and no filler.
const CLEAR: u8 = 0;

// A constant is clear, and no residual changes a mark.
impl Cell for u8 {
    ghost kind = { v0_marks };

    type Two = u16;

    ghost first_of = { λ two. two % 256 };

    ghost second_of = { λ two. two / 256 };

    fn constant(_number: u16) -> u8 {
        CLEAR
    }

    fn plus(self, _residual: u16) -> u8 {
        self
    }

    fn joined(first: u8, second: u8) -> u16 {
        u16::from(first) + u16::from(second) * 256
    }

    fn first(two: u16) -> u8 {
        (two % 256) as u8
    }

    fn second(two: u16) -> u8 {
        (two / 256) as u8
    }
}
