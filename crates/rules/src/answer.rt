// What a call answers (docs/RULES.md, "Answers"), and the frame's size with its limits.
ghost use Rattle.std.specs.Prelude.{◌≡◌};
ghost use Rattle.rules.specs.Answer.{done_with, done, refused};
ghost use Rattle.rules.specs.Refusals.{refusal_number};

// A number, a row, and how many words were missing. Number 0 is done, the others are refusals; it stays a number, since C reads it.
#[repr(C)]
#[derive(Clone, Copy)]
pub struct Answer {
    pub number: u32,
    pub row: u32,
    pub filler: u64,
}

// Why a call is refused. The numbers are the interface's, in the order of their tests.
#[derive(Clone, Copy, Debug, PartialEq, Eq)]
pub enum Refusal {
    // Width or height is above the limit.
    TooLarge = 1,

    // V2: width or height is below the least.
    TooSmall = 2,

    // Fewer samples are lent than the frame has, or in V0 fewer offsets than rows.
    ShortSamples = 3,

    // The map or the two-phase scratch is too short.
    ShortMap = 4,

    // V2: a motion other than 7 in row 0 or 1.
    EarlyMotion = 5,

    // V2: a motion reference outside the frame.
    Outside = 6,

    // V2: a difference length above depth + 1.
    LongDifference = 7,

    // V2: a row is finished and a word was missing.
    Overrun = 8,

    // The writer: a sample is above 16,383.
    TooBright = 9,

    // The writer: the buffer for the stream or for the offsets is too short.
    ShortOutput = 10,

    // In bands: a number of bands or a block width that the frame can't be cut by.
    BadCut = 11,

    // In bands: the list is too short or too long, or a step is no block's number or isn't ready.
    BadSteps = 12,

    // Blanking: the list is too short for all runs.
    ShortRuns = 13,

    // Blanking: a map byte above 3.
    BadMap = 14,

    // V0 into V2: the width is not a multiple of 16.
    BadWidth = 15,

    // V0 into V2: a sample of the decoded frame is marked.
    Marked = 16,

    // For clean frames: a block of row 0 or 1 has direction 1.
    EarlyUpward = 17,

    // For clean frames: a length is outside 0 to 16 after its block's operations.
    BadLength = 18,

    // For clean frames: a word was missing by the end of a block.
    MissingWord = 19,

    // Packed by others: a sample of the decoded frame isn't the one meant.
    OtherSample = 20,

    // Packed by others: the stream is longer than what the writer makes.
    LongStream = 21,
}

impl Refusal {
    // The number that the interface answers.
    pub fn number(self) -> u32
        ensures { result ≡ refusal_number self }
    {
        self as u32
    }
}

// A refusal's number; its row is 0, and no word was missing.
impl From<Refusal> for Answer {
    ghost from_gives = { λ refusal answer. answer ≡ refused (refusal_number refusal) };

    fn from(refusal: Refusal) -> Answer {
        Answer {
            number: refusal.number(),
            row: 0,
            filler: 0,
        }
    }
}

impl Answer {
    // Done, and so many words were missing.
    pub fn done_with(filler: u64) -> Answer
        ensures { result ≡ done_with filler }
    {
        Answer {
            number: 0,
            row: 0,
            filler,
        }
    }

    pub fn done() -> Answer
        ensures { result ≡ done }
    {
        Answer::done_with(0)
    }
}

// The frame's size in samples. Any numbers are a size: refusal 1 is about those above the limit, and who decodes asks it in a clause.
#[derive(Clone, Copy)]
pub struct Size {
    pub width: usize,
    pub height: usize,
}

impl Size {
    // The greatest width and the greatest height. V0's rows and V2's header cite it, and refusal 1 goes by it for every call.
    pub const MOST: usize = 16_384;
}
