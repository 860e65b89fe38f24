// What the writers are written with, and what they answer. `specs/` says which bytes a frame becomes.
#![tactic(auto)]

ghost use Rattle.std.specs.Prelude.{◌≡◌};
ghost use Rattle.rules.specs.Refusals.{refusal_number};
ghost use Rattle.write_rules.specs.Pending.{nothing};
ghost use Rattle.write_rules.specs.Calls.{refused, written, too_bright};

use frame_map::greatest;
use rules::{Answer, Refusal};

// Bits that wait for their word: the low `count` bits of `word`, fewer than 32. `pos` is the byte position where the word will
// stand.
// No invariant `count < 32`: `nothing` and `put_state`, of which the rules say what is written, make these records too.
#[derive(Clone, Copy)]
pub struct Pending {
    pub pos: usize,
    pub word: u32,
    pub count: u32,
}

impl Pending {
    // Nothing waits.
    pub fn none(pos: usize) -> Pending
        ensures { result ≡ nothing pos }
    {
        Pending {
            pos,
            word: 0,
            count: 0,
        }
    }
}

// A writer's answer, and the stream's length in bytes, which is 0 unless the call is done.
#[repr(C)]
#[derive(Clone, Copy)]
pub struct Written {
    pub answer: Answer,
    pub length: u64,
}

impl Written {
    pub fn done(length: u64) -> Written
        ensures { result ≡ written length }
    {
        let answer = Answer::done();
        Written { answer, length }
    }
}

// A refusal's answer, with no length.
impl From<Refusal> for Written {
    ghost from_gives = { λ refusal written. written ≡ refused (refusal_number refusal) };

    fn from(refusal: Refusal) -> Written {
        Written {
            answer: Answer::from(refusal),
            length: 0,
        }
    }
}

// The greatest sample that is written.
const MOST_SAMPLE: u16 = 16_383;

// Whether a sample is above the greatest that is written: refusal 9.
pub fn is_too_bright(samples: &[u16]) -> bool
    ensures { result ≡ too_bright samples.now }
{
    MOST_SAMPLE < greatest(samples, 0)
}
