// A block: its stages in the order of the stream.
ghost use Rattle.std.specs.Prelude.{◌≡◌, ◌≤◌, pos, length, get_or};
ghost use Rattle.rules.specs.declared.answer.Refusal.TheVariants.{LongDifference};
ghost use Rattle.rules.specs.Frame.{tabulate};
ghost use Rattle.rules.specs.V2.{tail, read_block, top, sample, block_cells, sample_kind};
ghost use Rattle.rules.specs.Ranges.{Between};
ghost use Rattle.v2_differences.specs.Positions.{row_positions};
ghost use Rattle.v2_frame.specs.Blocks.{Ready, block_result, block_answer, written};

use rules::{Answer, Bits, Refusal, Taken, V2Hdr, V2Row};
use v2_cells::V2Place;
use v2_cells::base::{bases, refusal_of};
use v2_cells::samples::build;
use v2_differences::block_differences;
use v2_differences::positions::Positions;
use v2_parse::header::top_of;
use v2_parse::lengths::{TooLong, block_lengths};
use v2_parse::motion::next_motion;
use v2_parse::scale::next_scale;

// A refusal, and the reader's state as it then stands.
#[derive(Clone, Copy)]
pub struct Refused {
    pub refusal: Refusal,
    pub bits: Bits,
}

impl From<TooLong> for Refused {
    ghost from_gives = { λ long refused. refused ≡ record { refusal = LongDifference; bits = long.read.bits } };

    fn from(long: TooLong) -> Refused {
        Refused {
            refusal: Refusal::LongDifference,
            bits: long.read.bits,
        }
    }
}

// What a block gives: the state after it or a refusal, and beside either the remembered lengths as they then stand.
#[derive(Clone, Copy)]
pub struct Outcome {
    pub block: Result<Taken<V2Row>, Refused>,
    pub remembered: [[u32; 2]; 3],
}

impl Outcome {
    // What is answered at this block of a row: its refusal's number, or 0, the row, and how many words were missing by then.
    pub fn answer(self, row: u32) -> Answer
        ensures { result ≡ block_answer self.block row }
    {
        match self.block {
            Ok(next) => Answer {
                number: 0,
                row,
                filler: next.bits.filler,
            },
            Err(refused) => Answer {
                number: refused.refusal.number(),
                row,
                filler: refused.bits.filler,
            },
        }
    }
}

// The lengths, the differences and the samples from them.
fn read_tail(
    src: &[u8],
    hdr: V2Hdr,
    row: usize,
    state: V2Row,
    lengths: [[u32; 2]; 3],
    bits: Bits,
    positions: &Positions,
    base: &[u16; 16],
    samples: &mut [u16; 16],
) -> Outcome
    requires { (hdr.depth ≤ 16) × (Between 512 4_605 state.scale × (positions.now.places ≡ row_positions row)) }
    ensures outcome { result.block ≡ block_result (tail src.now hdr row state lengths bits).outcome }
    ensures remembered { result.remembered ≡ (tail src.now hdr row state lengths bits).mode }
    ensures samples { samples.new ≡ written result.block (tabulate 16 0 (λ i. sample (top hdr) state.scale (get_or (tail src.now hdr row state lengths bits).differences i (pos 0)) (get_or base.now i 0))) samples.old }
{
    let lengths = block_lengths(src, hdr, row, lengths, bits);
    let remembered = lengths.remembered;
    let read = match lengths.read {
        Ok(read) => read,
        Err(long) => {
            return Outcome {
                block: Err(Refused::from(long)),
                remembered,
            };
        }
    };
    let mut d = [0i32; 16];
    let after = block_differences(src, positions, read.value, read.bits, &mut d);
    build(base, &d, state.scale, top_of(hdr), samples);
    Outcome {
        block: Ok(Taken {
            value: state,
            bits: after,
        }),
        remembered,
    }
}

// The block at a place, after the row's state and remembered lengths. Its samples are left in `samples`, where a refusal leaves what
// they were, and the frame is not changed.
pub fn read_block(
    src: &[u8],
    hdr: V2Hdr,
    at: V2Place,
    out: &[u16],
    bits: Bits,
    state: V2Row,
    lengths: [[u32; 2]; 3],
    positions: &Positions,
    samples: &mut [u16; 16],
) -> Outcome
    requires { Ready hdr (length out.now) at state × (positions.now.places ≡ row_positions at.row) }
    ensures outcome { result.block ≡ block_result (read_block src.now hdr at.width at.row at.col bits state lengths).outcome }
    ensures remembered { result.remembered ≡ (read_block src.now hdr at.width at.row at.col bits state lengths).mode }
    ensures samples { samples.new ≡ written result.block (block_cells (sample_kind (top hdr)) out.now (read_block src.now hdr at.width at.row at.col bits state lengths).block) samples.old }
{
    let scale = next_scale(src, hdr, at.col, state.scale, bits);
    let motion = next_motion(src, hdr, state.motion, scale.bits);
    if let Err(refusal) = refusal_of(at, motion.value) {
        return Outcome {
            block: Err(Refused {
                refusal,
                bits: motion.bits,
            }),
            remembered: lengths,
        };
    }
    let mut base = [0u16; 16];
    bases(out, hdr.initial, at, motion.value, &mut base);
    let next = V2Row {
        motion: motion.value,
        scale: scale.value,
    };
    read_tail(
        src,
        hdr,
        at.row,
        next,
        lengths,
        motion.bits,
        positions,
        &base,
        samples,
    )
}
