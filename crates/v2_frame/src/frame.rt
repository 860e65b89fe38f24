// A frame: its rows and blocks in order, left at the first refusal.
ghost use Rattle.std.specs.Prelude.{◌≡◌};
ghost use Rattle.rules.specs.V2.{read_frame, decoded, frame};
ghost use Rattle.rules.specs.Map.{v2_marks};
ghost use Rattle.v2_frame.specs.Blocks.{FrameLent};

use super::block::read_block;
use rules::{Answer, Refusal, Size, V2Row};
use v2_cells::V2Place;
use v2_cells::cell::store;
use v2_cells::marks::mark_ended_block;
use v2_differences::positions::Positions;
use v2_parse::header::{align, read_header};

// Decodes a frame over the samples of `out`, and its marks over those of `map`, which is as long as `out` or empty. At a refusal the
// rows and blocks before it stay written.
pub fn decode_frame(src: &[u8], size: Size, out: &mut [u16], map: &mut [u8]) -> Answer
    requires { FrameLent size out.old map.old }
    ensures answered { result ≡ (read_frame src.now size).answer }
    ensures samples { out.new ≡ decoded src.now size out.old }
    ensures marks { map.new ≡ frame v2_marks src.now size map.old }
{
    let width = size.width;
    let start = read_header(src);
    let mut bits = start.bits;
    let mut answer = Answer::done_with(bits.filler);
    'frame: for row in 0..size.height {
        let positions = Positions::of(row);
        bits = align(bits);
        let mut state = V2Row::fresh();
        let mut lengths = V2Row::mode(row);
        for block in 0..width / V2Row::BLOCK {
            let at = V2Place {
                width,
                row,
                col: block * V2Row::BLOCK,
            };
            let mut samples = [0u16; 16];
            let outcome = read_block(
                src,
                start.value,
                at,
                &out[..],
                bits,
                state,
                lengths,
                &positions,
                &mut samples,
            );
            let Ok(next) = outcome.block else {
                answer = outcome.answer(row as u32);
                break 'frame;
            };
            store(&mut out[..], at.first(), &samples);
            mark_ended_block(&mut map[..], at, next.value.motion, next.bits);
            bits = next.bits;
            state = next.value;
            lengths = outcome.remembered;
        }
        if bits.filler != 0 {
            answer = Answer {
                number: Refusal::Overrun.number(),
                row: row as u32,
                filler: bits.filler,
            };
            break 'frame;
        }
        answer = Answer::done();
    }
    answer
}
