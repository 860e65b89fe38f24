// The job of `samrows` as a function on slices, by docs/RULES.md, "The job program". Its text is written into a lent array that has
// room for every text.
#![tactic(auto)]

mod input;
mod lines;

ghost use Rattle.std.specs.Prelude.{◌≡◌, List, ℕ, ◌<◌, length, IfOk};
ghost use Rattle.rules.specs.Job.{most_input, fault, answer_text};
ghost use Rattle.rules.specs.Job.{text as job_text};
ghost use Rattle.job.specs.Fields.{Sound};
ghost use Rattle.job.specs.Faults.{fault_number, checked_text};
ghost use Rattle.job.specs.Written.{Room, Appends, Holds};

use input::{half_word, marked, read_offsets};
use lines::{put_fault, put_frame, put_refused};
use rules::Size;
use samsung::decode_v0_reference_map;

// The buffers: input bytes, samples with their marks, and offsets, as many as an input that fits can hold after 9 bytes.
pub const INPUT: usize = 32_768;

const SAMPLES: usize = 8_192;

const OFFSETS: usize = 8_189;

// The longest text: of 8,189 rows of one sample, each with five digits and an asterisk.
pub const TEXT: usize = 105_352;

// Why a job is not done, in the order of the tests.
#[derive(Clone, Copy)]
enum Fault {
    // The input is longer than 32,768 bytes.
    Longer,

    // The input is shorter than 9 bytes.
    Short,

    // The mark or the version is another.
    Unmarked,

    // The offset table is cut.
    TableCut,

    // There are more than 8,192 samples.
    TooMany,
}

impl Fault {
    // The number that the text tells.
    fn number(self) -> usize
        ensures { result ≡ fault_number self }
    {
        match self {
            Fault::Longer => 3,
            Fault::Short => 2,
            Fault::Unmarked => 1,
            Fault::TableCut => 2,
            Fault::TooMany => 3,
        }
    }
}

// The tests of a job: the size of its frame, or the first fault.
fn check(input: &[u8]) -> Result<Size, Fault>
    ensures sound { IfOk result (λ size. Sound input.now size) }
    ensures text { job_text input.now ≡ checked_text input.now result }
{
    if INPUT < input.len() {
        return Err(Fault::Longer);
    }
    if input.len() < 9 {
        return Err(Fault::Short);
    }
    if !marked(input) {
        return Err(Fault::Unmarked);
    }
    let width = half_word(input, 5);
    let height = half_word(input, 7);
    let table_end = 9 + 4 * height;
    let cells = width * height;
    if input.len() < table_end {
        return Err(Fault::TableCut);
    }
    if SAMPLES < cells {
        return Err(Fault::TooMany);
    }
    Ok(Size { width, height })
}

// The direct decoder's answer to a job that has no fault, and after done the rows.
fn put_answer(input: &[u8], size: Size, text: &mut [u8]) -> usize
    requires sound { Sound input.now size }
    requires room { Room text.old 0 (answer_text input.now) }
    ensures { Appends text.old 0 (answer_text input.now) text.new result }
{
    let mut samples = [0u16; SAMPLES];
    let mut map = [0u8; SAMPLES];
    let mut offsets = [0u32; OFFSETS];
    let Size { width, height } = size;
    read_offsets(input, &mut offsets, height);
    let stream = 9 + 4 * height;
    let answer = decode_v0_reference_map(
        &input[stream..],
        &offsets[..height],
        width,
        height,
        &mut samples,
        &mut map,
    );
    if answer.number == 0 {
        return put_frame(text, width, height, &samples, &map);
    }
    put_refused(text, answer.number as usize)
}

// Runs the job of an input: its text stands at the start of the array lent, and the answer counts its bytes.
pub fn run(input: &[u8], text: &mut [u8; TEXT]) -> usize
    ensures { Holds text.old (job_text input.now) text.new result }
{
    match check(input) {
        Ok(size) => put_answer(input, size, text),
        Err(fault) => put_fault(text, fault.number()),
    }
}

// The job of an input longer than 32,768 bytes, which need not be lent: every such input has the same text.
pub fn run_longer(text: &mut [u8; TEXT]) -> usize
    ensures text { Holds text.old (fault 3) text.new result }
    ensures every_input { (s : List ℕ) → most_input < length s → job_text s ≡ fault 3 }
{
    put_fault(text, Fault::Longer.number())
}
