// One recorded call.
ghost use Rattle.std.specs.Prelude.{◌<◌};

use super::samples::{fill, sum};
use rules::{Answer, Bits};

const SAMPLES: usize = 290_000;

const OFFSETS: usize = 300;

const SCRATCH: usize = 4_096;

const WRITTEN: usize = 30_000;

// What a call asks for.
#[derive(Clone, Copy)]
enum Task {
    DecodeV0,
    Write,
    DecodeV2,
}

// The number whose four bytes start at `at`.
fn number(bytes: &[u8], at: usize) -> u32 {
    read_bits::fetch(bytes, at as u64).unwrap_or(Bits::FILLER)
}

pub(crate) fn word(bytes: &[u8], at: usize) -> usize
    ensures { result < 4_294_967_296 }
{
    number(bytes, at) as usize
}

// Where the stream's length stands: after the size and the offsets.
fn length_at(call: &[u8]) -> usize
    ensures { result < 17_179_869_200 }
{
    16 + 4 * word(call, 12)
}

// Where the stream ends, and the samples lent, the seed, the answer and the sum stand.
pub(crate) fn end_at(call: &[u8]) -> usize
    ensures { result < 21_474_836_500 }
{
    let at = length_at(call);
    at + 4 + word(call, at)
}

fn task_of(call: &[u8]) -> Task {
    match number(call, 0) {
        1 => Task::Write,
        2 => Task::DecodeV2,
        _ => Task::DecodeV0,
    }
}

fn recorded_seed(call: &[u8]) -> usize {
    word(call, end_at(call) + 4)
}

// The answer's row, where it is recorded.
fn recorded_row(call: &[u8]) -> Option<u32> {
    match number(call, end_at(call) + 12) {
        u32::MAX => None,
        row => Some(row),
    }
}

fn recorded_sum(call: &[u8]) -> usize {
    word(call, end_at(call) + 16)
}

// The stream of a call, cut to the bytes that are there.
fn stream(call: &[u8]) -> &[u8] {
    let at = length_at(call);
    let rest = &call[call.len().min(at + 4)..];
    &rest[..rest.len().min(word(call, at))]
}

fn read_offsets(call: &[u8], offsets: &mut [u32]) {
    for i in 0..offsets.len() {
        let at = 4 * i;
        offsets[i] = number(call, std::num::wrapping_add_usize(16, at));
    }
}

// V0's decoder in two phases, with directions of its own.
pub(crate) fn decode_two_phase(
    src: &[u8],
    offsets: &[u32],
    width: usize,
    height: usize,
    out: &mut [u16],
) -> Answer {
    let mut scratch = [0u8; SCRATCH];
    samsung::decode_v0(src, offsets, width, height, out, &mut scratch)
}

// Decodes a call of V0 by a decoder.
fn decode_v0<F>(call: &[u8], out: &mut [u16], decode: F) -> Answer
where
    F: Fn(&[u8], &[u32], usize, usize, &mut [u16]) -> Answer,
    requires { F.IsAlwaysCallable decode }
{
    let mut offsets = [0u32; OFFSETS];
    read_offsets(call, &mut offsets);
    let n = offsets.len().min(word(call, 12));
    decode(
        stream(call),
        &offsets[..n],
        word(call, 4),
        word(call, 8),
        out,
    )
}

// Whether an answer is other than the one recorded.
fn is_other(call: &[u8], answer: Answer) -> bool {
    answer.number != number(call, end_at(call) + 8)
        || recorded_row(call).is_some_and(|row| row != answer.row)
}

// The sum over what a writer leaves: how long the stream is, its buffer and that of the offsets.
fn sum_written(length: u64, stream: &[u8], offsets: &[u32]) -> usize {
    sum(sum(length as usize, stream), offsets)
}

// Whether the answer, or what is written of some samples, is other than recorded. Sums are made where the answer is as recorded.
fn differs_written(call: &[u8], samples: &[u16]) -> bool {
    let mut stream = [9u8; WRITTEN];
    let mut offsets = [9u32; OFFSETS];
    let written = entry_frames::write_v0(
        samples,
        word(call, 4),
        word(call, 8),
        &mut stream,
        &mut offsets,
    );
    is_other(call, written.answer)
        || sum_written(written.length, &stream, &offsets) != recorded_sum(call)
}

fn differs_decoded(call: &[u8], answer: Answer, samples: &[u16]) -> bool {
    is_other(call, answer) || sum(0, samples) != recorded_sum(call)
}

// Whether answer or samples are other than those recorded, where samples are lent and a decoder of V0 is given.
fn differs_over<F>(call: &[u8], out: &mut [u16], decode: F) -> bool
where
    F: Fn(&[u8], &[u32], usize, usize, &mut [u16]) -> Answer,
    requires { F.IsAlwaysCallable decode }
{
    let seed = recorded_seed(call);
    match task_of(call) {
        Task::Write => {
            fill(out, seed, seed % 2 == 0);
            differs_written(call, out)
        }
        Task::DecodeV2 => {
            fill(out, seed, false);
            let answer = samsung::decode_v2(stream(call), word(call, 4), word(call, 8), out);
            differs_decoded(call, answer, out)
        }
        Task::DecodeV0 => {
            fill(out, seed, false);
            let answer = decode_v0(call, out, decode);
            differs_decoded(call, answer, out)
        }
    }
}

fn differs_lent<F>(call: &[u8], samples: &mut [u16], decode: F) -> bool
where
    F: Fn(&[u8], &[u32], usize, usize, &mut [u16]) -> Answer,
    requires { F.IsAlwaysCallable decode }
{
    let n = samples.len().min(word(call, end_at(call)));
    differs_over(call, &mut samples[..n], decode)
}

// Whether answer or samples are other than those recorded, V0's by a decoder.
pub(crate) fn differs<F>(call: &[u8], decode: F) -> bool
where
    F: Fn(&[u8], &[u32], usize, usize, &mut [u16]) -> Answer,
    requires { F.IsAlwaysCallable decode }
{
    let mut samples = [0u16; SAMPLES];
    differs_lent(call, &mut samples, decode)
}
