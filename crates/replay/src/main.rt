// Replays the recorded calls (rust/compare/src/record.rs) on the entries of `samsung` that take no map and on the writer, and tells
// how many differ. Past the end of the file every number reads as the reader's filler, what is larger than the buffers is cut to
// them, and a call for which the file has no bytes counts as one that differs: so a broken record shows as calls that differ.
#![tactic(auto)]

mod call;
mod samples;

use call::{decode_two_phase, differs, end_at, word};
use std::{cmp, env, fs, io};

const INPUT: usize = 140_000;

// The fewest bytes of a call: its ten numbers.
const CALL: usize = 40;

fn main(rt: HostRuntime) -> io::Result<()> {
    match env::args(&rt)?.nth(1) {
        Some(path) => replay_file(&rt, path.as_str()),
        None => eprintln!(rt; "replay: no file is named"),
    }
}

fn replay_file(rt: &HostRuntime, path: &str) -> io::Result<()> {
    match fs::read(rt, path) {
        Ok(record) => replay(rt, &record),
        Err(error) => eprintln!(rt; "{path}: {error}"),
    }
}

// Of a longer record only the first bytes are read.
fn replay(rt: &HostRuntime, record: &[u8]) -> io::Result<()> {
    let n = cmp::min(record.len(), INPUT);
    let count = word(&record[..n], 0);
    let held = cmp::min(count, n / CALL);
    let differ = differing(&record[..n], held);
    tell(
        rt,
        count as u64,
        std::num::wrapping_add_u64(differ, (count - held) as u64),
    )
}

fn tell(rt: &HostRuntime, count: u64, differ: u64) -> io::Result<()> {
    println!(rt; "{count} calls replayed, {differ} differ")
}

// How many of the calls differ; they start after the number of calls.
fn differing(input: &[u8], count: usize) -> u64 {
    let mut at = 4;
    let mut differ = 0;
    for _ in 0..count {
        differ = std::num::wrapping_add_u64(differ, differing_at(input, at));
        at = next_at(input, at);
    }
    differ
}

// 1 if the call at `at` differs by an entry, else 0.
fn differing_at(input: &[u8], at: usize) -> u64 {
    let start = cmp::min(at, input.len());
    let call = &input[start..];
    u64::from(differs(call, samsung::decode_v0_reference) || differs(call, decode_two_phase))
}

// Where the call after the one at `at` starts.
fn next_at(input: &[u8], at: usize) -> usize {
    let start = cmp::min(at, input.len());
    let end = end_at(&input[start..]);
    std::num::wrapping_add_usize(start, end + 20)
}
