// Blanking: what a map says of a frame's samples, every marked sample set to a fill, and the runs that they make. `specs/` has the
// rule.
#![tactic(auto)]

ghost use Rattle.std.specs.Prelude.{◌≡◌, [], ◌∷◌, ◌+◌, ◌*◌, ◌≤◌, ◌<◌, ltb, length, drop};
ghost use Rattle.std.proofs.lemmas.List.Edits.{sets};
ghost use Rattle.rules.specs.Limits.{most_side};
ghost use Rattle.rules.specs.Refusals.{refusal_number};
ghost use Rattle.frame_blank.specs.Blanking.{marked, bad_map, bit, blanked, stretch, row_runs, runs_of, numbers};
ghost use Rattle.frame_blank.specs.Calls.{refused, blanked_done};
ghost use Rattle.frame_blank.specs.MapLent.{tally, gap, meant, left_of, turns, by_turns, MapLent, RowLent, RowBlanked, FrameLent};

use frame_map::greatest_of;
use rules::{Answer, Refusal, Size};

// The answer, how many samples were set, and how many runs they make; both are 0 unless samples were set.
#[repr(C)]
#[derive(Clone, Copy)]
pub struct Blanked {
    pub answer: Answer,
    pub count: u64,
    pub runs: u64,
}

impl Blanked {
    pub fn done(count: u64, runs: u64) -> Blanked
        ensures { result ≡ blanked_done count runs }
    {
        let answer = Answer::done();
        Blanked {
            answer,
            count,
            runs,
        }
    }
}

// A refusal's answer, with no samples and no runs.
impl From<Refusal> for Blanked {
    ghost from_gives = { λ refusal blanked. blanked ≡ refused (refusal_number refusal) };

    fn from(refusal: Refusal) -> Blanked {
        Blanked {
            answer: Answer::from(refusal),
            count: 0,
            runs: 0,
        }
    }
}

// How many samples are marked, and how many runs they make.
#[derive(Clone, Copy)]
pub struct Tally {
    pub marked: usize,
    pub runs: usize,
}

// Whether a map has a byte above 3, which no decoder leaves: refusal 14.
pub fn is_bad_map(map: &[u8]) -> bool
    ensures { result ≡ bad_map map.now }
{
    3 < greatest_of(map)
}

// 1 if a byte marks its sample, else 0.
fn mark(byte: u8) -> u16
    ensures { result ≡ bit (marked byte) }
{
    u16::from(0 < byte)
}

// 1 if a run starts at a sample, by the mark before and its own.
fn starts(before: u16, mark: u16) -> u16
    ensures { result ≡ bit (ltb before mark) }
{
    u16::from(before < mark)
}

// The marked samples and the runs of a row; most rows have none. Numbers of 16 bits hold them and can be added many at once.
fn tally_row(map: &[u8]) -> Tally
    requires { length map.now ≤ most_side }
    ensures { result ≡ tally map.now (row_runs 0 map.now) }
{
    if greatest_of(map) == 0 {
        return Tally { marked: 0, runs: 0 };
    }
    let mut marked: u16 = 0;
    let mut runs: u16 = 0;
    let mut before: u16 = 0;
    for x in map {
        let now = mark(*x);
        marked += now;
        runs += starts(before, now);
        before = now;
    }
    Tally {
        marked: usize::from(marked),
        runs: usize::from(runs),
    }
}

// The marked samples and the runs of a frame.
pub fn tally_frame(map: &[u8], size: Size) -> Tally
    requires { MapLent size map.now }
    ensures { result ≡ tally map.now (runs_of size map.now) }
{
    let mut marked: usize = 0;
    let mut runs: usize = 0;
    for row in 0..size.height {
        let at = row * size.width;
        let end = at + size.width;
        let more = tally_row(&map[at..end]);
        marked += more.marked;
        runs += more.runs;
    }
    Tally { marked, runs }
}

// What a run's samples are set to by turns: the first of them, and the second.
#[derive(Clone, Copy)]
pub struct Turns {
    pub first: u16,
    pub second: u16,
}

// What lies so many columns to the left; 0 if that is past the row's start.
fn left_of(samples: &[u16], col: usize, by: usize) -> u16
    requires { (0 < by) × (col ≤ length samples.now) }
    ensures { result ≡ left_of samples.now col by }
{
    if col < by { 0 } else { samples[col - by] }
}

// What a run is set to that starts at a column. With no stated fill that is what lies to its left: a sample there is not marked, or
// was set before, so nothing is looked for further on.
fn turns_at(samples: &[u16], col: usize, fill: Option<u16>) -> Turns
    requires { col ≤ length samples.now }
    ensures { result ≡ turns fill samples.now col }
{
    match fill {
        Some(value) => Turns {
            first: value,
            second: value,
        },
        None => {
            let first = left_of(samples, col, 2);
            let second = left_of(samples, col, 1);
            Turns { first, second }
        }
    }
}

// Sets a run's samples, two at once.
fn set_run(samples: &mut [u16], from: usize, columns: usize, fill: Turns)
    requires { from + columns ≤ length samples.old }
    ensures { samples.new ≡ sets samples.old from (by_turns columns fill.first fill.second) }
{
    for k in 0..columns / 2 {
        let at = from + 2 * k;
        samples[at] = fill.first;
        samples[at + 1] = fill.second;
    }
    if columns % 2 == 1 {
        samples[from + columns - 1] = fill.first;
    }
}

// How many marked samples follow each other from a column on.
fn stretch_at(map: &[u8], first: usize) -> usize
    requires { first ≤ length map.now }
    ensures { result ≡ stretch (drop first map.now) }
{
    for end in first..map.len() {
        if map[end] == 0 {
            return end - first;
        }
    }
    map.len() - first
}

// The next marked sample's column, from one on; the row's end if there is none.
fn next_marked(map: &[u8], first: usize) -> usize
    requires { first ≤ length map.now }
    ensures { result ≡ first + gap (drop first map.now) }
{
    for col in first..map.len() {
        if map[col] != 0 {
            return col;
        }
    }
    map.len()
}

// A run, as three numbers of the list.
fn put_run(runs: &mut [u32], at: usize, row: usize, first: usize, columns: usize)
    requires { (at + 3 ≤ length runs.old) × ((row ≤ most_side) × ((first ≤ most_side) × (columns ≤ most_side))) }
    ensures { runs.new ≡ sets runs.old at (row ∷ first ∷ columns ∷ []) }
{
    // Casts, since the library has no `From` for them.
    runs[at] = row as u32;
    runs[at + 1] = first as u32;
    runs[at + 2] = columns as u32;
}

// Blanks a row and lists its runs from a place of the list on, and says where the next row's go; most rows have none.
fn blank_row(
    samples: &mut [u16],
    map: &[u8],
    row: usize,
    fill: Option<u16>,
    runs: &mut [u32],
    from: usize,
) -> usize
    requires { RowLent row samples.old map.now from runs.old }
    ensures { RowBlanked (meant fill) row samples.old map.now from runs.old result samples.new runs.new }
{
    if greatest_of(map) == 0 {
        return from;
    }
    let mut at = from;
    let mut col = next_marked(map, 0);
    // Not a `for`: a run's columns are passed at once, and so are those up to the next.
    while col < map.len() {
        let columns = stretch_at(map, col);
        let turns = turns_at(samples, col, fill);
        set_run(samples, col, columns, turns);
        put_run(runs, at, row, col, columns);
        at += 3;
        col = next_marked(map, col + columns);
    }
    at
}

// Blanks a frame, by a fill if one is stated, and lists its runs.
pub fn blank_frame(samples: &mut [u16], map: &[u8], size: Size, fill: Option<u16>, runs: &mut [u32])
    requires { FrameLent size samples.old map.now runs.old }
    ensures samples { samples.new ≡ blanked (meant fill) size samples.old map.now }
    ensures runs { runs.new ≡ sets runs.old 0 (numbers (runs_of size map.now)) }
{
    let mut at: usize = 0;
    for row in 0..size.height {
        let start = row * size.width;
        let end = start + size.width;
        at = blank_row(
            &mut samples[start..end],
            &map[start..end],
            row,
            fill,
            runs,
            at,
        );
    }
}
