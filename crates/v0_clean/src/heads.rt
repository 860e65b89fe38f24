// Blocks of which the heads alone are read, in four rows side by side. Where a block's residuals end is known only from its head, so
// that each head waits for the one before it; four rows wait at once.
//
//   base     the byte position that a row's bits are counted from
//   q        the bit that its next block begins at
//   lengths  the four lengths before that block, a byte each
//   last     the last bit that a block may begin at, so that the stream has room for it
//
// A length of 16 is clean but not short: it is left to the way that reads a block by itself, as are first and last blocks of a row.
ghost use Rattle.std.specs.Prelude.{true, ◌≡◌, ◌+◌, ◌*◌, ◌^◌, ◌≤◌, ◌<◌, length};
ghost use Rattle.rules.specs.Limits.{most_side};
ghost use Rattle.v0_lanes.specs.Lengths.{actions};
ghost use Rattle.v0_lanes.specs.Tables.{Holds};
ghost use Rattle.v0_clean.specs.Rows.{Four, RowsPlaced, RowsPassed};
ghost use Rattle.v0_clean.specs.Heads.{Ready, ready, RowsReady, all_ready, TrackOf, point, Tracked, TracksOf, AllTracked, RowsOf, roomy, all_short, TracksRoom, HeadsAt, Moved, HeadsNear, AllMoved, TracksAt, AllPassed, least_on, RowsReach};

use read_window::{BACK_BITS, BACK_BYTES, stands_within, state_at};
use rules::{Size, V0Row};
use v0_direct::run::Run;
use v0_lanes::blocks::head_at;
use v0_lanes::lengths::{
    PackedHead, ShortLengths, all_fit, ends_of, lengths_after, packed, unpacked,
};
use v0_parse_window::{BLOCK_BYTES, are_short, last_start};

// Something of each of four rows. Named fields, and no array, keep the four side by side in registers.
#[derive(Clone, Copy)]
pub struct OfFour<T> {
    pub a: T,
    pub b: T,
    pub c: T,
    pub d: T,
}

impl<T: Copy> OfFour<T> {
    // What a function makes of each.
    #[inline(always)]
    fn map<U, F: Fn(T) -> U>(self, f: F) -> OfFour<U>
        requires { Four (F.pre f self.a) (F.pre f self.b) (F.pre f self.c) (F.pre f self.d) }
        ensures { Four (F.post f self.a result.a) (F.post f self.b result.b) (F.post f self.c result.c) (F.post f self.d result.d) }
    {
        OfFour {
            a: f(self.a),
            b: f(self.b),
            c: f(self.c),
            d: f(self.d),
        }
    }

    // What a function makes of each and of another of the same row.
    #[inline(always)]
    fn map_with<V: Copy, U, F: Fn(T, V) -> U>(self, other: OfFour<V>, f: F) -> OfFour<U>
        requires { Four (F.pre f self.a other.a) (F.pre f self.b other.b) (F.pre f self.c other.c) (F.pre f self.d other.d) }
        ensures { Four (F.post f self.a other.a result.a) (F.post f self.b other.b result.b)
            (F.post f self.c other.c result.c) (F.post f self.d other.d result.d) }
    {
        OfFour {
            a: f(self.a, other.a),
            b: f(self.b, other.b),
            c: f(self.c, other.c),
            d: f(self.d, other.d),
        }
    }
}

// A row by position, where no word was missing.
#[derive(Clone, Copy)]
struct Track {
    base: usize,
    q: usize,
    lengths: ShortLengths,
    last: usize,
}

// Four rows by position, all at one column.
#[derive(Clone, Copy)]
struct Tracks {
    col: usize,
    rows: OfFour<Track>,
}

// Whether a row can be followed by position: its first block was read, no word was missing, its lengths are short, and its record
// stands in the stream.
#[tactic(auto, unfolding(crate::specs::Heads::all_four))]
fn is_ready(src: &[u8], at: Run) -> bool
    ensures answered { result ≡ ready src.now at }
    ensures holds { result ≡ true → Ready src.now at }
{
    let state = at.state;
    at.col == V0Row::BLOCK
        && state.bits.filler == 0
        && are_short(state.lengths)
        && stands_within(src, state.bits, BLOCK_BYTES)
}

// Whether all four can.
#[tactic(auto, unfolding(crate::specs::Heads::all_four))]
fn are_ready(src: &[u8], rows: OfFour<Run>) -> bool
    ensures answered { result ≡ all_ready src.now rows }
    ensures holds { result ≡ true → RowsReady src.now rows }
{
    is_ready(src, rows.a) && is_ready(src, rows.b) && is_ready(src, rows.c) && is_ready(src, rows.d)
}

// Such a row by position, and back to its state at a column.
fn track_of(src: &[u8], at: Run) -> Track
    requires { Ready src.now at }
    ensures { TrackOf src.now at result }
{
    let state = at.state;
    let bits = state.bits;
    let lengths = state.lengths;
    let base = bits.pos as usize - BACK_BYTES;
    Track {
        base,
        q: BACK_BITS - bits.count as usize,
        lengths: packed(lengths),
        last: last_start(src.len() - base),
    }
}

fn run_of(src: &[u8], col: usize, t: Track) -> Run
    requires { Tracked src.now t }
    ensures { result ≡ point src.now col t }
{
    let lengths = unpacked(t.lengths);
    let bits = state_at(src, t.base, t.q, 0);
    let state = V0Row { lengths, bits };
    Run { col, state }
}

// The same of four.
fn tracks_of(src: &[u8], rows: OfFour<Run>) -> Tracks
    requires { RowsReady src.now rows }
    ensures { TracksOf src.now rows result }
{
    Tracks {
        col: V0Row::BLOCK,
        rows: rows.map(|row| track_of(src, row)),
    }
}

fn rows_of(src: &[u8], t: Tracks) -> OfFour<Run>
    requires { AllTracked src.now t }
    ensures { RowsOf src.now t result }
{
    let col = t.col;
    t.rows.map(|row| run_of(src, col, row))
}

// Whether the stream has room for a block of each.
#[tactic(auto, unfolding(crate::specs::Heads::all_four))]
fn have_room(t: Tracks) -> bool
    ensures { result ≡ roomy t }
{
    let rows = t.rows;
    rows.a.q <= rows.a.last
        && rows.b.q <= rows.b.last
        && rows.c.q <= rows.c.last
        && rows.d.q <= rows.d.last
}

// Whether all lengths after four heads are short.
#[tactic(auto, unfolding(crate::specs::Heads::all_four))]
fn are_all_short(h: OfFour<PackedHead>) -> bool
    ensures { result ≡ all_short h }
{
    all_fit(h.a.sums) && all_fit(h.b.sums) && all_fit(h.c.sums) && all_fit(h.d.sums)
}

// The heads of the blocks that four rows go on with.
fn read_heads(src: &[u8], t: Tracks, heads: &[u32; 1024]) -> OfFour<PackedHead>
    requires { TracksRoom src.now t × Holds actions 1_024 heads.now }
    ensures { HeadsAt src.now t result }
{
    t.rows
        .map(|row| head_at(src, row.base, row.q, row.lengths, heads))
}

// A row after a block with a head of short lengths.
fn moved(t: Track, h: PackedHead) -> Track
    requires { (t.q < 2 ^ 31) × (h.size ≤ 25) }
    ensures { Moved t h result }
{
    let lengths = lengths_after(h.sums);
    let ends = ends_of(t.q + h.size, lengths);
    Track {
        base: t.base,
        q: ends.fourth,
        lengths,
        last: t.last,
    }
}

// All four after a block.
fn all_moved(t: Tracks, h: OfFour<PackedHead>) -> Tracks
    requires { (t.col < 2 ^ 31) × HeadsNear t h }
    ensures { AllMoved t h result }
{
    Tracks {
        col: t.col + V0Row::BLOCK,
        rows: t.rows.map_with(h, moved),
    }
}

// Blocks of all four rows from a column on, as long as each has one more inside it that is short and has room in the stream.
fn pass_heads(src: &[u8], size: Size, from: Tracks, heads: &[u32; 1024]) -> Tracks
    requires { TracksAt src.now size from × Holds actions 1_024 heads.now }
    ensures passed { AllPassed src.now size from result }
    ensures reaches { result.col ≡ from.col + 16 * least_on src.now size from }
{
    let mut t = from;
    while t.col + V0Row::BLOCK <= size.width && have_room(t) {
        let h = read_heads(src, t, heads);
        if !are_all_short(h) {
            break;
        }
        t = all_moved(t, h);
    }
    t
}

// Four rows side by side, if all of them are ready: where each is then.
pub fn pass_rows(src: &[u8], size: Size, rows: OfFour<Run>, heads: &[u32; 1024]) -> OfFour<Run>
    requires width_le_most_side { (size.width ≤ most_side) × Holds actions 1_024 heads.now }
    requires rows_placed { RowsPlaced size rows }
    ensures passed { RowsPassed src.now size rows result }
    ensures reaches { RowsReach src.now size rows result }
{
    if !are_ready(src, rows) {
        return rows;
    }
    let from = tracks_of(src, rows);
    let to = pass_heads(src, size, from, heads);
    rows_of(src, to)
}
