// Phase two: the prediction of each sample from row 2 on, added to the residual that phase one left in its place.
#![tactic(auto)]

ghost use Rattle.std.specs.Prelude.{◌≡◌, ◌+◌, ◌-◌, ◌*◌, ◌%◌, ◌<◌, ◌≤◌, true, false, [], ◌∷◌, map, length, slice_index, take, drop};
ghost use Rattle.rules.specs.V0.{order, blocks_in, apply, sample_kind};
ghost use Rattle.rules.specs.Phases.{late_predictor, predict_samples, predict_blocks, sample_stage};
ghost use Rattle.v0_cells.specs.Places.{Inside, Low};
ghost use Rattle.v0_cells.specs.Inner.{inner_ops};
ghost use Rattle.v0_phase2.specs.LateRow.{LateSample, LateRow};

use rules::{Predictor, V0Row};
use v0_cells::cells::put;
use v0_cells::inner::{of_parity, store};
use v0_parse::order::stream_column;

// How many rows up sample c looks.
fn rows_up(c: usize) -> usize
    ensures { result ≡ 1 + c % 2 }
{
    c % 2 + 1
}

// Where sample c predicts from.
fn predictor(w: usize, row: usize, col: usize, up: bool, c: usize) -> Predictor
    requires { LateSample w row col c }
    ensures { result ≡ late_predictor w row col up c }
{
    if up {
        Predictor::Sample((row - rows_up(c)) * w + col + c)
    } else if 0 < col {
        Predictor::Sample(row * w + col - (2 - c % 2))
    } else {
        Predictor::Constant
    }
}

// Sample c of a block, if it lies within the row.
fn add_sample(out: &mut [u16], w: usize, row: usize, col: usize, up: bool, c: usize)
    requires { LateRow w row out.old × ((col < w) × (c < 16)) }
    ensures { out.new ≡ predict_samples sample_stage w row col up (c ∷ []) out.old }
{
    if col + c < w {
        let place = row * w + col + c;
        let from = predictor(w, row, col, up, c);
        let residual = out[place];
        put(out, place, from, residual);
    }
}

// A block at an edge of its row: sample by sample.
fn add_edge(out: &mut [u16], w: usize, row: usize, col: usize, up: bool)
    requires { LateRow w row out.old × (col < w) }
    ensures { out.new ≡ predict_samples sample_stage w row col up order out.old }
{
    for k in 0..V0Row::BLOCK {
        let c = stream_column(k);
        add_sample(out, w, row, col, up, c);
    }
}

// An inner block of direction 1, whose residuals stand in its own places. As for its marks, all sums are made first and then stored. Each
// direction has a loop of its own: by `put_columns`, which takes the residuals of any block, phase two took 1.2 times as long.
fn add_up(out: &mut [u16], w: usize, base: usize)
    requires { Inside w base out.old × Low base }
    ensures { out.new ≡ apply sample_kind (inner_ops w base true order (map (λ c. slice_index out.old (base + c)) order)) out.old }
{
    let mut values = [0; V0Row::BLOCK];
    for c in 0..V0Row::BLOCK {
        let one = out[base + c - w];
        let two = out[base + c - 2 * w];
        let p = of_parity(c, one, two);
        values[c] = p.wrapping_add(out[base + c]);
    }
    store(out, base, &values[..]);
}

// An inner block of direction 0. The row length is for the contract alone.
fn add_left(out: &mut [u16], w: usize, base: usize)
    requires { Inside w base out.old × Low base }
    ensures { out.new ≡ apply sample_kind (inner_ops w base false order (map (λ c. slice_index out.old (base + c)) order)) out.old }
{
    let two = out[base - 2];
    let one = out[base - 1];
    let mut values = [0; V0Row::BLOCK];
    for c in 0..V0Row::BLOCK {
        let p = of_parity(c, two, one);
        values[c] = p.wrapping_add(out[base + c]);
    }
    store(out, base, &values[..]);
}

// A block after column 0 that lies within its row: every sample has a predictor before the block.
fn add_inner(out: &mut [u16], w: usize, row: usize, col: usize, up: bool)
    requires { LateRow w row out.old × ((0 < col) × (col + 16 ≤ w)) }
    ensures { out.new ≡ predict_samples sample_stage w row col up order out.old }
{
    let base = row * w + col;
    if up {
        add_up(out, w, base);
    } else {
        add_left(out, w, base);
    }
}

// The samples of a block.
fn add_block(out: &mut [u16], w: usize, row: usize, col: usize, up: bool)
    requires { LateRow w row out.old × (col < w) }
    ensures { out.new ≡ predict_samples sample_stage w row col up order out.old }
{
    if 0 < col && col + V0Row::BLOCK <= w {
        add_inner(out, w, row, col, up);
    } else {
        add_edge(out, w, row, col, up);
    }
}

// The blocks of a row from number `from` up to but not `to`. The row's directions begin at `start`.
pub fn add_part(
    out: &mut [u16],
    dirs: &[u8],
    start: usize,
    from: usize,
    to: usize,
    w: usize,
    row: usize,
)
    requires { LateRow w row out.old × ((start + to ≤ length dirs.now) × (to ≤ blocks_in w)) }
    ensures { out.new ≡ predict_blocks sample_stage w row (from * 16) (take (to - from) (drop (start + from) dirs.now)) out.old }
{
    for k in from..to {
        add_block(out, w, row, k * V0Row::BLOCK, dirs[start + k] != 0);
    }
}
