// An inner block: from row 2 on, after column 0 and inside its row nothing is skipped. Its residuals, all by value, are added to the
// predictors in the order of the stream.
ghost use Rattle.std.specs.Prelude.{◌≡◌, ◌+◌, ◌*◌, ◌%◌, ◌<◌, ◌≤◌, true, false, [], ◌∷◌, map, length, replicate, if◌then◌else◌, nat_eq, slice_index, slice_index_or, slice_set};
ghost use Rattle.rules.specs.V0 as V0;
ghost use Rattle.rules.specs.Map.{v0_marks};
ghost use Rattle.v0_cells.specs.Places.{Whole, Inner, Inside, Low};
ghost use Rattle.v0_cells.specs.Inner.{source_of, inner_ops, Replaced};

use super::cell::Cell;
use rules::{Size, V0Row};
use v0_parse::order::stream_column;

// Where sample c predicts from.
fn source(w: usize, base: usize, up: bool, c: usize) -> usize
    requires { (2 * w ≤ base) × ((2 ≤ base) × (Low base × (c < 16))) }
    ensures { (result ≡ source_of w base up c) × (result < base + 16) }
{
    if up {
        return base + c - (1 + c % 2) * w;
    }
    base - (2 - c % 2)
}

// The samples of a block at `base`.
pub fn put_inner(out: &mut [u16], w: usize, base: usize, up: bool, residuals: [u16; V0Row::BLOCK])
    requires { Inside w base out.old × Low base }
    ensures { out.new ≡ V0.apply V0.sample_kind (inner_ops w base up V0.order residuals) out.old }
{
    for k in 0..V0Row::BLOCK {
        let c = stream_column(k);
        let p = source(w, base, up, c);
        out[base + c] = out[p].wrapping_add(residuals[k]);
    }
}

// How far the sources of every other sample lie from one another: as far as the samples, or all are one.
fn source_step(up: bool) -> usize
    ensures { (result ≡ (if up then 2 else 0)) × (result ≤ 2) }
{
    if up { 2 } else { 0 }
}

// A sample is its source and its residual.
fn put_sum(out: &mut [u16], to: usize, from: usize, residual: u16)
    requires { (to < length out.old) × (from < length out.old) }
    ensures { out.new ≡ slice_set out.old to ((slice_index out.old from + residual) % 65_536) }
{
    out[to] = out[from].wrapping_add(residual);
}

// Four samples of a block at `base`, in column `first` and every other one after it.
pub fn put_four(out: &mut [u16], w: usize, base: usize, up: bool, first: usize, four: [u16; 4])
    requires { Inside w base out.old × (Low base × (first + 6 < 16)) }
    ensures { out.new ≡ V0.apply V0.sample_kind (inner_ops w base up (first ∷ (first + 2) ∷ (first + 4) ∷ (first + 6) ∷ []) (slice_index four 0 ∷ slice_index four 1 ∷ slice_index four 2 ∷ slice_index four 3 ∷ [])) out.old }
{
    let from = source(w, base, up, first);
    let step = source_step(up);
    let to = base + first;
    put_sum(out, to, from, four[0]);
    put_sum(out, to + 2, from + step, four[1]);
    put_sum(out, to + 4, from + 2 * step, four[2]);
    put_sum(out, to + 6, from + 3 * step, four[3]);
}

// Of two cells the one for a column: even columns take the first, odd ones the second.
pub fn of_parity<T: Copy>(c: usize, even: T, odd: T) -> T
    ensures { result ≡ (if nat_eq (c % 2) 0 then even else odd) }
{
    if c % 2 == 0 { even } else { odd }
}

// The cells of a block, once all are known. Inlined, so that they stay in registers until then.
#[inline(always)]
pub fn store<C: Cell>(cells: &mut [C], base: usize, values: &[C])
    requires { (base + 16 ≤ length cells.old) × ((16 ≤ length values.now) × Low base) }
    ensures { Replaced C.kind base 16 (λ c. slice_index_or values.now c (C.kind.constant 0)) cells.old cells.new }
{
    for c in 0..V0Row::BLOCK {
        cells[base + c] = values[c];
    }
}

// The cells of a block of direction 1, by the residuals of its columns. Every source lies before the block, so that all are made first
// and then stored: a store between the reads would keep the compiler from joining them. Inlined as those that call it, so that the
// residuals stay in registers.
#[inline(always)]
fn put_up<C: Cell>(cells: &mut [C], w: usize, base: usize, residuals: [u16; V0Row::BLOCK])
    requires { Inside w base cells.old × Low base }
    ensures { cells.new ≡ V0.apply C.kind (inner_ops w base true V0.order (map (λ c. slice_index residuals c) V0.order)) cells.old }
{
    let mut values = [C::constant(0); V0Row::BLOCK];
    for c in 0..V0Row::BLOCK {
        let one = cells[base + c - w];
        let two = cells[base + c - 2 * w];
        let p = of_parity(c, one, two);
        values[c] = p.plus(residuals[c]);
    }
    store(cells, base, &values[..]);
}

// Those of a block of direction 0: the two columns before it serve all sixteen. The row length is for the contract alone.
#[inline(always)]
fn put_left<C: Cell>(cells: &mut [C], w: usize, base: usize, residuals: [u16; V0Row::BLOCK])
    requires { Inside w base cells.old × Low base }
    ensures { cells.new ≡ V0.apply C.kind (inner_ops w base false V0.order (map (λ c. slice_index residuals c) V0.order)) cells.old }
{
    let two = cells[base - 2];
    let one = cells[base - 1];
    let mut values = [C::constant(0); V0Row::BLOCK];
    for c in 0..V0Row::BLOCK {
        let p = of_parity(c, two, one);
        values[c] = p.plus(residuals[c]);
    }
    store(cells, base, &values[..]);
}

// The cells of a block at `base`, by the residuals of its columns, all at once.
#[inline(always)]
pub fn put_columns<C: Cell>(
    cells: &mut [C],
    w: usize,
    base: usize,
    up: bool,
    residuals: [u16; V0Row::BLOCK],
)
    requires { Inside w base cells.old × Low base }
    ensures { cells.new ≡ V0.apply C.kind (inner_ops w base up V0.order (map (λ c. slice_index residuals c) V0.order)) cells.old }
{
    if up {
        put_up(cells, w, base, residuals);
        return;
    }
    put_left(cells, w, base, residuals);
}

// The marks of a block, where a map is lent.
pub fn mark_block(map: &mut [u8], size: Size, row: usize, col: usize, up: bool)
    requires { Inner size row col × Whole size map.old }
    ensures { map.new ≡ V0.apply v0_marks (inner_ops size.width (row * size.width + col) up V0.order (replicate 16 0)) map.old }
{
    if map.is_empty() {
        return;
    }
    let w = size.width;
    put_columns(map, w, row * w + col, up, [0; V0Row::BLOCK]);
}
