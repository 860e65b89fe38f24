// Colour planes: a frame's samples rearranged so that equal colours lie together, and the way back. Every sample is read once and
// written once.
#![tactic(auto)]

ghost use Rattle.std.specs.Prelude.{◌≡◌, [], ◌+◌, ◌-◌, ◌*◌, ◌/◌, ◌≤◌, length, get_or, drop};
ghost use Rattle.frame_planes.specs.Planes.{evens, rows_of, by_columns, to_planes, even_count, odd_count, weave, rows_back, from_planes};
ghost use Rattle.frame_planes.specs.PlanesLent.{PlanesLent, RowOfHalf, row_put, row_taken, HalfLent, RowLent};

use rules::Size;

// Every second sample of a row, from the first or the second on.
fn split_row(row: &[u16], first: usize, to: &mut [u16])
    requires { (first ≤ 1) × (length to.old ≡ (length row.now + 1 - first) / 2) }
    ensures { to.new ≡ evens (drop first row.now) }
{
    for k in 0..to.len() {
        to[k] = row[2 * k + first];
    }
}

// A row's even columns and its odd ones in turn.
fn weave_row(evens: &[u16], odds: &[u16], row: &mut [u16])
    requires { (length evens.now ≡ even_count (length row.old)) × (length odds.now ≡ odd_count (length row.old)) }
    ensures { row.new ≡ weave evens.now odds.now }
{
    let pairs = odds.len();
    for k in 0..pairs {
        row[2 * k] = evens[k];
        row[2 * k + 1] = odds[k];
    }
    if pairs < evens.len() {
        row[2 * pairs] = evens[pairs];
    }
}

// Row k of the `rows` of its parity, into their half of the planes.
fn put_row(row: &[u16], rows: usize, k: usize, half: &mut [u16])
    requires { RowOfHalf (length row.now) rows k (length half.old) }
    ensures { half.new ≡ row_put row.now rows k half.old }
{
    let even = (row.len() + 1) / 2;
    let odd = row.len() / 2;
    let even_at = k * even;
    let even_end = even_at + even;
    split_row(row, 0, &mut half[even_at..even_end]);
    let odd_at = rows * even + k * odd;
    let odd_end = odd_at + odd;
    split_row(row, 1, &mut half[odd_at..odd_end]);
}

// Row k of the `rows` of its parity, out of their half of the planes.
fn take_row(half: &[u16], rows: usize, k: usize, row: &mut [u16])
    requires { RowOfHalf (length row.old) rows k (length half.now) }
    ensures { row.new ≡ row_taken (length row.old) rows k half.now }
{
    let even = (row.len() + 1) / 2;
    let odd = row.len() / 2;
    let even_at = k * even;
    let even_end = even_at + even;
    let odd_at = rows * even + k * odd;
    let odd_end = odd_at + odd;
    weave_row(&half[even_at..even_end], &half[odd_at..odd_end], row);
}

// The rows of one parity, into their half of the planes.
fn put_rows(samples: &[u16], size: Size, parity: usize, half: &mut [u16])
    requires { HalfLent size parity samples.now half.old }
    ensures { half.new ≡ by_columns (evens (drop parity (rows_of size samples.now))) }
{
    let rows = (size.height + 1 - parity) / 2;
    for k in 0..rows {
        let at = (2 * k + parity) * size.width;
        let end = at + size.width;
        put_row(&samples[at..end], rows, k, half);
    }
}

// A frame into its planes: the even rows make the first half of them, the odd rows the second.
pub fn to_planes(samples: &[u16], size: Size, planes: &mut [u16])
    requires { PlanesLent size samples.now planes.old }
    ensures { planes.new ≡ to_planes size samples.now }
{
    let half = (size.height + 1) / 2 * size.width;
    put_rows(samples, size, 0, &mut planes[..half]);
    put_rows(samples, size, 1, &mut planes[half..]);
}

// A row of the frame, out of the half of the planes that has its parity.
fn take_frame_row(planes: &[u16], size: Size, row: usize, to: &mut [u16])
    requires { RowLent size row planes.now to.old }
    ensures { to.new ≡ get_or (rows_back size planes.now) row [] }
{
    let parity = row % 2;
    let rows = (size.height + 1 - parity) / 2;
    let start = parity * ((size.height + 1) / 2 * size.width);
    take_row(&planes[start..], rows, row / 2, to);
}

// The planes of a frame back into it, row by row.
pub fn from_planes(planes: &[u16], size: Size, samples: &mut [u16])
    requires { PlanesLent size planes.now samples.old }
    ensures { samples.new ≡ from_planes size planes.now }
{
    for row in 0..size.height {
        let at = row * size.width;
        let end = at + size.width;
        take_frame_row(planes, size, row, &mut samples[at..end]);
    }
}
