// Rows, and a frame, written into lent buffers that are long enough.
ghost use Rattle.std.specs.Prelude.{◌≡◌, ◌+◌, ◌%◌, ◌^◌, ◌≤◌, ◌<◌, length, set};
ghost use Rattle.std.proofs.lemmas.List.Edits.{sets};
ghost use Rattle.write_rules.specs.Writer as V0;
ghost use Rattle.write_rules.specs.V2Writer as V2;
ghost use Rattle.write_rules.specs.Writer.{bytes, offsets_from};
ghost use Rattle.write_frame.specs.Frames.{Writable, unit, coding, row_of, rows_of};
ghost use Rattle.write_frame.specs.declared.format.Format.TheVariants as Variants;

use super::format::{Format, HEADER_BYTES, numbers_of, unit_of};
use rules::{Size, V0Row};
use write_bits::{Pending, finish, put_block, store};

// ── Rows ──

// Writes a row from byte `at` on, and says where the next row begins.
fn write_row(
    out: &mut [u8],
    at: usize,
    samples: &[u16],
    size: Size,
    format: Format,
    row: usize,
) -> usize
    requires { Writable format size samples.now × (row < size.height) × (at % unit format ≡ 0) × (at + length (row_of format size samples.now row) ≤ length out.old) }
    ensures { (result ≡ at + length (row_of format size samples.now row)) × (out.new ≡ sets out.old at (row_of format size samples.now row)) }
{
    let mut p = Pending::none(at);
    for block in 0..V0Row::blocks_in(size.width) {
        let d = numbers_of(samples, size, format, row, block * V0Row::BLOCK);
        p = put_block(out, p, d);
    }
    let q = finish(out, p, unit_of(format));
    q.pos
}

// Stores where a row begins. V2 has no offsets: a table of none has no place for it.
fn put_offset(offsets: &mut [u32], row: usize, at: usize)
    requires { at < 2 ^ 32 }
    ensures { offsets.new ≡ set offsets.old row at }
{
    if row < offsets.len() {
        // A cast, since the library has no `From` for it.
        offsets[row] = at as u32;
    }
}

// Writes all rows from byte `start` on, and where each begins.
fn write_rows(
    out: &mut [u8],
    start: usize,
    offsets: &mut [u32],
    samples: &[u16],
    size: Size,
    format: Format,
)
    requires { Writable format size samples.now × (start % unit format ≡ 0) × (start ≤ 16) × (start + length (rows_of format size samples.now) ≤ length out.old) }
    ensures stream { out.new ≡ sets out.old start (rows_of format size samples.now) }
    ensures offsets { offsets.new ≡ sets offsets.old 0 (offsets_from (coding format size samples.now) size.height 0 start) }
{
    let mut at = start;
    for row in 0..size.height {
        put_offset(offsets, row, at);
        at = write_row(out, at, samples, size, format, row);
    }
}

// ── Frames ──

// Writes a V0 frame: the stream from byte 0 on, and its offsets.
pub fn write_v0(out: &mut [u8], offsets: &mut [u32], samples: &[u16], size: Size)
    requires { Writable Variants.V0 size samples.now × (length (V0.stream_for size samples.now) ≤ length out.old) }
    ensures stream { out.new ≡ sets out.old 0 (V0.stream_for size samples.now) }
    ensures offsets { offsets.new ≡ sets offsets.old 0 (V0.offsets_for size samples.now) }
{
    write_rows(out, 0, offsets, samples, size, Format::V0);
}

// V2's header, four words: depth 14 less 1, options 7, and all else 0.
fn write_header(out: &mut [u8])
    requires { 16 ≤ length out.old }
    ensures { out.new ≡ sets out.old 0 (bytes V2.header_bits) }
{
    store(out, 0, 13 * 256);
    store(out, 4, 0);
    store(out, 8, 7 * 256);
    store(out, 12, 0);
}

// Writes a V2 frame: the header, and the rows.
pub fn write_v2(out: &mut [u8], samples: &[u16], size: Size)
    requires { Writable Variants.V2 size samples.now × (length (V2.stream_for size samples.now) ≤ length out.old) }
    ensures { out.new ≡ sets out.old 0 (V2.stream_for size samples.now) }
{
    let mut no_offsets = [0u32; 0];
    write_header(out);
    write_rows(
        out,
        HEADER_BYTES,
        &mut no_offsets,
        samples,
        size,
        Format::V2,
    );
}
