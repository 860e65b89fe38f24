// How long a frame becomes, found before a byte of it is written.
ghost use Rattle.std.specs.Prelude.{◌≡◌, ◌+◌, ◌*◌, ◌/◌, ◌≤◌, ◌<◌, length};
ghost use Rattle.write_rules.specs.Writer as V0;
ghost use Rattle.write_rules.specs.V2Writer as V2;
ghost use Rattle.write_rules.specs.Writer.{gap};
ghost use Rattle.write_frame.specs.Frames.{Writable, unit, row_of, rows_of};
ghost use Rattle.write_frame.specs.declared.format.Format.TheVariants as Variants;

use super::format::{Format, HEADER_BYTES, numbers_of};
use rules::{Size, V0Row};
use write_bits::block_length;

// The bytes of so many bits, padded to whole units.
fn in_units(format: Format, bits: usize) -> usize
    requires { bits ≤ 271_360 }
    ensures { result ≡ (bits + gap (8 * unit format) bits) / 8 }
{
    match format {
        Format::V0 => (bits + 31) / 32 * 4,
        Format::V2 => (bits + 127) / 128 * 16,
    }
}

// The bytes of a row.
fn row_length(samples: &[u16], size: Size, format: Format, row: usize) -> usize
    requires { Writable format size samples.now × (row < size.height) }
    ensures { result ≡ length (row_of format size samples.now row) }
{
    let mut bits: usize = 0;
    for block in 0..V0Row::blocks_in(size.width) {
        let d = numbers_of(samples, size, format, row, block * V0Row::BLOCK);
        bits += block_length(d);
    }
    in_units(format, bits)
}

// The bytes of a frame's rows.
fn rows_length(samples: &[u16], size: Size, format: Format) -> usize
    requires { Writable format size samples.now }
    ensures { result ≡ length (rows_of format size samples.now) }
{
    let mut bytes: usize = 0;
    for row in 0..size.height {
        bytes += row_length(samples, size, format, row);
    }
    bytes
}

// The bytes of a V0 stream.
pub fn v0_length(samples: &[u16], size: Size) -> usize
    requires { Writable Variants.V0 size samples.now }
    ensures { result ≡ length (V0.stream_for size samples.now) }
{
    rows_length(samples, size, Format::V0)
}

// The bytes of a V2 stream: its header, and the rows.
pub fn v2_length(samples: &[u16], size: Size) -> usize
    requires { Writable Variants.V2 size samples.now }
    ensures { result ≡ length (V2.stream_for size samples.now) }
{
    HEADER_BYTES + rows_length(samples, size, Format::V2)
}
