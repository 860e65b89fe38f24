// V0 into V2: decoding with the map, then the V2 writer.
ghost use Rattle.std.specs.Prelude.{◌≡◌, ◌*◌, ◌%◌, length};
ghost use Rattle.entry_convert.specs.Convert.{any_marked, Frame, late_answer, late_stream, call, Yields};

use entry_refusals::{is_too_small, refuse};
use frame_map::greatest_of;
use rules::{Refusal, Size, V2Row};
use samsung::decode_v0_reference_map;
use write_frame::measure::v2_length;
use write_frame::write::write_v2;
use write_rules::{Written, is_too_bright};

// 16: a map byte is not 0.
fn is_marked(map: &[u8]) -> bool
    ensures { result ≡ any_marked map.now }
{
    0 < greatest_of(map)
}

// Writes a decoded frame as V2. Refusals 16, 9 and 10, which change nothing.
fn write_decoded(samples: &[u16], map: &[u8], size: Size, stream: &mut [u8]) -> Written
    requires { Frame size.width size.height samples.now }
    ensures answered { result ≡ late_answer size.width size.height samples.now map.now (length stream.old) }
    ensures stream { stream.new ≡ late_stream size.width size.height samples.now map.now stream.old }
{
    if is_marked(map) {
        return Written::from(Refusal::Marked);
    }
    if is_too_bright(samples) {
        return Written::from(Refusal::TooBright);
    }
    let length = v2_length(samples, size);
    if stream.len() < length {
        return Written::from(Refusal::ShortOutput);
    }
    write_v2(stream, samples, size);
    Written::done(length as u64)
}

// Decodes a V0 frame into the lent samples and map, and writes it as V2. Refusals 1 to 4 and 15 change nothing; then the frame is
// decoded; 16, 9 and 10 leave the stream as it was.
pub fn v0_to_v2(
    src: &[u8],
    offsets: &[u32],
    width: usize,
    height: usize,
    samples: &mut [u16],
    map: &mut [u8],
    stream: &mut [u8],
) -> Written
    ensures { Yields (call src.now offsets.now width height samples.old map.old stream.old)
        result samples.new map.new stream.new }
{
    let size = Size { width, height };
    let refused = refuse(
        size,
        is_too_small(size),
        samples.len(),
        Some(offsets.len()),
        Some(map.len()),
        None,
    );
    if let Err(refusal) = refused {
        return Written::from(refusal);
    }
    if width % V2Row::BLOCK != 0 {
        return Written::from(Refusal::BadWidth);
    }
    // The answer isn't needed: no refusal of this decoder is left, so that it is done, and where a word was missing the map tells
    // it (16).
    decode_v0_reference_map(src, offsets, width, height, samples, map);
    let n = width * height;
    write_decoded(&samples[..n], &map[..n], size, stream)
}
