// V0 into V2.
ghost use Rattle.entry_convert.specs.Convert.{call, Yields};

use entry_convert::v0_to_v2;
use write_rules::Written;

#[unsafe(no_mangle)]
pub extern "C" fn razvolk_v0_to_v2(
    src: &[u8],
    offsets: &[u32],
    width: usize,
    height: usize,
    samples: &mut [u16],
    map: &mut [u8],
    stream: &mut [u8],
) -> Written
    ensures { Yields (call src.now offsets.now width height samples.old map.old stream.old)
        result samples.new map.new stream.new }
{
    v0_to_v2(src, offsets, width, height, samples, map, stream)
}
