// Packed by an outside optimiser.
ghost use Rattle.write_packed.specs.Proposal.{proposal, Yields};

use rules::Answer;

// Takes a proposal or refuses it: 1, 3, 9, 17 to 19 and 21 change nothing; then the scratch holds the decoded frame, and 20 may come.
#[unsafe(no_mangle)]
pub extern "C" fn razvolk_check_packed(
    src: &[u8],
    offsets: &[u32],
    width: usize,
    height: usize,
    meant: &[u16],
    scratch: &mut [u16],
) -> Answer
    ensures { Yields (proposal src.now offsets.now width height meant.now)
        scratch.old result scratch.new }
{
    entry_convert::check_packed(src, offsets, width, height, meant, scratch)
}
