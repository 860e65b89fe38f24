// The fields of a job's input.
ghost use Rattle.std.specs.Prelude.{◌&&◌, ◌≡◌, ◌+◌, ◌*◌, ◌≤◌, ◌<◌, length, take};
ghost use Rattle.rules.specs.Job.{half_word_at};
ghost use Rattle.rules.specs.Job.{marked as Job·marked};
ghost use Rattle.job.specs.Fields.{offsets_of};

use read_bits::Bits;

// The number of the two bytes from `at` on, lowest first.
pub(crate) fn half_word(input: &[u8], at: usize) -> usize
    requires { at + 2 ≤ length input.now }
    ensures answered { result ≡ half_word_at input.now at }
    ensures small { result < 65_536 }
{
    usize::from(input[at]) + usize::from(input[at + 1]) * 256
}

// The mark "SMR", and after it version 1.
pub(crate) fn marked(input: &[u8]) -> bool
    requires { 9 ≤ length input.now }
    ensures { result ≡ Job·marked input.now }
{
    input[0] == b'S' && input[1] == b'M' && input[2] == b'R' && half_word(input, 3) == 1
}

// The offsets of `height` rows, a word each from byte 9 on.
pub(crate) fn read_offsets(input: &[u8], offsets: &mut [u32], height: usize)
    requires { (9 + 4 * height ≤ length input.now) × (height ≤ length offsets.old) }
    ensures { take height offsets.new ≡ offsets_of input.now height }
{
    for row in 0..height {
        let at = 9 + 4 * row;
        offsets[row] = read_bits::fetch(input, at as u64).unwrap_or(Bits::FILLER);
    }
}
