// The job on a reader, as `samrows` does it with its standard input and `samrows_cases` with each of its files: the input is read and
// its text made, which the program then writes. No contract can say which bytes a reader gives; that what is made of them is the
// job's text of some input is `read_job`'s.
#![tactic(auto)]

ghost use Rattle.std.specs.Prelude.{◌≡◌, true, ◌≤◌, length, IfOk, OnErr};
ghost use Rattle.rules.specs.Job.{most_input};
ghost use Rattle.job.specs.Written.{Holds};
ghost use Rattle.job_file.specs.Read.{text_of, OfSomeInput};

use std::io;
use std::io::Read;

// Reads until the array is full or the input ends: how many bytes that are.
fn read_full<R: Read>(from: &mut R, buf: &mut [u8]) -> io::Result<usize>
    ensures { IfOk result (λ n. n ≤ length buf.new) }
{
    let mut done: usize = 0;
    while done < buf.len() {
        let n = from.read(&mut buf[done..])?;
        if n == 0 {
            break;
        }
        done += n;
    }
    Ok(done)
}

// Whether the input goes on after the n bytes read: where they fill the array, one more byte is asked for.
fn goes_on<R: Read>(from: &mut R, n: usize) -> io::Result<bool>
    ensures { IfOk result (λ more. more ≡ true → most_input ≤ n) }
{
    if n < job::INPUT {
        return Ok(false);
    }
    let mut more = [0u8; 1];
    Ok(0 < read_full(from, &mut more)?)
}

// The text of an input of which these bytes were read, and which goes on after them or not.
fn put_text(read: &[u8], more: bool, text: &mut [u8; job::TEXT]) -> usize
    ensures { Holds text.old (text_of read.now more) text.new result }
{
    if more {
        return job::run_longer(text);
    }
    job::run(read, text)
}

// Reads a job, and makes its text in the array lent; how long it is. Which input it was is left open, as the reader leaves it;
// whichever it was, the text is that input's, whole. The only error is the reader's own, and leaves the array as it was.
pub fn read_job<R: Read>(from: &mut R, text: &mut [u8; job::TEXT]) -> io::Result<usize>
    ensures done { IfOk result (λ count. OfSomeInput text.old text.new count) }
    ensures failed { OnErr result (text.new ≡ text.old) }
{
    let mut input = [0u8; job::INPUT];
    let n = read_full(from, &mut input)?;
    let more = goes_on(from, n)?;
    Ok(put_text(&input[..n], more, text))
}
