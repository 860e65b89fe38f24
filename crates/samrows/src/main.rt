// `samrows`: reads a job from standard input, and writes its text to standard output (docs/RULES.md, "The job program").
#![tactic(auto)]

use std::io;
use std::io::Write;

fn main(rt: HostRuntime) -> io::Result<()> {
    let mut text = [0u8; job::TEXT];
    let count = job_file::read_job(&mut rt.stdin(), &mut text)?;
    rt.stdout().write_all(&text[..count])
}
