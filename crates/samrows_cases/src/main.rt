// Runs each file that the arguments name as `samrows` runs its standard input, and writes the texts one after another. A file that
// can't be read is told on standard error, and the next one follows.
#![tactic(auto)]

use std::fs::File;
use std::io::Write;
use std::{env, io};

fn main(rt: HostRuntime) -> io::Result<()> {
    for path in env::args(&rt)?.skip(1) {
        run_file(&rt, path.as_str())?;
    }
    Ok(())
}

// The job in the file of a name.
fn run_file(rt: &HostRuntime, path: &str) -> io::Result<()> {
    match File::open(rt, path) {
        Ok(file) => write_text(rt, path, file),
        Err(error) => eprintln!(rt; "{path}: {error}"),
    }
}

// The text of the job in an open file.
fn write_text(rt: &HostRuntime, path: &str, mut file: File) -> io::Result<()> {
    let mut text = [0u8; job::TEXT];
    match job_file::read_job(&mut file, &mut text) {
        Ok(count) => rt.stdout().write_all(&text[..count]),
        Err(error) => eprintln!(rt; "{path}: {error}"),
    }
}
