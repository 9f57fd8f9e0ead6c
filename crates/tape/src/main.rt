#![tactic(auto)]
//! Works a tape, read on standard input, on an index, and prints a line for each record.

mod fault;
mod line;
mod player;
mod program;
mod reader;

use player::LONGEST;
use program::printed;
use std::io::Read;
use std::process::ExitCode;

fn run(rt: &HostRuntime) -> anyhow::Result<()> {
    let heap = rt.alloc();
    let mut tape = Vec::new(heap);
    // one byte past the longest tape tells that a tape is too long
    rt.stdin().take(LONGEST as u64 + 1).read_to_end(&mut tape)?;
    let text = printed(heap, tape.as_slice())?;
    rt.print(text)?;
    Ok(())
}

// stays as in the other program with a message of its own: a crate for the two would be longer than these lines
fn main(rt: HostRuntime) -> ExitCode {
    match run(&rt) {
        Ok(()) => ExitCode::SUCCESS,
        Err(error) => {
            let _ = eprintln!(rt; "tape: {error}");
            ExitCode::FAILURE
        }
    }
}

#[cfg(test)]
mod tests;
