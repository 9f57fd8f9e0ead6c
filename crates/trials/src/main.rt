#![tactic(auto)]
//! Runs trials: many calls on one index, drawn by a fixed generator, for each scenario on standard input; prints how often
//! each number was answered, and a digest of every answer and of all cells at the end. A second program that shares no
//! code with this one prints what this one must print.

mod digest;
mod kinds;
mod random;
mod scenario;
mod space;
mod tally;
mod trial;

use kinds::run_scenario;
use scenario::Scenario;
use std::alloc::Global;
use std::io::{Read, Write};

/// Whether a line has no word, or begins with a remark.
fn is_skipped(line: &[u8]) -> bool {
    line.iter()
        .find(|byte| **byte > b' ')
        .is_none_or(|byte| *byte == b'#')
}

/// The line that a scenario prints.
fn answer(heap: Global, number: u64, line: &[u8]) -> anyhow::Result<String> {
    let Ok(scenario) = Scenario::try_from(line) else {
        return Ok(format!(in heap; "{number} bad\n")?);
    };
    let tally = run_scenario(heap, &scenario)?;
    Ok(format!(in heap; "{number}{tally}\n")?)
}

fn run(rt: &HostRuntime) -> anyhow::Result<()> {
    let heap = rt.alloc();
    let mut input = Vec::new(heap);
    rt.stdin().read_to_end(&mut input)?;
    let lines = input.as_slice().split(|byte| *byte == b'\n');
    for (line, number) in lines.filter(|line| !is_skipped(line)).zip(1u64..) {
        rt.print(answer(heap, number, line)?)?;
    }
    Ok(())
}

fn main(rt: HostRuntime) -> anyhow::Result<()> {
    run(&rt)
}
