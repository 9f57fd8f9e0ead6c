#![tactic(auto)]
//! Makes one put on a leaf of twelve entries and stops after so many steps, which its argument says. Two runs that differ
//! by one step differ by the instructions of that step; `bench/steps` measures them so.

use anyhow::Context;
use index::Index;
use memory::{Memory, WordMemory};
use order::{NumberOrder, Order};
use std::env;

/// Steps of a put that replaces a value in a leaf at the root.
const PUT: u64 = 67;

/// Makes so many steps of a seat: how many were accepted.
fn drive<M: Memory, O: Order>(index: &mut Index<M, O>, seat: u64, steps: u64) -> usize {
    (0..steps)
        .map(|_| index.step(seat))
        .filter(|answer| answer.is_ok())
        .count()
}

/// Stores twelve keys in a leaf that holds thirteen, begins to put one of them again, and makes so many steps.
fn measured(steps: u64) -> usize {
    let mut words = [0u64; 4096];
    let mut index = Index::new(WordMemory::new(&mut words), NumberOrder);
    let _ = index.format(13);
    for i in 0..12 {
        let _ = index.begin_put(3, 10 * i, i);
        let _ = drive(&mut index, 3, PUT);
    }
    let _ = index.begin_put(3, 0, 12);
    drive(&mut index, 3, steps)
}

fn run(rt: &HostRuntime) -> anyhow::Result<()> {
    let args: Vec<String> = env::args(rt)?.skip(1).collect(rt.alloc())?;
    let text = args.first().context("the number of steps is missing")?;
    let accepted = measured(text.parse::<u64>()?.min(PUT));
    println!(rt; "{accepted} steps accepted")?;
    Ok(())
}

fn main(rt: HostRuntime) -> anyhow::Result<()> {
    run(&rt)
}
