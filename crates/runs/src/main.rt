#![tactic(auto)]
//! Fills an index with keys and works one seat on it, for measuring: two runs that differ in one number of their arguments
//! differ by the instructions of what it stands for. A program in plain Rust makes the same runs; `bench/compare` runs both.
//!
//!   runs CELLS KEYS KIND TIMES STEPS

mod request;

use anyhow::Context;
use index::Index;
use memory::{Memory, WordMemory};
use order::{NumberOrder, Order};
use request::{Kind, Request};
use rules::{Report, Told};
use std::env;

/// The most entries of a node.
const FAN: u64 = 13;

/// The seat that works.
const SEAT: u64 = 3;

/// The value of every key.
const VALUE: u64 = 7;

/// More steps than any operation of one seat takes.
const ALL: u16 = 10_000;

/// How many steps were made, and how the last operation ended if it did.
#[derive(Clone, Copy, Default)]
struct Made {
    steps: u64,
    end: Option<Report>,
}

impl Made {
    fn new(steps: u16, end: Option<Report>) -> Made {
        let steps = u64::from(steps);
        Made { steps, end }
    }

    /// These steps and more after them, if they can be counted.
    fn then(self, more: Made) -> Option<Made> {
        let steps = self.steps.checked_add(more.steps)?;
        Some(Made { steps, ..more })
    }
}

/// Makes steps of the seat, so many at most, until its operation ends.
// stays a loop of its own: it is measured, and keeps of a step only whether it ends
fn drive<M: Memory, O: Order>(index: &mut Index<M, O>, steps: u16) -> Made {
    for made in 0..steps {
        match index.step(SEAT) {
            Ok(report) if report.ends() => return Made::new(made + 1, Some(report)),
            Ok(_) => {}
            Err(_) => return Made::new(made, None),
        }
    }
    Made::new(steps, None)
}

/// The key of an operation: the present ones in turn, by a stride that meets them all.
fn key_of(turn: u16, keys: u16) -> u64 {
    10 * (1 + u64::from(turn) * 7919 % u64::from(keys.max(1)))
}

/// Begins an operation, and makes so many steps of it at most.
fn work<M: Memory, O: Order>(index: &mut Index<M, O>, kind: Kind, key: u64, steps: u16) -> Made {
    let begun = match kind {
        Kind::Find => index.begin_find(SEAT, key),
        Kind::Put => index.begin_put(SEAT, key, VALUE),
        Kind::New => index.begin_put(SEAT, key ^ 1, VALUE),
    };
    match begun {
        Ok(_) => drive(index, steps),
        Err(_) => Made::default(),
    }
}

/// Fills the index and works the seat as asked, all steps counted, and the end of the last operation asked for.
fn measured<M: Memory, O: Order>(index: &mut Index<M, O>, request: &Request) -> Option<Made> {
    let filled = (0..request.keys).try_fold(Made::default(), |done, i| {
        let key = 10 * (1 + u64::from(i));
        done.then(work(index, Kind::Put, key, ALL))
    })?;
    let begun = Made {
        end: None,
        ..filled
    };
    (0..request.times).try_fold(begun, |done, turn| {
        let key = key_of(turn, request.keys);
        done.then(work(index, request.kind, key, request.steps))
    })
}

fn run(rt: &HostRuntime) -> anyhow::Result<()> {
    let heap = rt.alloc();
    let args: Vec<String> = env::args(rt)?.skip(1).collect(heap)?;
    let request = Request::from_args(args.as_slice())?;
    let mut words = vec![in heap; 0u64; usize::from(request.cells)]?;
    let mut index = Index::new(WordMemory::new(words.as_mut_slice()), NumberOrder);
    let _ = index.format(FAN);
    let made = measured(&mut index, &request).context("more steps than can be counted")?;
    let steps = made.steps;
    let Told { number, word, .. } = made.end.map(Told::from).unwrap_or_default();
    println!(rt; "{steps} steps, report {number} {word}")?;
    Ok(())
}

fn main(rt: HostRuntime) -> anyhow::Result<()> {
    run(&rt)
}
