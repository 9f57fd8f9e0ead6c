//! The memory and the order of a scenario.

use super::scenario::{Bank, MemoryKind, OrderKind, Scenario};
use super::tally::Tally;
use super::trial::run_trial;
use memory::{ByteMemory, Joined, Memory, WordMemory};
use order::{LabelOrder, LaneOrder, NumberOrder};
use std::alloc::{AllocError, Global};

/// What every byte of a memory is before the first call.
const FILLED: u8 = 0xA5;

/// What runs on a memory, whichever it is.
trait Run {
    fn on<M: Memory + Drop>(self, memory: M) -> Result<Tally, AllocError>;
}

impl Bank {
    /// Runs on a new memory of so many cells of this kind.
    fn run<R: Run + Drop>(self, heap: Global, cells: u64, run: R) -> Result<Tally, AllocError> {
        match self {
            Bank::Words => {
                let mut words = vec![in heap; u64::from_le_bytes([FILLED; 8]); cells as usize]?;
                run.on(WordMemory::new(words.as_mut_slice()))
            }
            Bank::Bytes(width) => {
                let len = cells.saturating_mul(width.bytes()) as usize;
                let mut bytes = vec![in heap; FILLED; len]?;
                run.on(ByteMemory::new(bytes.as_mut_slice(), width))
            }
        }
    }
}

/// A scenario alone, over the memory that it is given.
#[derive(Clone, Copy)]
struct Alone<'a>(&'a Scenario);

impl Run for Alone<'_> {
    fn on<M: Memory + Drop>(self, memory: M) -> Result<Tally, AllocError> {
        let Alone(scenario) = self;
        Ok(match scenario.order {
            OrderKind::Number => run_trial(memory, NumberOrder, scenario),
            OrderKind::Lane => run_trial(memory, LaneOrder, scenario),
            OrderKind::Label => run_trial(memory, LabelOrder, scenario),
        })
    }
}

/// A scenario over the memory that it is given, joined with so many cells of a kind.
#[derive(Clone, Copy)]
struct Before<'a> {
    heap: Global,
    second: Bank,
    cells: u64,
    scenario: &'a Scenario,
}

impl Run for Before<'_> {
    fn on<M: Memory + Drop>(self, first: M) -> Result<Tally, AllocError> {
        let scenario = self.scenario;
        self.second
            .run(self.heap, self.cells, After { first, scenario })
    }
}

/// A scenario over a memory joined with the one that it is given.
#[derive(Drop)]
struct After<'a, M> {
    first: M,
    scenario: &'a Scenario,
}

impl<M: Memory + Drop> Run for After<'_, M> {
    fn on<N: Memory + Drop>(self, second: N) -> Result<Tally, AllocError> {
        let After { first, scenario } = self;
        Alone(scenario).on(Joined::new(first, second))
    }
}

/// Runs a scenario: what its calls answered.
pub(crate) fn run_scenario(heap: Global, scenario: &Scenario) -> Result<Tally, AllocError> {
    match scenario.memory {
        MemoryKind::One(bank) => bank.run(heap, scenario.cells, Alone(scenario)),
        MemoryKind::Two(first, second) => {
            let half = scenario.cells / 2;
            let cells = scenario.cells - half;
            first.run(
                heap,
                half,
                Before {
                    heap,
                    second,
                    cells,
                    scenario,
                },
            )
        }
    }
}
