//! How the tests drive an index.

use index::Index;
use memory::Memory;
use order::Order;
use rules::{Refusal, Report, Told};

/// The number of an answer.
// stays a number: what the tests expect of an answer are the numbers that users are told
pub(crate) fn number(answer: Result<Report, Refusal>) -> u64 {
    Told::from(answer).number
}

/// How a seat was stepped: the last answer's number and word, and how many steps were made.
#[derive(Clone, Copy, PartialEq, Eq, Debug)]
pub(crate) struct Walked {
    pub number: u64,
    pub word: u64,
    pub steps: u64,
}

impl Walked {
    pub(crate) fn new(number: u64, word: u64, steps: u64) -> Walked {
        Walked {
            number,
            word,
            steps,
        }
    }
}

/// Steps a seat, at most `most` times, until its operation ends or a step is refused.
// stays a loop of its own: what it keeps of a step no other program does
pub(crate) fn walk<M: Memory, O: Order>(index: &mut Index<M, O>, seat: u64, most: u64) -> Walked {
    let mut last = Told::default();
    for made in 0..most {
        let answer = index.step(seat);
        last = Told::from(answer);
        match answer {
            Ok(report) if !report.ends() => {}
            _ => return Walked::new(last.number, last.word, made + 1),
        }
    }
    Walked::new(last.number, last.word, most)
}

/// Steps a seat to the end of what it began. A refused begin has no steps.
fn finish<M: Memory, O: Order>(
    index: &mut Index<M, O>,
    seat: u64,
    begun: Result<Report, Refusal>,
) -> Walked {
    match begun {
        Ok(_) => walk(index, seat, 1000),
        Err(refusal) => Walked::new(refusal.number(), 0, 0),
    }
}

/// Puts a pair from seat 0 to its end.
pub(crate) fn put<M: Memory, O: Order>(index: &mut Index<M, O>, key: u64, value: u64) -> Walked {
    let begun = index.begin_put(0, key, value);
    finish(index, 0, begun)
}

/// Finds a key from seat 1 to its end.
pub(crate) fn find<M: Memory, O: Order>(index: &mut Index<M, O>, key: u64) -> Walked {
    let begun = index.begin_find(1, key);
    finish(index, 1, begun)
}
