//! One trial: the calls of a scenario on one index.

use super::random::Random;
use super::scenario::{Mode, Scenario};
use super::space::{Space, seat_of};
use super::tally::Tally;
use index::Index;
use memory::Memory;
use order::Order;
use rules::{Refusal, Report};

/// Rounds of `worn` that leave a lock word in two-byte cells nearly worn out.
const TIRED: u64 = 32_760;

/// What a call answers.
type Answer = Result<Report, Refusal>;

/// A trial under way.
#[derive(Drop)]
struct Trial<M: Memory, O: Order> {
    index: Index<M, O>,
    tally: Tally,
    random: Random,
    space: Space,
    fan: u64,
}

/// What a round draws: a number each for its call, its key and its value.
#[derive(Clone, Copy)]
struct Draw {
    call: u64,
    key: u64,
    value: u64,
}

impl Draw {
    /// Which call the round makes, below 1024.
    fn kind(self) -> u64 {
        self.call & 1023
    }

    fn seat(self) -> u64 {
        seat_of(self.call)
    }

    /// How many steps follow the call in a burst, at most.
    fn most(self) -> u64 {
        if (self.call >> 32) & 3 == 0 {
            (self.call >> 34) & 255
        } else {
            1000
        }
    }
}

impl<M: Memory, O: Order> Trial<M, O> {
    /// Makes a call, and notes its answer: whether that is neither an ending nor a refusal.
    fn call<F: FnOnce(&mut Index<M, O>) -> Answer>(&mut self, call: F) -> bool
        requires { F.IsAlwaysCallable call }
    {
        let answer = call(&mut self.index);
        self.tally.note(answer);
        matches!(answer, Ok(report) if !report.ends())
    }

    /// Makes a step.
    // one place for all steps: the compiler then makes the step there, and passes no answer through memory
    fn step(&mut self, seat: u64) -> bool {
        self.call(|index| index.step(seat))
    }

    /// The calls that every scenario starts with.
    fn open(&mut self) {
        let fan = self.fan;
        let _ = self.call(|index| index.begin_find(0, 0));
        let _ = self.call(|index| index.begin_put(7, 0, 0));
        let _ = self.step(0);
        let _ = self.call(|index| index.abandon(8));
        let _ = self.call(|index| index.format(2));
        let _ = self.call(|index| index.format(14));
        let _ = self.call(|index| index.format(fan));
    }

    /// Steps a seat until so many steps were made, or one answers an ending or a refusal.
    // stays a loop of its own, as in each program that drives a seat: each notes, counts or prints something else of a step
    fn drive(&mut self, seat: u64, most: u64) {
        for _ in 0..most {
            if !self.step(seat) {
                return;
            }
        }
    }

    /// The three draws of a round.
    fn draw(&mut self) -> Draw {
        Draw {
            call: self.random.draw(),
            key: self.random.draw(),
            value: self.random.draw(),
        }
    }

    /// Begins the find of a round.
    // keys and values are worked out where a round needs them: in `mixed` few do
    fn begin_find(&mut self, draw: Draw) -> bool {
        let key = self.space.key_of(draw.key);
        self.call(|index| index.begin_find(draw.seat(), key))
    }

    /// Begins the put of a round.
    fn begin_put(&mut self, draw: Draw) -> bool {
        let key = self.space.key_of(draw.key);
        let value = self.space.value_of(draw.value);
        self.call(|index| index.begin_put(draw.seat(), key, value))
    }

    /// One call, drawn.
    fn mixed(&mut self) {
        let fan = self.fan;
        let draw = self.draw();
        let _ = match draw.kind() {
            0..=11 => self.begin_find(draw),
            12..=43 => self.begin_put(draw),
            44 => self.call(|index| index.abandon(draw.seat())),
            45 => self.call(|index| index.format(fan)),
            _ => self.step(draw.seat()),
        };
    }

    /// One call, drawn, and then steps of its seat.
    fn burst(&mut self) {
        let fan = self.fan;
        let draw = self.draw();
        let _ = match draw.kind() {
            0..=15 => self.call(|index| index.abandon(draw.seat())),
            16..=17 => self.call(|index| index.format(fan)),
            18..=199 => self.begin_find(draw),
            _ => self.begin_put(draw),
        };
        self.drive(draw.seat(), draw.most());
    }

    /// A put from begin to end on seat 0.
    fn worn(&mut self, round: u64) {
        let key = self.space.key_in(round);
        let value = round & self.space.top;
        let _ = self.call(|index| index.begin_put(0, key, value));
        self.drive(0, 1000);
    }

    /// The rounds of a scenario.
    fn play(&mut self, mode: Mode, rounds: u64) {
        if let Mode::Tired = mode {
            for round in 0..TIRED {
                self.worn(round);
            }
        }
        for round in 0..rounds {
            // stays a match: a mode is a word of the input, and each round's call differs
            match mode {
                Mode::Mixed | Mode::Tired => self.mixed(),
                Mode::Burst => self.burst(),
                Mode::Worn => self.worn(round),
            }
        }
    }
}

/// Runs a scenario over a memory and in an order: what its calls answered, and the cells at the end.
pub(crate) fn run_trial<M: Memory + Drop, O: Order + Drop>(
    memory: M,
    order: O,
    scenario: &Scenario,
) -> Tally {
    let space = Space {
        order: scenario.order,
        keys: scenario.keys,
        top: memory.top_word(),
    };
    let mut trial = Trial {
        index: Index::new(memory, order),
        tally: Tally::default(),
        random: Random::new(scenario.seed),
        space,
        fan: scenario.fan,
    };
    trial.open();
    trial.play(scenario.mode, scenario.rounds);
    let Trial {
        index,
        mut tally,
        ..
    } = trial;
    let memory = index.into_memory();
    // a memory gives its words by the numbers of cells alone
    for cell in 0..memory.length() {
        tally.note_cell(memory.read(cell).unwrap_or(0));
    }
    tally
}
