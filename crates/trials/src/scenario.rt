//! What a line of the input asks for.

use memory::Width;
use std::num::NonZeroU64;

/// What cells are made of.
#[derive(Clone, Copy)]
pub(crate) enum Bank {
    /// Words of 64 bits.
    Words,
    /// Bytes, so many to a cell.
    Bytes(Width),
}

/// What the index lies over.
#[derive(Clone, Copy)]
pub(crate) enum MemoryKind {
    /// Cells of one kind.
    One(Bank),
    /// Half of the cells of one kind, and after them the others of another.
    Two(Bank, Bank),
}

/// In which order the keys are.
#[derive(Clone, Copy)]
pub(crate) enum OrderKind {
    Number,
    Lane,
    Label,
}

/// How the calls are drawn.
#[derive(Clone, Copy)]
pub(crate) enum Mode {
    /// Single calls, cut at any access.
    Mixed,
    /// One seat driven at a time.
    Burst,
    /// One seat that puts the same keys over and over.
    Worn,
    /// Nearly worn out, then mixed.
    Tired,
}

/// A trial to run.
#[derive(Clone, Copy)]
pub(crate) struct Scenario {
    pub memory: MemoryKind,
    pub order: OrderKind,
    pub fan: u64,
    pub cells: u64,
    pub seed: u64,
    pub rounds: u64,
    pub keys: NonZeroU64,
    pub mode: Mode,
}

/// That a word is none that a scenario has in its place, or a line no scenario.
#[derive(Clone, Copy)]
pub(crate) struct Bad;

impl TryFrom<&[u8]> for MemoryKind {
    type Error = Bad;

    fn try_from(word: &[u8]) -> Result<MemoryKind, Bad> {
        match word {
            b"word" => Ok(MemoryKind::One(Bank::Words)),
            b"byte2" => Ok(MemoryKind::One(Bank::Bytes(Width::Two))),
            b"byte4" => Ok(MemoryKind::One(Bank::Bytes(Width::Four))),
            b"byte8" => Ok(MemoryKind::One(Bank::Bytes(Width::Eight))),
            b"word+byte2" => Ok(MemoryKind::Two(Bank::Words, Bank::Bytes(Width::Two))),
            b"byte4+word" => Ok(MemoryKind::Two(Bank::Bytes(Width::Four), Bank::Words)),
            b"byte2+byte8" => Ok(MemoryKind::Two(
                Bank::Bytes(Width::Two),
                Bank::Bytes(Width::Eight),
            )),
            _ => Err(Bad),
        }
    }
}

impl TryFrom<&[u8]> for OrderKind {
    type Error = Bad;

    fn try_from(word: &[u8]) -> Result<OrderKind, Bad> {
        match word {
            b"number" => Ok(OrderKind::Number),
            b"lane" => Ok(OrderKind::Lane),
            b"label" => Ok(OrderKind::Label),
            _ => Err(Bad),
        }
    }
}

impl TryFrom<&[u8]> for Mode {
    type Error = Bad;

    fn try_from(word: &[u8]) -> Result<Mode, Bad> {
        match word {
            b"mixed" => Ok(Mode::Mixed),
            b"burst" => Ok(Mode::Burst),
            b"worn" => Ok(Mode::Worn),
            b"tired" => Ok(Mode::Tired),
            _ => Err(Bad),
        }
    }
}

/// The number of one to eighteen digits that a word is.
fn number(word: &[u8]) -> Result<u64, Bad> {
    if word.is_empty() || word.len() > 18 {
        return Err(Bad);
    }
    word.iter()
        .try_fold(0u64, |number, byte| {
            let digit = char::from(*byte).to_digit(10)?;
            number.checked_mul(10)?.checked_add(u64::from(digit))
        })
        .ok_or(Bad)
}

impl TryFrom<&[u8]> for Scenario {
    type Error = Bad;

    /// The scenario of a line. Its words are the longest runs of bytes above 32.
    fn try_from(line: &[u8]) -> Result<Scenario, Bad> {
        let mut words = line
            .split(|byte| *byte <= b' ')
            .filter(|word| !word.is_empty());
        let mut next = || words.next().ok_or(Bad);
        let scenario = Scenario {
            memory: MemoryKind::try_from(next()?)?,
            order: OrderKind::try_from(next()?)?,
            fan: number(next()?)?,
            cells: number(next()?)?,
            seed: number(next()?)?,
            rounds: number(next()?)?,
            keys: NonZeroU64::new(number(next()?)?).ok_or(Bad)?,
            mode: Mode::try_from(next()?)?,
        };
        if scenario.cells > 65_536 || words.next().is_some() {
            return Err(Bad);
        }
        Ok(scenario)
    }
}
