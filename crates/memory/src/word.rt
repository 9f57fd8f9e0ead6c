ghost use Rattle.std.specs.Prelude.{◌≡◌, ◌<◌, ◌≤◌, length, IfOk, IfErr};
ghost use Rattle.memory.specs.declared.fault.Fault.TheVariants.{NoCell};
ghost use Rattle.memory.specs.Bounds.{bounded_words};
ghost use Rattle.memory.specs.Meaning.{lent};
ghost use Rattle.memory.specs.Row.{front, beyond};

use super::{Fault, LONGEST, Memory};

/// A memory over the caller's numbers, one a cell. Its top word is 2^64 − 1. Numbers past the 65,536th are never
/// touched.
#[derive(Drop)]
pub struct WordMemory<'a> {
    words: &'a mut [u64],
}

impl<'a> WordMemory<'a> {
    /// A memory over these numbers.
    pub fn new(words: &'a mut [u64]) -> WordMemory<'a>
        ensures { result.words ≡ words.entry }
    {
        WordMemory { words }
    }

    /// Hands the numbers back.
    pub fn into_words(self) -> &'a mut [u64]
        ensures { result.now ≡ self.entry.words.now }
    {
        let WordMemory { words } = self;
        words
    }
}

impl WordMemory<'_> {
    /// The index of a cell's number, if the row has the cell.
    #[tactic(auto, using(crate::proofs::Words::length_front))]
    fn place(&self, cell: u64) -> Result<usize, Fault>
        ensures ok { IfOk result (λ at. (at ≡ cell) × (cell < length (front self.now.words.now))) }
        ensures err { IfErr result (λ e. (e ≡ NoCell) × (length (front self.now.words.now) ≤ cell)) }
    {
        if cell < LONGEST && cell < self.words.len() as u64 {
            Ok(cell as usize)
        } else {
            Err(Fault::NoCell)
        }
    }
}

impl Memory for WordMemory<'_> {
    ghost cells = { λ m. front m.words.now };

    ghost top = { λ _. 18446744073709551615 };

    ghost bounded = { λ m. bounded_words m.words.now };

    ghost outside = { λ m. lent m.words.ghost_name (beyond m.words.now) };

    #[tactic(auto, using(crate::proofs::Words::length_front))]
    fn length(&self) -> u64 {
        (self.words.len() as u64).min(LONGEST)
    }

    fn top_word(&self) -> u64 {
        u64::MAX
    }

    #[tactic(auto, using(crate::proofs::Words::length_front, crate::proofs::Words::get_or_front))]
    fn read(&self, cell: u64) -> Result<u64, Fault> {
        let at = self.place(cell)?;
        Ok(self.words[at])
    }

    #[tactic(auto, using(crate::proofs::Words::length_front, crate::proofs::Words::set_front, crate::proofs::Words::set_beyond))]
    fn write(&mut self, cell: u64, word: u64) -> Result<(), Fault> {
        let at = self.place(cell)?;
        self.words[at] = word;
        Ok(())
    }
}
