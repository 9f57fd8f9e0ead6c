ghost use Rattle.std.specs.Prelude.{◌≡◌, ◌<◌, ◌≤◌, min, ◌++◌, length, IfOk, IfErr};
ghost use Rattle.memory.specs.declared.fault.Fault.TheVariants.{NoCell};
ghost use Rattle.memory.specs.Bounds.{bounded_joined};
ghost use Rattle.memory.specs.Joined.{placed};
ghost use Rattle.memory.specs.Meaning.{pair};
ghost use Rattle.memory.specs.Row.{front, beyond};

use super::{Fault, LONGEST, Memory};

/// Two memories as one: the first one's cells and then the second's, up to 65,536. Its top word is the smaller of
/// both.
#[derive(Drop)]
pub struct Joined<A, B> {
    first: A,
    second: B,
}

impl<A: Memory, B: Memory> Joined<A, B> {
    /// The two memories, one after the other.
    pub fn new(first: A, second: B) -> Joined<A, B>
        ensures { (result.first ≡ first) × (result.second ≡ second) }
    {
        Joined { first, second }
    }

    /// Hands both memories back.
    pub fn into_parts(self) -> (A, B)
        ensures { (result.0 ≡ self.first) × (result.1 ≡ self.second) }
    {
        let Joined { first, second } = self;
        (first, second)
    }
}

/// In which of the two memories a cell lies, and which cell it is there.
#[derive(Clone, Copy)]
enum Place {
    /// This cell of the first one.
    First(u64),
    /// This cell of the second one.
    Second(u64),
}

impl<A: Memory, B: Memory> Joined<A, B> {
    /// Where a cell lies, if the joined row has it.
    fn place(&self, cell: u64) -> Result<Place, Fault>
        ensures ok { IfOk result (λ at. (at ≡ placed (length (A.Memory.cells self.now.first)) cell) × (cell < length (front (A.Memory.cells self.now.first ++ B.Memory.cells self.now.second)))) }
        ensures err { IfErr result (λ e. (e ≡ NoCell) × (length (front (A.Memory.cells self.now.first ++ B.Memory.cells self.now.second)) ≤ cell)) }
    {
        if cell >= self.length() {
            return Err(Fault::NoCell);
        }
        Ok(match cell.checked_sub(self.first.length()) {
            None => Place::First(cell),
            Some(at) => Place::Second(at),
        })
    }
}

impl<A: Memory, B: Memory> Memory for Joined<A, B> {
    ghost cells = { λ j. front (A.Memory.cells j.first ++ B.Memory.cells j.second) };

    ghost top = { λ j. min (A.Memory.top j.first) (B.Memory.top j.second) };

    ghost bounded = { λ j. bounded_joined _ _ _ _ (A.Memory.bounded j.first) (B.Memory.bounded j.second) };

    ghost outside = { λ j. pair (length (A.Memory.cells j.first)) (beyond (A.Memory.cells j.first ++ B.Memory.cells j.second)) (A.Memory.outside j.first) (B.Memory.outside j.second) };

    #[tactic(auto, using(crate::proofs::Joining::length_both))]
    fn length(&self) -> u64 {
        (self.first.length() + self.second.length()).min(LONGEST)
    }

    fn top_word(&self) -> u64 {
        self.first.top_word().min(self.second.top_word())
    }

    #[tactic(auto, using(crate::proofs::Joining::read_first, crate::proofs::Joining::read_second))]
    fn read(&self, cell: u64) -> Result<u64, Fault> {
        match self.place(cell)? {
            Place::First(at) => self.first.read(at),
            Place::Second(at) => self.second.read(at),
        }
    }

    // a hint for memories that are joined again
    #[inline]
    #[tactic(auto, using(crate::proofs::Joining::write_first_row, crate::proofs::Joining::write_second_answer, crate::proofs::Joining::write_second_row))]
    fn write(&mut self, cell: u64, word: u64) -> Result<(), Fault> {
        let place = self.place(cell)?;
        if word > self.top_word() {
            return Err(Fault::TooWide);
        }
        match place {
            Place::First(at) => self.first.write(at, word),
            Place::Second(at) => self.second.write(at, word),
        }
    }
}
