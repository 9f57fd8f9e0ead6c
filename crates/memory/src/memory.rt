ghost use Rattle.std.specs.Prelude.{◌≡◌, ℕ, List, length, slice_index};
ghost use Rattle.memory.specs.Meaning.{Bounded, Outside};
ghost use Rattle.memory.specs.Row.{read_at, guarded, written, swapped};

use super::Fault;

/// The most cells that a memory has.
pub const LONGEST: u64 = 65536;

/// A row of cells that each hold a word, a whole number below 2^64, with a fixed length and a fixed top word.
/// A memory means the words of its row, `cells`, and its top word, `top`; `bounded` shows the bounds of both, and
/// `outside` is what lies outside the row and never changes. A cell may hold a word above the top word, as one of a
/// wide bank joined to a narrow one does; no call stores such a word.
pub trait Memory {
    ghost cells: { Self → List ℕ };

    ghost top: { Self → ℕ };

    ghost bounded: { (m : Self) → Bounded (cells m) (top m) };

    ghost outside: { Self → Outside };

    /// How many cells there are.
    fn length(&self) -> u64
        ensures { result ≡ length (cells self.now) };

    /// The highest word that a call stores.
    fn top_word(&self) -> u64
        ensures { result ≡ top self.now };

    /// The word that a cell holds.
    fn read(&self, cell: u64) -> Result<u64, Fault>
        ensures { result ≡ read_at (cells self.now) cell };

    /// Makes a cell hold a word, and leaves every other cell.
    fn write(&mut self, cell: u64, word: u64) -> Result<(), Fault>
        ensures answer { result ≡ guarded (cells self.old) (top self.old) cell word tt }
        ensures after { cells self.new ≡ written (cells self.old) (top self.old) cell word }
        ensures same { top self.new ≡ top self.old }
        ensures outside { outside self.new ≡ outside self.old };

    /// Tells the word that a cell held before, and stores the new one only if that was the expected one.
    fn swap(&mut self, cell: u64, expected: u64, word: u64) -> Result<u64, Fault>
        ensures answer { result ≡ guarded (cells self.old) (top self.old) cell word (slice_index (cells self.old) cell) }
        ensures after { cells self.new ≡ swapped (cells self.old) (top self.old) cell expected word }
        ensures same { top self.new ≡ top self.old }
        ensures outside { outside self.new ≡ outside self.old }
    {
        let held = self.read(cell)?;
        // stays written out, as in two memories: a function for one comparison is no shorter
        if word > self.top_word() {
            return Err(Fault::TooWide);
        }
        if held == expected {
            self.write(cell, word)?;
        }
        Ok(held)
    }
}
