#![tactic(auto)]
//! What lenders know of their own numbers and bytes after a memory over them was used: each public function lends
//! what it was given to a memory, works the memory, and tells by its contract what the caller then holds.

ghost use Rattle.std.specs.Prelude.{◌≡◌, length};
ghost use Rattle.lender.specs.Stored.{stored, stored_second, wiped, wiped_front};
ghost use Rattle.memory.specs.Bytes.{cells_of, rest_of, top_of};
ghost use Rattle.memory.specs.Row.{front, guarded, written};

use memory::{ByteMemory, Fault, Joined, Memory, Width, WordMemory};

/// Stores a word in the caller's numbers. The memory is let go at the end, and the caller's numbers are known then.
// stays one for each kind of memory: what the loan holds afterwards is said by the kind, not by `Memory`
#[tactic(auto, using(crate::proofs::Storing::stored_lent))]
pub fn store(words: &mut [u64], cell: u64, word: u64) -> Result<(), Fault>
    ensures answer { result ≡ guarded (front words.old) 18446744073709551615 cell word tt }
    ensures after { words.new ≡ stored words.old cell word }
{
    WordMemory::new(words).write(cell, word)
}

/// Stores a word in the caller's bytes. The memory is let go at the end, and the caller's bytes are known then: by the
/// words that they make, and byte for byte past the row.
pub fn store_in_bytes(bytes: &mut [u8], width: Width, cell: u64, word: u64) -> Result<(), Fault>
    ensures answer { result ≡ guarded (cells_of width bytes.old) (top_of width) cell word tt }
    ensures after { cells_of width bytes.new ≡ written (cells_of width bytes.old) (top_of width) cell word }
    ensures rest { rest_of width bytes.new ≡ rest_of width bytes.old }
{
    ByteMemory::new(bytes, width).write(cell, word)
}

/// Writes 0 to every cell of any memory.
// `same` and `outside` stay in each contract: they compare the two ends of a call, which no invariant of one value can
#[tactic(auto, using(crate::proofs::Storing::wiped_more, crate::proofs::Storing::wiped_all))]
pub fn wipe<M: Memory>(memory: &mut M)
    ensures after { M.cells memory.new ≡ wiped (M.cells memory.old) }
    ensures same { M.top memory.new ≡ M.top memory.old }
    ensures outside { M.outside memory.new ≡ M.outside memory.old }
{
    for cell in 0..memory.length() {
        let _ = memory.write(cell, 0);
    }
}

/// Writes 0 to the caller's numbers, by way of code that knows of the memory its meaning alone.
#[tactic(auto, using(crate::proofs::Storing::wiped_lent))]
pub fn wipe_words(words: &mut [u64])
    ensures { words.new ≡ wiped_front words.old }
{
    wipe(&mut WordMemory::new(words));
}

/// A client that holds a memory by value, as an index does.
#[derive(Drop)]
pub struct Holder<M> {
    memory: M,
}

impl<M: Memory> Holder<M> {
    /// A client of this memory.
    pub fn new(memory: M) -> Holder<M>
        ensures { result.memory ≡ memory }
    {
        Holder { memory }
    }

    /// Hands the memory back.
    pub fn into_memory(self) -> M
        ensures { result ≡ self.memory }
    {
        let Holder { memory } = self;
        memory
    }

    /// Stores a word.
    pub fn store(&mut self, cell: u64, word: u64) -> Result<(), Fault>
        ensures answer { result ≡ guarded (M.cells self.old.memory) (M.top self.old.memory) cell word tt }
        ensures after { M.cells self.new.memory ≡ written (M.cells self.old.memory) (M.top self.old.memory) cell word }
        ensures same { M.top self.new.memory ≡ M.top self.old.memory }
        ensures outside { M.outside self.new.memory ≡ M.outside self.old.memory }
    {
        self.memory.write(cell, word)
    }
}

/// A memory after a client that held it stored a word.
fn held<M: Memory>(memory: M, cell: u64, word: u64) -> M
    ensures after { M.cells result ≡ written (M.cells memory) (M.top memory) cell word }
    ensures same { M.top result ≡ M.top memory }
    ensures outside { M.outside result ≡ M.outside memory }
{
    let mut holder = Holder::new(memory);
    let _ = holder.store(cell, word);
    holder.into_memory()
}

/// Stores a word in the caller's numbers by way of a client that holds the memory, and hands the numbers back.
#[tactic(auto, using(crate::proofs::Storing::stored_lent))]
pub fn store_held<'a>(words: &'a mut [u64], cell: u64, word: u64) -> &'a mut [u64]
    ensures { result.now ≡ stored words.old cell word }
{
    held(WordMemory::new(words), cell, word).into_words()
}

/// Stores a word in the caller's bytes by way of a client that holds the memory, and hands the bytes back.
pub fn store_held_in_bytes<'a>(
    bytes: &'a mut [u8],
    width: Width,
    cell: u64,
    word: u64,
) -> &'a mut [u8]
    ensures after { cells_of width result.now ≡ written (cells_of width bytes.old) (top_of width) cell word }
    ensures rest { rest_of width result.now ≡ rest_of width bytes.old }
{
    held(ByteMemory::new(bytes, width), cell, word).into_bytes()
}

/// Stores a word in one of two callers' numbers by way of the memory that they make together, and hands both back.
#[tactic(auto, using(crate::proofs::Storing::stored_first_lent, crate::proofs::Storing::stored_second_lent))]
pub fn store_joined<'a>(
    first: &'a mut [u64],
    second: &'a mut [u64],
    cell: u64,
    word: u64,
) -> (&'a mut [u64], &'a mut [u64])
    ensures first { result.0.now ≡ stored first.old cell word }
    ensures second { result.1.now ≡ stored_second first.old second.old cell word }
{
    let mut memory = Joined::new(WordMemory::new(first), WordMemory::new(second));
    let _ = memory.write(cell, word);
    let (left, right) = memory.into_parts();
    (left.into_words(), right.into_words())
}

#[cfg(test)]
mod tests;
