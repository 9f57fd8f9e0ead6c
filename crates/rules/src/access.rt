//! What a step accesses, and what it is told of the index.

/// The one memory access of a step that makes one.
#[derive(Clone, Copy)]
pub enum Access {
    /// Reads the cell of this number.
    Read(u64),
    /// Makes the cell hold the word.
    Write { cell: u64, word: u64 },
    /// Makes the cell hold the word, if it holds the expected one.
    Swap { cell: u64, expected: u64, word: u64 },
}

/// What the rules of a step take of the index beside its cells and the seat.
#[derive(Clone, Copy)]
pub struct Extent {
    /// The most entries of a node.
    pub fan: u8,
    /// The greatest word that a cell can hold.
    pub top: u64,
    /// How many nodes the memory has room for.
    pub nodes: u64,
}
