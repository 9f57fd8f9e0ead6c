//! The seats that work on an index.
use super::report::Outcome;

/// A key with its value in a leaf, or with its child in an inner node.
#[derive(Clone, Copy, Default)]
pub struct Entry {
    pub key: u64,
    pub value: u64,
}

/// What a seat carries out.
#[derive(Clone, Copy)]
pub enum Operation {
    /// Finds the value of the seat's key.
    Find,
    /// Stores the seat's key with this value.
    Put { value: u64 },
    /// *Posts* a split: puts the new right node into the level above, under the last key that stayed left.
    Post { edge: u64, child: u64 },
}

/// A node that an update fills.
#[derive(Clone, Copy)]
pub enum Part {
    /// The taken node that gets the left entries of the root's split.
    Left,
    /// The taken node that gets the right entries of a split.
    Right,
    /// The latched node itself.
    Own,
}

/// What the seat's next step does.
#[derive(Clone, Copy)]
pub enum Phase {
    /// Nothing: the seat does not work.
    Idle,
    /// Reads the node's lock word, and remembers it as the version of the copy to come.
    Look,
    /// Copies this word of the node.
    Copy { next: u8 },
    /// Reads the lock word again: the copy counts only if it is the version still.
    Check,
    /// Sets the latch in the lock word, if it is the version still.
    Latch,
    /// Takes unused nodes for a split.
    Take,
    /// Writes this word of a node.
    Fill { part: Part, next: u8 },
    /// Frees the latch with a new version, so that the new content counts.
    Release,
    /// Frees the latch of a node that is left as it was.
    Undo,
    /// Reports how the put ended.
    End(Outcome),
}

/// What a seat that holds a latch will write, worked out when the latch is won.
// left and right stay 0 where nothing is split: nothing reads them then
#[derive(Clone, Copy)]
pub struct Draft {
    /// The lock word that frees the node.
    pub freeing: u64,
    /// The level that the latched node will have.
    pub level: u64,
    /// How the put ends once all is written.
    pub outcome: Outcome,
    /// The node that gets the left entries of a split.
    pub left: u64,
    /// The node that gets the right entries of a split.
    pub right: u64,
    /// The last left key of a split, which becomes the left node's high key.
    pub edge: u64,
    /// How many entries go left in a split.
    pub left_len: u8,
    // stays a buffer with its length: no memory is taken for a seat, and it is copied whole; `node` lends it as slices
    /// How many of the entries count.
    pub len: u8,
    /// The entries of the latched node, or of a split's two nodes; those past `len` are left from before.
    pub entries: [Entry; 14],
}

/// One of the eight places from which the index is worked. A seat carries out one operation at a time.
#[derive(Clone, Copy)]
pub struct Seat {
    pub operation: Operation,
    pub phase: Phase,
    /// The node that the seat is at.
    pub node: u64,
    /// The level that the operation is for: 0, the leaves', for a find or a put, and above it for a posting.
    pub aim: u64,
    /// The key that the seat seeks on that level.
    pub key: u64,
    /// The seat's copy of the node's words; in place of the lock word it has the version.
    pub copy: [u64; 32],
    pub draft: Draft,
}
