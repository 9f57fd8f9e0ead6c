#![tactic(auto)]
//! Memories: rows of cells that each hold a word, over the caller's numbers, over the caller's bytes, or over two
//! memories one after the other. Code above knows a memory by its meaning alone, the trait `Memory`.

mod byte;
mod fault;
mod joined;
mod memory;
mod width;
mod word;

pub use byte::ByteMemory;
pub use fault::Fault;
pub use joined::Joined;
pub use memory::{LONGEST, Memory};
pub use width::Width;
pub use word::WordMemory;
