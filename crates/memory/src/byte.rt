ghost use Rattle.std.specs.Prelude.{◌≡◌, ◌+◌, ◌*◌, ◌^◌, ◌<◌, ◌≤◌, length, IfOk, IfErr};
ghost use Rattle.memory.specs.declared.fault.Fault.TheVariants.{NoCell};
ghost use Rattle.memory.specs.Bytes.{width_of, count_of, top_of, value, cells_of, rest_of};
ghost use Rattle.memory.specs.Bounds.{bounded_bytes};
ghost use Rattle.memory.specs.Meaning.{lent};

use super::{Fault, LONGEST, Memory, Width};
use std::ops::Range;

/// A memory over the caller's bytes, two, four or eight a cell, low byte first. Its top word is the highest number of
/// that width. Bytes past the 65,536th cell and left-over bytes are never touched.
#[derive(Drop)]
pub struct ByteMemory<'a> {
    bytes: &'a mut [u8],
    width: Width,
}

impl<'a> ByteMemory<'a> {
    /// A memory over these bytes, in cells of this width.
    pub fn new(bytes: &'a mut [u8], width: Width) -> ByteMemory<'a>
        ensures { (result.bytes ≡ bytes.entry) × (result.width ≡ width) }
    {
        ByteMemory { bytes, width }
    }

    /// Hands the bytes back.
    pub fn into_bytes(self) -> &'a mut [u8]
        ensures { result.now ≡ self.entry.bytes.now }
    {
        let ByteMemory { bytes, width: _ } = self;
        bytes
    }
}

impl ByteMemory<'_> {
    /// Where a cell's bytes lie, if the row has the cell.
    #[tactic(auto, using(crate::proofs::Bytewise::cell_bytes))]
    fn place(&self, cell: u64) -> Result<Range<usize>, Fault>
        ensures ok { IfOk result (λ at. (at.start ≡ cell * width_of self.now.width) × (at.end ≡ at.start + width_of self.now.width) × (cell < length (cells_of self.now.width self.now.bytes.now)) × (at.end ≤ length self.now.bytes.now)) }
        ensures err { IfErr result (λ e. (e ≡ NoCell) × (length (cells_of self.now.width self.now.bytes.now) ≤ cell)) }
    {
        if cell >= self.length() {
            return Err(Fault::NoCell);
        }
        let width = self.width.bytes() as usize;
        let start = cell as usize * width;
        Ok(start..start + width)
    }
}

impl Memory for ByteMemory<'_> {
    ghost cells = { λ m. cells_of m.width m.bytes.now };

    ghost top = { λ m. top_of m.width };

    ghost bounded = { λ m. bounded_bytes m.width m.bytes.now };

    ghost outside = { λ m. lent m.bytes.ghost_name (rest_of m.width m.bytes.now) };

    #[tactic(auto, using(crate::specs::Bounds::length_words))]
    fn length(&self) -> u64 {
        (self.bytes.len() as u64 / self.width.bytes()).min(LONGEST)
    }

    fn top_word(&self) -> u64 {
        self.width.highest()
    }

    #[tactic(auto, using(crate::proofs::Bytewise::bytes_read))]
    fn read(&self, cell: u64) -> Result<u64, Fault> {
        let at = self.place(cell)?;
        let bytes = &self.bytes[at];
        // of a length that is written out the compiler makes a load, and no call
        Ok(match self.width {
            Width::Two => load(&bytes[..2]),
            Width::Four => load(&bytes[..4]),
            Width::Eight => load(&bytes[..8]),
        })
    }

    #[tactic(auto, using(crate::proofs::Bytewise::bytes_write_row, crate::proofs::Bytewise::bytes_write_rest))]
    fn write(&mut self, cell: u64, word: u64) -> Result<(), Fault> {
        let at = self.place(cell)?;
        if word > self.top_word() {
            return Err(Fault::TooWide);
        }
        store(&mut self.bytes[at], word);
        Ok(())
    }
}

/// The number that at most eight bytes write, low byte first.
#[tactic(auto, using(crate::proofs::Bytewise::value_loaded))]
fn load(bytes: &[u8]) -> u64
    requires { length bytes.now ≤ 8 }
    ensures { result ≡ value bytes.now }
{
    let mut full = [0; 8];
    let n = bytes.len();
    full[..n].copy_from_slice(bytes);
    u64::from_le_bytes(full)
}

/// Writes a number into at most eight bytes, low byte first.
#[tactic(auto, using(crate::proofs::Bytewise::value_stored))]
fn store(bytes: &mut [u8], word: u64)
    requires { (length bytes.old ≤ 8) × (word < 256 ^ length bytes.old) }
    ensures { value bytes.new ≡ word }
{
    let full = word.to_le_bytes();
    let n = bytes.len();
    bytes.copy_from_slice(&full[..n]);
}
