//! FNV-1a of 64 bits.

/// A digest of numbers, each as its eight bytes, the lowest first.
#[derive(Clone, Copy)]
pub(crate) struct Digest(u64);

/// The digest of no number.
impl Default for Digest {
    fn default() -> Digest {
        Digest(0xCBF2_9CE4_8422_2325)
    }
}

impl Digest {
    /// Takes one number more.
    pub(crate) fn add(&mut self, number: u64) {
        for byte in number.to_le_bytes() {
            self.0 = (self.0 ^ u64::from(byte)).wrapping_mul(0x100_0000_01B3);
        }
    }
}

/// The digest of the numbers so far.
impl From<Digest> for u64 {
    fn from(digest: Digest) -> u64 {
        digest.0
    }
}
