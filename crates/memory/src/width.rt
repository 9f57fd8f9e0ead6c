ghost use Rattle.std.specs.Prelude.{◌≡◌};
ghost use Rattle.memory.specs.Bytes.{width_of, top_of};

/// How many bytes a cell of a byte memory has. No other width can be named.
#[derive(Clone, Copy, PartialEq, Eq, Debug)]
pub enum Width {
    /// Cells of two bytes.
    Two = 2,
    /// Cells of four bytes.
    Four = 4,
    /// Cells of eight bytes.
    Eight = 8,
}

impl Width {
    /// The number of bytes.
    pub fn bytes(self) -> u64
        ensures { result ≡ width_of self }
    {
        self as u64
    }

    /// The highest number that so many bytes write.
    pub fn highest(self) -> u64
        ensures { result ≡ top_of self }
    {
        match self {
            Width::Two => 0xffff,
            Width::Four => 0xffff_ffff,
            Width::Eight => u64::MAX,
        }
    }
}
