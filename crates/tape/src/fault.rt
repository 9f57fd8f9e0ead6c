//! What is wrong with a tape.
ghost use Rattle.std.specs.Prelude.{◌≡◌};
ghost use Rattle.tape.specs.Records.{tape_fault_number};

/// What is wrong with a tape. It is read no further. Each fault has its number.
#[derive(Clone, Copy, PartialEq, Eq, Debug)]
pub enum TapeFault {
    /// The tape has more than 4,096 bytes.
    LongTape = 32,
    /// The tape ends within a record.
    CutRecord = 33,
    /// The record's kind is not 1 to 4.
    StrangeKind = 34,
    /// The record's length is not that of its kind.
    WrongLength = 35,
}

impl TapeFault {
    /// The number of the fault, 32 to 35.
    pub fn number(self) -> u64
        ensures { result ≡ tape_fault_number self }
    {
        self as u64
    }
}
