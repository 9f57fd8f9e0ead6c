ghost use Rattle.std.specs.Prelude.{◌≡◌};
ghost use Rattle.memory.specs.Number.{fault_number};

/// Why a memory refuses a call. A refused call alters nothing.
#[derive(Clone, Copy, PartialEq, Eq, Debug)]
pub enum Fault {
    /// The cell is outside the row.
    NoCell = 24,
    /// The new word is above the top word.
    TooWide = 25,
}

impl Fault {
    /// The number that stands for the fault in a report.
    pub fn number(self) -> u64
        ensures { result ≡ fault_number self }
    {
        self as u64
    }
}
