//! Why a call is refused.
ghost use Rattle.std.specs.Prelude.{◌≡◌};
ghost use Rattle.rules.specs.Refusals.{of_fault, refusal_number};

use memory::Fault;

/// Why a call is refused. A refused call changes nothing. Each refusal has its number.
#[derive(Clone, Copy, PartialEq, Eq, Debug)]
pub enum Refusal {
    /// The index is not formatted yet.
    Unformatted = 21,
    /// The seat's number is above 7.
    NoSeat = 22,
    /// A begin on a seat that works already.
    Busy = 23,
    /// A step's cell is outside the memory.
    NoCell = 24,
    /// A word is above the memory's top word: the key or the value of a begin, or what a step would write.
    TooWide = 25,
    /// The key of a begin is no key of the order.
    NoKey = 26,
    /// A step or an abandon on a seat that does not work.
    Idle = 27,
    /// An abandon on a seat that holds a latch.
    Holding = 28,
    /// A second format.
    Formatted = 29,
    /// A fan below 3 or above 13.
    BadFan = 30,
    /// A format of a memory that has no room for the root.
    TooSmall = 31,
}

impl Refusal {
    /// The number of the refusal, 21 to 31.
    pub fn number(self) -> u64
        ensures { result ≡ refusal_number self }
    {
        self as u64
    }
}

/// A memory's fault as the index's refusal.
impl From<Fault> for Refusal {
    ghost from_gives = { λ f r. r ≡ of_fault f };

    fn from(fault: Fault) -> Refusal {
        match fault {
            Fault::NoCell => Refusal::NoCell,
            Fault::TooWide => Refusal::TooWide,
        }
    }
}
