//! What the command line asks for.

use std::error::Error;
use std::fmt;
use std::num::ParseIntError;
use std::str::FromStr;

/// What the seat does over and over.
#[derive(Clone, Copy)]
pub(crate) enum Kind {
    /// Finds a key that is there.
    Find,
    /// Puts a key that is there.
    Put,
    /// Puts a key that is new.
    New,
}

/// What is measured.
#[derive(Clone, Copy)]
pub(crate) struct Request {
    /// How many cells the memory has.
    pub cells: u16,
    /// How many keys are stored first.
    pub keys: u16,
    pub kind: Kind,
    /// How often.
    pub times: u16,
    /// How many steps of each at most.
    pub steps: u16,
}

/// Why a command line is refused.
#[derive(Clone, Copy, Debug, PartialEq, Eq)]
pub(crate) struct Usage;

impl fmt::Display for Usage {
    fn fmt<W: fmt::Write>(&self, f: &mut fmt::Formatter<W>) -> fmt::Result {
        f.write_str("usage: runs CELLS KEYS find|put|new TIMES STEPS, the numbers below 65,536")
    }
}

impl Error for Usage {}

impl From<ParseIntError> for Usage {
    fn from(_: ParseIntError) -> Usage {
        Usage
    }
}

impl FromStr for Kind {
    type Err = Usage;

    fn from_str(text: &str) -> Result<Kind, Usage> {
        match text {
            "find" => Ok(Kind::Find),
            "put" => Ok(Kind::Put),
            "new" => Ok(Kind::New),
            _ => Err(Usage),
        }
    }
}

impl Request {
    /// Reads the arguments that follow the program's name.
    pub(crate) fn from_args(args: &[String]) -> Result<Request, Usage> {
        let [cells, keys, kind, times, steps] = args else {
            return Err(Usage);
        };
        Ok(Request {
            cells: cells.as_str().parse()?,
            keys: keys.as_str().parse()?,
            kind: kind.as_str().parse()?,
            times: times.as_str().parse()?,
            steps: steps.as_str().parse()?,
        })
    }
}
