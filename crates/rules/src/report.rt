//! What an accepted call reports.
ghost use Rattle.std.specs.Prelude.{◌≡◌, Err};
ghost use Rattle.rules.specs.Events.{told_by, ends};
ghost use Rattle.rules.specs.Reports.{told};

use super::Refusal;

/// How a put ends.
#[derive(Clone, Copy, PartialEq, Eq, Debug)]
pub enum Outcome {
    // Stored and Replaced stay two, as Found and Absent: each is told as a report of its own, with its own number
    /// The pair is stored, and its key is new.
    Stored,
    /// The pair is stored in place of one with this value.
    Replaced(u64),
    /// The pair is stored, and the put was stopped before a split of a node was posted in the level above.
    Untold,
    /// Stopped unpublished: too few nodes are left for a split.
    Full,
    /// Stopped unpublished: the node's lock word can rise no more.
    Worn,
}

/// What an accepted call reports. A step's report has the node that its seat was at when the step began.
#[derive(Clone, Copy, PartialEq, Eq, Debug)]
pub enum Report {
    /// The step, begin or format went on.
    GoneOn(u64),
    /// The node changed or is latched, so the seat looks at it again.
    TurnedBack(u64),
    /// The seat holds the node's latch from now on.
    Latched(u64),
    /// The leaf is rewritten, so the pair of the put is in the index, and the latch is free.
    Published(u64),
    /// The inner node is rewritten, so the split below it is posted, and the latch is free.
    Posted(u64),
    /// The latch is free, and the node is as it was.
    Unchanged(u64),
    // Found and Absent stay two: each is told as a report of its own, with its own number
    /// The find ends: the key has this value.
    Found { node: u64, value: u64 },
    /// The find ends: the key is absent.
    Absent(u64),
    /// The put ends.
    Ended { node: u64, outcome: Outcome },
    /// The seat is free again, before its operation ended.
    Abandoned { published: bool },
}

impl Report {
    /// The number of the report, 0 to 14.
    // stays a match: cases with fields have no discriminants to cast
    pub fn number(self) -> u64
        ensures { result ≡ (told self).0 }
    {
        match self {
            Report::GoneOn(_) => 0,
            Report::TurnedBack(_) => 1,
            Report::Latched(_) => 2,
            Report::Published(_) => 3,
            Report::Posted(_) => 4,
            Report::Unchanged(_) => 5,
            Report::Found { .. } => 6,
            Report::Absent(_) => 7,
            Report::Ended { outcome, .. } => match outcome {
                Outcome::Stored => 8,
                Outcome::Replaced(_) => 9,
                Outcome::Untold => 10,
                Outcome::Full => 11,
                Outcome::Worn => 12,
            },
            Report::Abandoned { published: false } => 13,
            Report::Abandoned { published: true } => 14,
        }
    }

    /// The node that the report tells; 0 for an abandon.
    pub fn node(self) -> u64
        ensures { result ≡ (told self).1 }
    {
        match self {
            Report::GoneOn(node)
            | Report::TurnedBack(node)
            | Report::Latched(node)
            | Report::Published(node)
            | Report::Posted(node)
            | Report::Unchanged(node)
            | Report::Found { node, .. }
            | Report::Absent(node)
            | Report::Ended { node, .. } => node,
            Report::Abandoned { .. } => 0,
        }
    }

    /// The value that was found or replaced, and else 0.
    pub fn word(self) -> u64
        ensures { result ≡ (told self).2 }
    {
        match self {
            Report::Found { value, .. } => value,
            Report::Ended {
                outcome: Outcome::Replaced(old),
                ..
            } => old,
            _ => 0,
        }
    }

    /// Whether the report leaves its seat idle: one of 6 to 14.
    pub fn ends(self) -> bool
        ensures { result ≡ ends (told self).0 }
    {
        // stays a range of numbers: with a match of the cases a release costs a driver 1.28 times the plain twin's, and the bar is 1.2
        matches!(self.number(), 6..=14)
    }
}

/// What an answer tells: the number of its report or refusal, the node and the word. A refusal has node and word 0.
#[derive(Clone, Copy, PartialEq, Eq, Debug, Default)]
pub struct Told {
    pub number: u64,
    pub node: u64,
    pub word: u64,
}

impl From<Report> for Told {
    ghost from_gives = { λ report t. (t.number, t.node, t.word) ≡ told report };

    fn from(report: Report) -> Told {
        Told {
            number: report.number(),
            node: report.node(),
            word: report.word(),
        }
    }
}

impl From<Refusal> for Told {
    ghost from_gives = { λ refusal t. (t.number, t.node, t.word) ≡ told_by (Err refusal) };

    fn from(refusal: Refusal) -> Told {
        Told {
            number: refusal.number(),
            ..Told::default()
        }
    }
}

impl From<Result<Report, Refusal>> for Told {
    ghost from_gives = { λ answer t. (t.number, t.node, t.word) ≡ told_by answer };

    fn from(answer: Result<Report, Refusal>) -> Told {
        match answer {
            Ok(report) => Told::from(report),
            Err(refusal) => Told::from(refusal),
        }
    }
}
