//! The records of a tape, read from its bytes.
ghost use Rattle.std.specs.Prelude.{◌≡◌, ◌+◌, ◌≤◌, length, drop, Ok, Err, MatchResult};
ghost use Rattle.memory.specs.Bytes.{value};
ghost use Rattle.tape.specs.Records.{number_at, kind_of, record_of as record_rule, next_record, span};

use super::fault::TapeFault;

/// What a record asks for.
#[derive(Clone, Copy, PartialEq, Eq, Debug)]
pub enum Record {
    /// Kind 1: a seat begins to find a key.
    Find { seat: u8, key: u64 },
    /// Kind 2: a seat begins to store a value under a key.
    Put { seat: u8, key: u64, value: u64 },
    /// Kind 3: a seat makes steps, so many at most.
    Steps { seat: u8, count: u16 },
    /// Kind 4: a seat gives up its operation.
    Abandon { seat: u8 },
}

impl Record {
    /// The number of the record's kind, 1 to 4.
    pub fn kind(self) -> u64
        ensures { result ≡ kind_of self }
    {
        // the cases have fields, so their numbers are no discriminants
        match self {
            Record::Find { .. } => 1,
            Record::Put { .. } => 2,
            Record::Steps { .. } => 3,
            Record::Abandon { .. } => 4,
        }
    }
}

/// Some of the bytes, from `at` on.
#[tactic(auto, unfolding(crate::specs::Records::number_at))]
fn array<const N: usize>(bytes: &[u8], at: usize) -> [u8; N]
    requires { at + N ≤ length bytes.now }
    ensures { value result ≡ number_at bytes.now at N }
{
    let mut array = [0; N];
    array.copy_from_slice(&bytes[at..at + N]);
    array
}

/// The record of this kind and length, by its bytes.
fn record_of(kind: u16, len: u16, bytes: &[u8]) -> Result<Record, TapeFault>
    requires { 2 + len ≤ length bytes.now }
    ensures { result ≡ record_rule kind len bytes.now }
{
    match kind {
        1 if len == 11 => Ok(Record::Find {
            seat: bytes[4],
            key: u64::from_le_bytes(array(bytes, 5)),
        }),
        2 if len == 19 => Ok(Record::Put {
            seat: bytes[4],
            key: u64::from_le_bytes(array(bytes, 5)),
            value: u64::from_le_bytes(array(bytes, 13)),
        }),
        3 if len == 5 => Ok(Record::Steps {
            seat: bytes[4],
            count: u16::from_le_bytes(array(bytes, 5)),
        }),
        4 if len == 3 => Ok(Record::Abandon { seat: bytes[4] }),
        1..=4 => Err(TapeFault::WrongLength),
        _ => Err(TapeFault::StrangeKind),
    }
}

/// Reads the record that the bytes begin with. Answers the record, and the bytes after it.
#[tactic(auto, using(crate::proofs::Reading::value_two, crate::proofs::Reading::not_cut, std::proofs::lemmas::List::take_rest))]
pub fn read_record(bytes: &[u8]) -> Result<(Record, &[u8]), TapeFault>
    ensures { MatchResult result (λ p. (next_record bytes.now ≡ Ok p.0) × (p.1.now ≡ drop (span bytes.now) bytes.now)) (λ f. next_record bytes.now ≡ Err f) }
{
    if bytes.len() < 4 {
        return Err(TapeFault::CutRecord);
    }
    let len = u16::from_le_bytes(array(bytes, 0));
    let end = 2 + usize::from(len);
    if bytes.len() < end {
        return Err(TapeFault::CutRecord);
    }
    let kind = u16::from_le_bytes(array(bytes, 2));
    let record = record_of(kind, len, bytes)?;
    Ok((record, &bytes[end..]))
}
