//! The records of a tape, carried out on an index.
// `outside` and `refused` stay in each contract: they compare the two ends of a call, which no invariant of one value can.

ghost use Rattle.std.specs.Prelude.{◌≡◌, ◌+◌, ◌/◌, ◌<◌, ◌++◌, length, IfOk, vec_len, vec_capacity, OnErr, OnOk};
ghost use Rattle.index.specs.Views.{view};
ghost use Rattle.tape.specs.Laws.{LeadsOn, StaysLawful, InParts, FaultKeeps, LongKeeps};
ghost use Rattle.tape.specs.Lines.{line_of, counted};
ghost use Rattle.tape.specs.Play.{stops as stops_rule, stepped, carry_out, play_from, play as play_rule};
ghost use Rattle.tape.specs.Records.{kind_of};

use super::fault::TapeFault;
use super::line::Line;
use super::reader::{Record, read_record};
use index::Index;
use memory::Memory;
use order::Order;
use rules::{Refusal, Report};
use std::alloc::{AllocError, Global};

/// The most bytes of a tape.
pub const LONGEST: usize = 4096;

/// The fewest bytes of a record.
const SHORTEST: usize = 5;

/// How many steps were accepted with this one, after so many.
fn accepted(before: u16, answer: Result<Report, Refusal>) -> u64
    ensures { result ≡ counted before answer }
{
    u64::from(before) + u64::from(answer.is_ok())
}

/// Whether no further step is made after this answer: the operation ended, or the step was refused.
fn stops(answer: Result<Report, Refusal>) -> bool
    ensures { result ≡ stops_rule answer }
{
    match answer {
        Ok(report) => report.ends(),
        Err(_) => true,
    }
}

// stays a loop of its own: it keeps the last answer and how many were accepted, and each is in its contract
/// Makes steps of a seat until the count is reached, an operation ends or a step is refused: the line of a record of this
/// kind that does.
fn make_steps<M: Memory, O: Order>(
    index: &mut Index<M, O>,
    kind: u64,
    seat: u64,
    count: u16,
) -> Line
    ensures line { result ≡ line_of kind (stepped count seat (view M.Memory O.Order index.old)).events }
    ensures after { view M.Memory O.Order index.new ≡ (stepped count seat (view M.Memory O.Order index.old)).state }
    ensures outside { M.outside index.new.memory ≡ M.outside index.old.memory }
{
    let mut line = Line::of_no_call(kind);
    for made in 0..count {
        let answer = index.step(seat);
        line = Line::of_answer(kind, answer, accepted(made, answer));
        if stops(answer) {
            return line;
        }
    }
    line
}

/// Carries a record out, and tells its line.
fn carry_out<M: Memory, O: Order>(index: &mut Index<M, O>, record: Record) -> Line
    ensures line { result ≡ line_of (kind_of «record») (carry_out «record» (view M.Memory O.Order index.old)).events }
    ensures after { view M.Memory O.Order index.new ≡ (carry_out «record» (view M.Memory O.Order index.old)).state }
    ensures outside { M.outside index.new.memory ≡ M.outside index.old.memory }
{
    let kind = record.kind();
    let answer = match record {
        Record::Find { seat, key } => index.begin_find(u64::from(seat), key),
        Record::Put { seat, key, value } => index.begin_put(u64::from(seat), key, value),
        Record::Steps { seat, count } => return make_steps(index, kind, u64::from(seat), count),
        Record::Abandon { seat } => index.abandon(u64::from(seat)),
    };
    Line::of_answer(kind, answer, 0)
}

/// Plays the records of a tape that is not too long, into lines that have room for them.
fn play_records<M: Memory, O: Order>(index: &mut Index<M, O>, tape: &[u8], lines: &mut Vec<Line>)
    requires { vec_len lines.old + length tape.now / 5 < vec_capacity lines.old }
    ensures lines { lines.new.items ≡ lines.old.items ++ (play_from 0 (view M.Memory O.Order index.old) tape.now).lines }
    ensures after { view M.Memory O.Order index.new ≡ (play_from 0 (view M.Memory O.Order index.old) tape.now).state }
    ensures outside { M.outside index.new.memory ≡ M.outside index.old.memory }
{
    // an iterator of records would keep the same rest, and hide how long it is, which a fault's line tells
    let mut rest = tape;
    while !rest.is_empty() {
        match read_record(rest) {
            Ok((record, after)) => {
                lines.push_reserved(carry_out(index, record));
                rest = after;
            }
            Err(fault) => {
                let offset = (tape.len() - rest.len()) as u64;
                lines.push_reserved(Line::of_fault(fault, offset));
                return;
            }
        }
    }
}

/// Plays a tape. Room for the lines is made first.
fn play_bytes<M: Memory, O: Order>(
    heap: Global,
    index: &mut Index<M, O>,
    tape: &[u8],
) -> Result<Vec<Line>, AllocError>
    ensures lines { IfOk result (λ v. v.items ≡ (play_rule (view M.Memory O.Order index.old) tape.now).lines) }
    ensures after { OnOk result (view M.Memory O.Order index.new ≡ (play_rule (view M.Memory O.Order index.old) tape.now).state) }
    ensures refused { OnErr result (view M.Memory O.Order index.new ≡ view M.Memory O.Order index.old) }
    ensures outside { M.outside index.new.memory ≡ M.outside index.old.memory }
{
    if tape.len() > LONGEST {
        let mut lines = Vec::with_capacity(heap, 1)?;
        lines.push_reserved(Line::of_fault(TapeFault::LongTape, 0));
        return Ok(lines);
    }
    let mut lines = Vec::with_capacity(heap, tape.len() / SHORTEST + 1)?;
    play_records(index, tape, &mut lines);
    Ok(lines)
}

/// Plays a tape on an index: carries its records out one after the other, and answers a line for each, and one for a
/// fault. A want of memory leaves the index as it was.
#[tactic(auto, using(crate::proofs::Leading::leads_on, crate::proofs::Leading::stays_lawful, crate::proofs::Parts::in_parts, crate::proofs::Parts::fault_keeps, crate::proofs::Parts::long_keeps))]
pub fn play<M: Memory, O: Order>(
    heap: Global,
    index: &mut Index<M, O>,
    tape: &[u8],
) -> Result<Vec<Line>, AllocError>
    ensures lines { IfOk result (λ v. v.items ≡ (play_rule (view M.Memory O.Order index.old) tape.now).lines) }
    ensures after { OnOk result (view M.Memory O.Order index.new ≡ (play_rule (view M.Memory O.Order index.old) tape.now).state) }
    ensures refused { OnErr result (view M.Memory O.Order index.new ≡ view M.Memory O.Order index.old) }
    ensures outside { M.outside index.new.memory ≡ M.outside index.old.memory }
    ensures reached { OnOk result (LeadsOn tape.now (view M.Memory O.Order index.old) (view M.Memory O.Order index.new)) }
    ensures lawful { StaysLawful tape.now (view M.Memory O.Order index.old) }
    ensures parts { IfOk result (λ v. InParts tape.now (view M.Memory O.Order index.old) v.items (view M.Memory O.Order index.new)) }
    ensures fault { IfOk result (λ v. FaultKeeps tape.now (view M.Memory O.Order index.old) v.items (view M.Memory O.Order index.new)) }
    ensures long { IfOk result (λ v. LongKeeps tape.now (view M.Memory O.Order index.old) v.items (view M.Memory O.Order index.new)) }
{
    play_bytes(heap, index, tape)
}
