//! The lines that a tape prints.
ghost use Rattle.std.specs.Prelude.{◌≡◌, [], IfOk, Some, string_bytes};
ghost use Rattle.rules.specs.Events.{told_by};
ghost use Rattle.tape.specs.Lines.{line as line_rule, line_of, fault_line, line_text, lines_text};

use super::fault::TapeFault;
use rules::{Refusal, Report, Told};
use std::alloc::{AllocError, Global};
use std::fmt;

/// What is said of a record, or of a fault: five numbers.
#[derive(Clone, Copy, PartialEq, Eq, Debug, Default)]
pub struct Line {
    /// The record's kind; 0 for a fault.
    pub kind: u64,
    /// What the last call answered, or the number of the fault; zeros if there was none.
    pub told: Told,
    /// How many steps were accepted; of a fault, the offset of its record.
    pub steps: u64,
}

impl Line {
    /// The line of a record of this kind, by its last answer and how many steps were accepted.
    pub fn of_answer(kind: u64, answer: Result<Report, Refusal>, steps: u64) -> Line
        ensures { result ≡ line_rule kind (told_by answer) steps }
    {
        let told = Told::from(answer);
        Line { kind, told, steps }
    }

    /// The line of a record of this kind that made no call.
    pub fn of_no_call(kind: u64) -> Line
        ensures { result ≡ line_of kind [] }
    {
        Line {
            kind,
            ..Line::default()
        }
    }

    /// The line of a fault in the record at this offset.
    pub fn of_fault(fault: TapeFault, offset: u64) -> Line
        ensures { result ≡ fault_line fault offset }
    {
        let told = Told {
            number: fault.number(),
            ..Told::default()
        };
        Line {
            kind: 0,
            told,
            steps: offset,
        }
    }
}

impl fmt::Display for Line {
    ghost output = { λ l. Some (line_text l) };

    fn fmt<W: fmt::Write>(&self, f: &mut fmt::Formatter<W>) -> fmt::Result {
        let Line { kind, told, steps } = *self;
        let Told { number, node, word } = told;
        write!(f, "{kind} {number} {node} {word} {steps}")
    }
}

/// Lines, one after another.
#[derive(Clone, Copy)]
struct Lines<'a>(&'a [Line]);

impl fmt::Display for Lines<'_> {
    ghost output = { λ l. Some (lines_text l.0.now) };

    fn fmt<W: fmt::Write>(&self, f: &mut fmt::Formatter<W>) -> fmt::Result {
        for line in self.0 {
            writeln!(f, "{line}")?;
        }
        Ok(())
    }
}

/// The text of the lines, which only a want of memory refuses.
pub fn lines_text(heap: Global, lines: &[Line]) -> Result<String, AllocError>
    ensures { IfOk result (λ s. string_bytes s ≡ lines_text lines.now) }
{
    format!(in heap; "{}", Lines(lines))
}
