//! The text of an image.

ghost use Rattle.std.specs.Prelude.{◌≡◌, ◌+◌, ◌-◌, ◌*◌, ◌<◌, ◌≤◌, min, length, IfOk, Some, string_bytes, slice_index};
ghost use Rattle.std.specs.List.{between};
ghost use Rattle.memory.specs.Bytes.{width_of, top_of, count_of, cells_of};
ghost use Rattle.dump.specs.Lines.{all_zero, lines_of, StandFor};
ghost use Rattle.dump.specs.Page.{plural_of, unless_none, head_text, span_text, zeros_text, row_text, lines_text, left_text, image_text};

use memory::{ByteMemory, Memory, Width};
use std::alloc::{AllocError, Global};
use std::fmt;

/// How many cells stand in a row.
const ROW: u64 = 32;

/// The ending of a noun that a number stands before.
#[derive(Clone, Copy)]
struct Plural(u64);

impl fmt::Display for Plural {
    ghost output = { λ p. Some (plural_of p.0) };

    fn fmt<W: fmt::Write>(&self, f: &mut fmt::Formatter<W>) -> fmt::Result {
        f.write_str(if self.0 == 1 { "" } else { "s" })
    }
}

/// The line that tells how many cells there are and what they take.
#[derive(Clone, Copy)]
pub(crate) struct Head {
    pub cells: u64,
    pub bytes: u64,
    pub top: u64,
}

impl Head {
    /// What the head of the text of an image says.
    #[tactic(auto, using(crate::proofs::Texts::counted))]
    pub(crate) fn of(memory: &ByteMemory<'_>, width: Width) -> Head
        requires { memory.now.width ≡ width }
        ensures cells { result.cells ≡ count_of width memory.now.bytes.now }
        ensures bytes { result.bytes ≡ width_of width }
        ensures top { result.top ≡ top_of width }
    {
        Head {
            cells: memory.length(),
            bytes: width.bytes(),
            top: memory.top_word(),
        }
    }
}

impl fmt::Display for Head {
    ghost output = { λ h. Some (head_text h.cells h.bytes h.top) };

    fn fmt<W: fmt::Write>(&self, f: &mut fmt::Formatter<W>) -> fmt::Result {
        let Head { cells, bytes, top } = *self;
        let s = Plural(cells);
        writeln!(f, "{cells} cell{s} of {bytes} bytes, top word {top}")
    }
}

/// The line of the bytes that are in no cell, or nothing where there are none.
#[derive(Clone, Copy)]
struct Left(u64);

impl fmt::Display for Left {
    ghost output = { λ l. Some (unless_none l.0 (left_text l.0)) };

    fn fmt<W: fmt::Write>(&self, f: &mut fmt::Formatter<W>) -> fmt::Result {
        let count = self.0;
        if count == 0 {
            return Ok(());
        }
        let s = Plural(count);
        writeln!(f, "{count} byte{s} left over")
    }
}

/// The cells from `first` on, before `end`: how their line begins.
#[derive(Clone, Copy)]
struct Span {
    first: u64,
    end: u64,
    ghost some: { first < end },
}

impl Span {
    /// The cells of row `n` of so many cells.
    fn of_row(n: u64, length: u64) -> Span
        requires { 32 * n < length }
        ensures first { result.first ≡ 32 * n }
        ensures end { result.end ≡ min (32 * (n + 1)) length }
    {
        let first = ROW * n;
        let end = first + ROW.min(length - first);
        Span { first, end }
    }
}

impl fmt::Display for Span {
    ghost output = { λ s. Some (span_text s.first s.end) };

    fn fmt<W: fmt::Write>(&self, f: &mut fmt::Formatter<W>) -> fmt::Result {
        let first = self.first;
        let last = self.end - 1;
        write!(f, "cells {first} to {last}:")
    }
}

/// The line of the cells from `first` on, before `end`, that are all 0, or nothing where there are none.
#[derive(Clone, Copy)]
struct Zeros {
    first: u64,
    end: u64,
    ghost ordered: { first ≤ end },
}

impl fmt::Display for Zeros {
    ghost output = { λ z. Some (unless_none (z.end - z.first) (zeros_text z.first z.end)) };

    fn fmt<W: fmt::Write>(&self, f: &mut fmt::Formatter<W>) -> fmt::Result {
        let Zeros { first, end } = *self;
        if first == end {
            return Ok(());
        }
        let span = Span { first, end };
        writeln!(f, "{span} all 0")
    }
}

/// The word of a cell of the row.
pub(crate) fn word<M: Memory>(memory: &M, cell: u64) -> u64
    requires { cell < length (M.cells memory.now) }
    ensures { result ≡ slice_index (M.cells memory.now) cell }
{
    memory.read(cell).unwrap()
}

/// The line of a row, the cells of a span.
#[derive(Drop)]
struct Row<'a, M: Memory> {
    memory: &'a M,
    span: Span,
    ghost inside: { span.end ≤ length (M.cells memory.now) },
}

impl<M: Memory> Row<'_, M> {
    /// Whether its cells all hold 0.
    fn all_zero(&self) -> bool
        ensures { result ≡ all_zero (between self.now.span.first self.now.span.end (M.cells self.now.memory.now)) }
    {
        let mut cells = self.span.first..self.span.end;
        cells.all(|cell| word(self.memory, cell) == 0)
    }
}

impl<M: Memory> fmt::Display for Row<'_, M> {
    ghost output = { λ r. Some (row_text r.span.first (between r.span.first r.span.end (M.cells r.memory.now))) };

    fn fmt<W: fmt::Write>(&self, f: &mut fmt::Formatter<W>) -> fmt::Result {
        let span = self.span;
        write!(f, "{span}")?;
        for cell in span.first..span.end {
            let word = word(self.memory, cell);
            write!(f, " {word}")?;
        }
        writeln!(f)
    }
}

/// The lines of a memory's cells, a run of rows that are all 0 as one line.
#[derive(Drop)]
struct Rows<'a, M: Memory>(&'a M);

impl<M: Memory> fmt::Display for Rows<'_, M> {
    ghost output = { λ r. Some (lines_text (lines_of (M.cells r.0.now))) };

    fn fmt<W: fmt::Write>(&self, f: &mut fmt::Formatter<W>) -> fmt::Result {
        let memory = self.0;
        let length = memory.length();
        let mut first = 0;
        for n in 0..length.div_ceil(ROW) {
            let span = Span::of_row(n, length);
            let row = Row { memory, span };
            if !row.all_zero() {
                let zeros = Zeros {
                    first,
                    end: span.first,
                };
                // one at a time, as in `image_text`
                write!(f, "{zeros}")?;
                write!(f, "{row}")?;
                first = span.end;
            }
        }
        let zeros = Zeros { first, end: length };
        write!(f, "{zeros}")
    }
}

/// The text of an image: how many cells it has, their words by rows, and how many bytes are in no cell.
#[tactic(auto, using(crate::proofs::Standing::lines_stand))]
pub fn image_text(heap: Global, bytes: &mut [u8], width: Width) -> Result<String, AllocError>
    ensures text { IfOk result (λ s. string_bytes s ≡ image_text width bytes.old) }
    ensures lines { StandFor 0 (lines_of (cells_of width bytes.old)) (cells_of width bytes.old) }
    ensures same { bytes.new ≡ bytes.old }
{
    let size = bytes.len() as u64;
    let memory = ByteMemory::new(bytes, width);
    let head = Head::of(&memory, width);
    let rows = Rows(&memory);
    let left = Left(size - head.cells * head.bytes);
    // one at a time: written together, each is handed all three, and the compiler reads the memory's width anew for each cell
    let mut text = format!(in heap; "{head}")?;
    write!(text, "{rows}")?;
    write!(text, "{left}")?;
    Ok(text)
}

#[cfg(test)]
mod tests {
    use super::*;
    use std::test::Fail;

    #[test]
    fn an_empty_image_has_no_line_of_cells(rt: HostRuntime) -> Result<(), Fail> {
        let text = image_text(rt.alloc(), &mut [], Width::Two)?;
        assert_eq!(rt; text.as_str(), "0 cells of 2 bytes, top word 65535\n");
        Ok(())
    }

    #[test]
    fn bytes_short_of_a_cell_are_left_over(rt: HostRuntime) -> Result<(), Fail> {
        let mut bytes = [1, 2, 0, 0, 9, 9, 9];
        let text = image_text(rt.alloc(), &mut bytes, Width::Four)?;
        assert_eq!(rt;
            text.as_str(),
            "1 cell of 4 bytes, top word 4294967295\ncells 0 to 0: 513\n3 bytes left over\n"
        );
        Ok(())
    }

    #[test]
    fn the_last_row_may_be_short(rt: HostRuntime) -> Result<(), Fail> {
        let mut bytes = [0; 265];
        bytes[256] = 7;
        let text = image_text(rt.alloc(), &mut bytes, Width::Eight)?;
        assert_eq!(rt;
            text.as_str(),
            "33 cells of 8 bytes, top word 18446744073709551615\ncells 0 to 31: all 0\ncells 32 to 32: 7\n1 byte left over\n"
        );
        Ok(())
    }

    #[test]
    fn a_run_of_zeros_is_one_line(rt: HostRuntime) -> Result<(), Fail> {
        let mut bytes = [0; 160];
        let text = image_text(rt.alloc(), &mut bytes, Width::Two)?;
        assert_eq!(rt;
            text.as_str(),
            "80 cells of 2 bytes, top word 65535\ncells 0 to 79: all 0\n"
        );
        Ok(())
    }
}
