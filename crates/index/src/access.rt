//! The accesses to the memory.
ghost use Rattle.std.specs.Prelude.{◌≡◌, ◌+◌, ◌≤◌, if◌then◌else◌, Some, None, MatchResult, OnErr, nat_lt};
ghost use Rattle.memory.specs.declared.fault.Fault.TheVariants.{NoCell};
ghost use Rattle.rules.specs.Cells.{answers, leaves};
ghost use Rattle.rules.specs.Nodes.{cell_of};
ghost use Rattle.rules.specs.State.{zeroed};
ghost use Rattle.rules.specs.Steps.{version};
ghost use Rattle.index.specs.Extents.{extent_over};
ghost use Rattle.index.specs.Reach.{Due};

use memory::{Fault, LONGEST, Memory};
use node::fill_word;
use rules::{Access, Extent, Phase, Refusal, Seat};

/// What a step takes of the index beside its cells and the seat.
pub fn extent<M: Memory>(memory: &M, fan: u8) -> Extent
    ensures { result ≡ extent_over fan (M.cells memory.now) (M.top memory.now) }
{
    Extent {
        fan,
        top: memory.top_word(),
        nodes: memory.length() / 32,
    }
}

/// The cell of a word of a node. No memory has a cell of a node past the longest row.
fn cell(node: u64, word: u8) -> Result<u64, Fault>
    ensures { MatchResult result (λ c. c ≡ cell_of node word) (λ f. (f ≡ NoCell) × (65536 ≤ cell_of node word)) }
{
    if node < LONGEST {
        Ok(32 * node + u64::from(word))
    } else {
        Err(Fault::NoCell)
    }
}

/// The lock word that frees a node after one more write; none if it would pass the top word.
pub fn freeing(seat: &Seat, top: u64) -> Option<u64>
    ensures { result ≡ (if nat_lt top (version seat.now + 2) then None else Some (version seat.now + 2)) }
{
    seat.copy[0].checked_add(2).filter(|next| *next <= top)
}

/// The access that is due at a seat, if its next step makes one. It is refused as the rules say, or where no memory has
/// the cell.
pub fn due<M: Memory>(seat: &Seat, memory: &M, fan: u8) -> Result<Option<Access>, Refusal>
    ensures { Due (extent_over fan (M.cells memory.now) (M.top memory.now)) seat.now result }
{
    Ok(Some(match seat.phase {
        Phase::Look | Phase::Check => Access::Read(cell(seat.node, 0)?),
        Phase::Copy { next } => Access::Read(cell(seat.node, next)?),
        Phase::Latch => match freeing(seat, memory.top_word()) {
            Some(freeing) => Access::Swap {
                cell: cell(seat.node, 0)?,
                expected: seat.copy[0],
                word: freeing - 1,
            },
            None => return Ok(None),
        },
        Phase::Fill { part, next } => {
            let (node, word) = fill_word(seat, fan, part, next);
            Access::Write {
                cell: cell(node, next)?,
                word,
            }
        }
        Phase::Release | Phase::Undo => Access::Write {
            cell: cell(seat.node, 0)?,
            word: seat.draft.freeing,
        },
        Phase::Take | Phase::End(_) => return Ok(None),
        Phase::Idle => return Err(Refusal::Idle),
    }))
}

/// Makes one access; none, and a write, answer 0.
// `same` and `outside` stay in each contract: they compare the two ends of a call, which no invariant of one value can
pub fn perform<M: Memory>(memory: &mut M, access: Option<Access>) -> Result<u64, Fault>
    ensures answer { result ≡ answers (M.cells memory.old) (M.top memory.old) access }
    ensures after { M.cells memory.new ≡ leaves (M.cells memory.old) (M.top memory.old) access }
    ensures refused { OnErr result (M.cells memory.new ≡ M.cells memory.old) }
    ensures same { M.top memory.new ≡ M.top memory.old }
    ensures outside { M.outside memory.new ≡ M.outside memory.old }
{
    let Some(access) = access else {
        return Ok(0);
    };
    match access {
        Access::Read(cell) => memory.read(cell),
        Access::Write { cell, word } => {
            memory.write(cell, word)?;
            Ok(0)
        }
        Access::Swap {
            cell,
            expected,
            word,
        } => memory.swap(cell, expected, word),
    }
}

/// Makes the cells of node 0 hold 0.
pub fn clear<M: Memory>(memory: &mut M)
    ensures after { M.cells memory.new ≡ zeroed 32 (M.cells memory.old) }
    ensures same { M.top memory.new ≡ M.top memory.old }
    ensures outside { M.outside memory.new ≡ M.outside memory.old }
{
    for cell in 0..32 {
        let _ = memory.write(cell, 0);
    }
}
