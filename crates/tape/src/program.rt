//! What the program prints for a tape.
ghost use Rattle.std.specs.Prelude.{◌≡◌, IfOk, string_bytes};
ghost use Rattle.rules.specs.Calls.{format};
ghost use Rattle.rules.specs.Laws.{Lawful};
ghost use Rattle.rules.specs.PlainMap.{empty_map};
ghost use Rattle.index.specs.Views.{view};
ghost use Rattle.tape.specs.Play.{play as play_rule};
ghost use Rattle.tape.specs.Program.{unformatted, start, printed as printed_rule};

use super::line::lines_text;
use super::player::play;
use index::Index;
use memory::{Memory, WordMemory};
use order::{NumberOrder, Order};
use std::alloc::{AllocError, Global};

/// How many cells the index lies in.
const CELLS: usize = 512;

/// The most entries of a node.
const FAN: u64 = 3;

/// A new index over a memory, formatted if the memory has room for its root.
fn formatted<M: Memory, O: Order>(memory: M, order: O) -> Index<M, O>
    ensures { view M.Memory O.Order result ≡ (format (unformatted (M.cells memory) (M.top memory) (O.iskey order) (O.before order)) 3).1 }
{
    let mut index = Index::new(memory, order);
    let _ = index.format(FAN);
    index
}

/// The text that a tape prints, played on a new index. Only a want of memory refuses it.
#[tactic(auto, using(crate::proofs::Starting::start_lawful))]
pub fn printed(heap: Global, tape: &[u8]) -> Result<String, AllocError>
    ensures text { IfOk result (λ s. string_bytes s ≡ printed_rule tape.now) }
    ensures lawful { Lawful empty_map (play_rule start tape.now).events }
{
    let mut words = [0; CELLS];
    let mut index = formatted(WordMemory::new(&mut words), NumberOrder);
    let lines = play(heap, &mut index, tape)?;
    lines_text(heap, lines.as_slice())
}
