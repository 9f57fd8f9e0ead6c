//! The text of an index's nodes.

ghost use Rattle.std.specs.Prelude.{◌≡◌, ◌+◌, ◌*◌, ◌/◌, ◌<◌, ◌≤◌, length, Some, Err, string_bytes, MatchResult};
ghost use Rattle.memory.specs.Bytes.{count_of};
ghost use Rattle.rules.specs.Nodes.{entries};
ghost use Rattle.dump.specs.Nodes.{node_words, latch_text, entries_text, node_text, nodes_text, index_text};
ghost use Rattle.dump.specs.Troubles.{trouble_text};
ghost use Rattle.dump.specs.declared.nodes.Trouble.TheVariants.{FewNodes, NoMemory};

use super::page::{Head, word};
use memory::{ByteMemory, Memory, Width};
use node::Node;
use std::alloc::{AllocError, Global};
use std::error::Error;
use std::{array, fmt};

/// Why the nodes of an image are not told.
#[derive(Clone, Copy, Debug, PartialEq, Eq)]
pub enum Trouble {
    /// The image has fewer nodes than were asked for.
    FewNodes,
    /// There is no memory for the text.
    NoMemory,
}

impl fmt::Display for Trouble {
    ghost output = { λ t. Some (trouble_text t) };

    fn fmt<W: fmt::Write>(&self, f: &mut fmt::Formatter<W>) -> fmt::Result {
        f.write_str(match self {
            Trouble::FewNodes => "the image has fewer nodes than the node count says",
            Trouble::NoMemory => "there is no memory for the text",
        })
    }
}

impl Error for Trouble {}

impl From<AllocError> for Trouble {
    ghost from_gives = { λ _ t. t ≡ NoMemory };

    fn from(_: AllocError) -> Trouble {
        Trouble::NoMemory
    }
}

/// The latch of a lock word.
#[derive(Clone, Copy)]
struct Latch(u64);

impl fmt::Display for Latch {
    ghost output = { λ l. Some (latch_text l.0) };

    fn fmt<W: fmt::Write>(&self, f: &mut fmt::Formatter<W>) -> fmt::Result {
        f.write_str(if self.0 % 2 == 0 { "free" } else { "latched" })
    }
}

/// The words of a node.
fn words_of<M: Memory>(memory: &M, node: u64) -> [u64; 32]
    requires { 32 * node + 32 ≤ length (M.cells memory.now) }
    ensures { result ≡ node_words node (M.cells memory.now) }
{
    array::from_fn(|i| word(memory, 32 * node + i as u64))
}

/// The entries of a node.
#[derive(Clone, Copy)]
struct Entries<'a>(Node<'a>);

impl fmt::Display for Entries<'_> {
    ghost output = { λ e. Some (entries_text (entries e.0.words.now)) };

    fn fmt<W: fmt::Write>(&self, f: &mut fmt::Formatter<W>) -> fmt::Result {
        for &[key, value] in self.0.pairs() {
            write!(f, " ({key}, {value})")?;
        }
        Ok(())
    }
}

/// The line of a node: its lock word with latch and version, its level, number of entries, link and high key, and its
/// entries.
#[derive(Clone, Copy)]
struct Line<'a> {
    node: u64,
    words: &'a [u64; 32],
}

impl fmt::Display for Line<'_> {
    ghost output = { λ l. Some (node_text l.node l.words.now) };

    fn fmt<W: fmt::Write>(&self, f: &mut fmt::Formatter<W>) -> fmt::Result {
        let Line { node, words } = *self;
        let [lock, level, count, link, high, ..] = *words;
        let latch = Latch(lock);
        let version = lock - lock % 2;
        let entries = Entries(Node::of(words));
        write!(
            f,
            "node {node}: lock word {lock} ({latch}, version {version})"
        )?;
        write!(
            f,
            ", level {level}, entries {count}, link {link}, high key {high}:"
        )?;
        writeln!(f, "{entries}")
    }
}

/// The lines of the first `count` nodes.
#[derive(Drop)]
struct Nodes<'a, M: Memory> {
    memory: &'a M,
    count: u64,
    ghost inside: { count ≤ length (M.cells memory.now) / 32 },
}

impl<M: Memory> fmt::Display for Nodes<'_, M> {
    ghost output = { λ n. Some (nodes_text 0 n.count (M.cells n.memory.now)) };

    fn fmt<W: fmt::Write>(&self, f: &mut fmt::Formatter<W>) -> fmt::Result {
        for node in 0..self.count {
            let words = words_of(self.memory, node);
            let line = Line {
                node,
                words: &words,
            };
            write!(f, "{line}")?;
        }
        Ok(())
    }
}

/// The text of an index of `count` nodes: how many cells the image has, and a line for each node.
#[tactic(auto, using(crate::proofs::Texts::counted))]
pub fn index_text(
    heap: Global,
    bytes: &mut [u8],
    width: Width,
    count: u64,
) -> Result<String, Trouble>
    ensures few { count_of width bytes.old / 32 < count → result ≡ Err FewNodes }
    ensures text { count ≤ count_of width bytes.old / 32 → MatchResult result (λ s. string_bytes s ≡ index_text width count bytes.old) (λ e. e ≡ NoMemory) }
    ensures same { bytes.new ≡ bytes.old }
{
    let memory = ByteMemory::new(bytes, width);
    let head = Head::of(&memory, width);
    if count > head.cells / 32 {
        return Err(Trouble::FewNodes);
    }
    let nodes = Nodes {
        memory: &memory,
        count,
    };
    Ok(format!(in heap; "{head}{nodes}")?)
}

#[cfg(test)]
mod tests {
    use super::*;
    use std::test::Fail;

    #[test]
    fn a_latched_leaf(rt: HostRuntime) -> Result<(), Fail> {
        let mut bytes = [0; 130];
        bytes[0] = 7;
        bytes[4] = 1;
        bytes[6] = 3;
        bytes[12] = 10;
        bytes[14] = 5;
        bytes[16] = 99;
        let text = index_text(rt.alloc(), &mut bytes, Width::Two, 1)?;
        assert_eq!(rt;
            text.as_str(),
            "65 cells of 2 bytes, top word 65535\nnode 0: lock word 7 (latched, version 6), level 0, entries 1, link 3, high key 0: (10, 5)\n"
        );
        Ok(())
    }

    #[test]
    fn no_more_nodes_than_the_image_has(rt: HostRuntime) {
        let mut bytes = [0; 130];
        assert!(rt; index_text(rt.alloc(), &mut bytes, Width::Two, 2).is_ok());
        assert!(rt;
            matches!(
                index_text(rt.alloc(), &mut bytes, Width::Two, 3),
                Err(Trouble::FewNodes)
            )
        );
    }
}
