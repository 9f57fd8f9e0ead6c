//! What an operation makes of a node's entries.
ghost use Rattle.std.specs.Prelude.{◌≡◌, IfSome};
ghost use Rattle.rules.specs.Nodes.{entries};
ghost use Rattle.rules.specs.Steps.{content, finished};
ghost use Rattle.node.specs.Changes.{changed, ends_as, Within};

use super::Node;
use order::Order;
use rules::{Entry, Operation, Outcome, Seat};

/// A change of the entries of a node.
#[derive(Clone, Copy)]
pub enum Change {
    /// The entry at `at` is replaced.
    Replace { at: usize, new: Entry },
    /// The new entry comes before the one at `at`.
    Insert { at: usize, new: Entry },
    /// The entry keeps its key and gets the child, after a new entry of the edge and the former child.
    Divide { at: usize, edge: u64, child: u64 },
}

/// The change that a seat's operation makes of the node that it has copied, if it makes one.
pub fn change_of<O: Order>(seat: &Seat, order: &O) -> Option<Change>
    ensures content { changed result (entries seat.now.copy) ≡ content (O.before order.now) seat.now }
    ensures outcome { ends_as result (entries seat.now.copy) ≡ finished (O.before order.now) seat.now.operation seat.now.key (entries seat.now.copy) }
    ensures within { IfSome result (λ c. Within c (entries seat.now.copy)) }
{
    let node = Node::of(&seat.copy);
    match seat.operation {
        Operation::Find => None,
        Operation::Put { value } => {
            let at = node.rank(order, seat.key);
            let new = Entry {
                key: seat.key,
                value,
            };
            Some(match node.value_at(at, seat.key) {
                Some(_) => Change::Replace { at, new },
                None => Change::Insert { at, new },
            })
        }
        Operation::Post { edge, child } => {
            let last = node.len().checked_sub(1)?;
            let at = node.rank(order, edge).min(last);
            Some(Change::Divide { at, edge, child })
        }
    }
}

/// How a put ends that makes a change.
pub fn outcome_of(node: &Node<'_>, change: Option<Change>) -> Outcome
    ensures { result ≡ ends_as change (entries node.now.words.now) }
{
    match change {
        Some(Change::Replace { at, .. }) => Outcome::Replaced(node.entry(at).value),
        _ => Outcome::Stored,
    }
}
