//! Where an accepted copy leads.
ghost use Rattle.std.specs.Prelude.{◌≡◌};
ghost use Rattle.rules.specs.Steps.{accepts};
ghost use Rattle.node.specs.Courses.{followed};

use super::Node;
use order::Order;
use rules::{Operation, Seat};

/// What a seat does next whose copy is accepted.
#[derive(Clone, Copy)]
pub enum Course {
    /// Looks at another node.
    To(u64),
    /// Latches the node that it is at.
    Latch,
    /// Ends its find: the key has this value, or is absent.
    Answer(Option<u64>),
}

/// The course of a seat whose copy is accepted: to the link of a node that does not cover the key, to the child of
/// one above the aim, or else arrived.
pub fn course_of<O: Order>(seat: &Seat, order: &O) -> Course
    ensures { accepts (O.before order.now) seat.now ≡ followed seat.now result }
{
    let node = Node::of(&seat.copy);
    if !node.covers(order, seat.key) {
        return Course::To(node.link());
    }
    if seat.aim < node.level() {
        return Course::To(node.child(order, seat.key));
    }
    match seat.operation {
        Operation::Find => Course::Answer(node.find(order, seat.key)),
        Operation::Put { .. } | Operation::Post { .. } => Course::Latch,
    }
}
