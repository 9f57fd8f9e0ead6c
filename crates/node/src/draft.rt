//! The draft of an update.
ghost use Rattle.std.specs.Prelude.{◌≡◌, ◌+◌, ◌≤◌, map, length, take, IfSome, slice_index_or};
ghost use Rattle.std.specs.List.{insert as insert_at};
ghost use Rattle.rules.specs.Nodes.{entry as entry_of, entries as entries_of};
ghost use Rattle.rules.specs.Seats.{laid, with_draft};
ghost use Rattle.rules.specs.Steps.{draft_of, left_count};
ghost use Rattle.node.specs.Changes.{changed, Within};
ghost use Rattle.node.specs.Drafts.{freed_by};
ghost use Rattle.node.specs.Values.{pair};

use super::Node;
use super::change::{Change, change_of, outcome_of};
use order::Order;
use rules::{Entry, Seat};

/// Lays the entries that these pairs of words are over the front of others.
fn lay_pairs(entries: &mut [Entry], pairs: &[[u64; 2]])
    requires { length pairs.now ≤ length entries.old }
    ensures { entries.new ≡ laid (map pair pairs.now) entries.old }
{
    // stays an index into the target: after a loop over its iter_mut in a zip the proof knows nothing of it
    for (i, &[key, value]) in pairs.iter().enumerate() {
        entries[i] = Entry { key, value };
    }
}

/// Lays entries over the front of others, with a new one before the one at `at`: how many they are then.
fn spread(entries: &mut [Entry], pairs: &[[u64; 2]], at: usize, new: Entry) -> usize
    requires at { at ≤ length pairs.now }
    requires room { length pairs.now + 1 ≤ length entries.old }
    ensures count { result ≡ length pairs.now + 1 }
    ensures after { entries.new ≡ laid (insert_at (map pair pairs.now) at new) entries.old }
{
    lay_pairs(entries, &pairs[..at]);
    entries[at] = new;
    lay_pairs(&mut entries[at + 1..], &pairs[at..]);
    pairs.len() + 1
}

/// Lays the entries of a changed node over the front of others: how many they are.
fn lay(entries: &mut [Entry; 14], node: &Node<'_>, change: Option<Change>) -> usize
    requires { IfSome change (λ c. Within c (entries_of node.now.words.now)) }
    ensures count { result ≡ length (changed change (entries_of node.now.words.now)) }
    ensures few { result ≤ 14 }
    ensures after { entries.new ≡ laid (changed change (entries_of node.now.words.now)) entries.old }
{
    let pairs = node.pairs();
    let Some(change) = change else {
        lay_pairs(entries, pairs);
        return pairs.len();
    };
    match change {
        Change::Replace { at, new } => {
            lay_pairs(entries, pairs);
            entries[at] = new;
            pairs.len()
        }
        Change::Insert { at, new } => spread(entries, pairs, at, new),
        Change::Divide { at, edge, child } => {
            let Entry { key, value } = node.entry(at);
            let len = spread(entries, pairs, at, Entry { key: edge, value });
            entries[at + 1] = Entry { key, value: child };
            len
        }
    }
}

/// The key at `i` of the first `len` entries; 0 past them.
// stays 0 for none: the draft has the edge of a split in its place, and 0 where nothing is split
fn key_at(entries: &[Entry; 14], len: usize, i: usize) -> u64
    ensures { result ≡ (slice_index_or (take len entries.now) i (entry_of 0 0)).key }
{
    match entries.get(i) {
        Some(entry) if i < len => entry.key,
        _ => 0,
    }
}

/// How many entries of a split go left.
fn left_len(fan: u8) -> u8
    ensures { result ≡ left_count fan }
{
    fan / 2 + 1
}

/// Drafts the update of the node that a seat has latched; `freeing` is the lock word that will free it.
pub fn draft_update<O: Order>(seat: &mut Seat, order: &O, fan: u8, freeing: u64)
    ensures { seat.new ≡ with_draft seat.old (freed_by freeing (draft_of (O.before order.now) fan seat.old)) seat.old.phase }
{
    let change = change_of(seat, order);
    let node = Node::of(&seat.copy);
    let len = lay(&mut seat.draft.entries, &node, change);
    let left_len = left_len(fan);
    seat.draft.freeing = freeing;
    seat.draft.level = node.level();
    seat.draft.outcome = outcome_of(&node, change);
    seat.draft.left = 0;
    seat.draft.right = 0;
    seat.draft.edge = key_at(&seat.draft.entries, len, usize::from(left_len) - 1);
    seat.draft.left_len = left_len;
    seat.draft.len = len as u8;
}
