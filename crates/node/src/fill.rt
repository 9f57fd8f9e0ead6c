//! The words that an update writes.
ghost use Rattle.std.specs.Prelude.{◌≡◌, cond, [], ◌∷◌};
ghost use Rattle.rules.specs.Nodes.{entry as entry_of, level, link, high, node_word};
ghost use Rattle.rules.specs.Seats.{drafted as drafted_rule, left_entries as left_rule, right_entries as right_rule};
ghost use Rattle.rules.specs.Steps.{is_root, part_node, own_word as own_rule, fill_word as fill_rule};

use super::Node;
use rules::{Draft, Entry, Part, Seat};

/// A node as it will be written.
#[derive(Clone, Copy)]
struct Content<'a> {
    level: u64,
    link: u64,
    high: u64,
    entries: &'a [Entry],
}

impl Content<'_> {
    /// A word of the node; the words of unused entries are 0.
    fn word(&self, word: u8) -> u64
        ensures { result ≡ node_word self.now.level self.now.link self.now.high self.now.entries.now word }
    {
        match word {
            1 => self.level,
            2 => self.entries.len() as u64,
            3 => self.link,
            4 => self.high,
            0 | 5 => 0,
            6.. => match self.entries.get(usize::from(word - 6) / 2) {
                None => 0,
                Some(entry) if word % 2 == 0 => entry.key,
                Some(entry) => entry.value,
            },
        }
    }
}

/// The entries of a draft that count.
fn drafted(draft: &Draft) -> &[Entry]
    ensures { result.now ≡ drafted_rule draft.now }
{
    let entries: &[Entry] = &draft.entries;
    &entries[..usize::from(draft.len).min(entries.len())]
}

/// Those of them that go left in a split, and those that go right.
fn halves(draft: &Draft) -> (&[Entry], &[Entry])
    ensures left { result.0.now ≡ left_rule draft.now }
    ensures right { result.1.now ≡ right_rule draft.now }
{
    let entries = drafted(draft);
    entries.split_at(usize::from(draft.left_len).min(entries.len()))
}

/// A word of the root above the two nodes of its split.
fn risen_word(draft: &Draft, word: u8) -> u64
    ensures { result ≡ node_word draft.now.level 0 0 (entry_of draft.now.edge draft.now.left ∷ (entry_of 0 draft.now.right ∷ [])) word }
{
    let left = Entry {
        key: draft.edge,
        value: draft.left,
    };
    let right = Entry {
        key: 0,
        value: draft.right,
    };
    let root = Content {
        level: draft.level,
        link: 0,
        high: 0,
        entries: &[left, right],
    };
    root.word(word)
}

/// The left node of a split, at this level.
fn left_part(draft: &Draft, level: u64) -> Content<'_>
    ensures { (result.level ≡ level) × (result.link ≡ draft.now.right) × (result.high ≡ draft.now.edge) × (result.entries.now ≡ left_rule draft.now) }
{
    Content {
        level,
        link: draft.right,
        high: draft.edge,
        entries: halves(draft).0,
    }
}

/// A word of the latched node.
fn own_word(seat: &Seat, fan: u8, word: u8) -> u64
    ensures { result ≡ own_rule fan seat.now word }
{
    let draft = &seat.draft;
    if draft.len <= fan {
        let node = Node::of(&seat.copy);
        let whole = Content {
            level: draft.level,
            link: node.link(),
            high: node.high(),
            entries: drafted(draft),
        };
        whole.word(word)
    } else if seat.node == 0 {
        risen_word(draft, word)
    } else {
        left_part(draft, draft.level).word(word)
    }
}

/// The right node of a split. It gets the link and the high key that the node had, which are 0 in the root.
fn right_part(seat: &Seat) -> Content<'_>
    ensures { (result.level ≡ level seat.now.copy) × (result.link ≡ cond (is_root seat.now) 0 (link seat.now.copy)) × (result.high ≡ cond (is_root seat.now) 0 (high seat.now.copy)) × (result.entries.now ≡ right_rule seat.now.draft) }
{
    let node = Node::of(&seat.copy);
    let (link, high) = match seat.node {
        0 => (0, 0),
        _ => (node.link(), node.high()),
    };
    Content {
        level: node.level(),
        link,
        high,
        entries: halves(&seat.draft).1,
    }
}

/// The node that a part of an update fills, and what it gets at this word.
pub fn fill_word(seat: &Seat, fan: u8, part: Part, word: u8) -> (u64, u64)
    ensures { result ≡ (part_node part seat.now, fill_rule fan seat.now part word) }
{
    let draft = &seat.draft;
    match part {
        Part::Left => {
            let level = Node::of(&seat.copy).level();
            (draft.left, left_part(draft, level).word(word))
        }
        Part::Right => (draft.right, right_part(seat).word(word)),
        Part::Own => (seat.node, own_word(seat, fan, word)),
    }
}
