//! A node, read off its words.
ghost use Rattle.std.specs.Prelude.{◌≡◌, ◌≤◌, length, map, slice_index_or};
ghost use Rattle.rules.specs.Nodes.{entry as entry_of, entries, level as level_of, link as link_of, high as high_of, covers as covers_rule, rank as rank_rule, child as child_rule, found};
ghost use Rattle.node.specs.Values.{value_at, pair};

use order::Order;
use rules::Entry;

/// A node by its words, as a seat or an image has them. In place of the lock word a seat's copy has the version.
#[derive(Clone, Copy)]
pub struct Node<'a> {
    words: &'a [u64; 32],
    ghost whole: { length words.now ≡ 32 },
}

impl<'a> Node<'a> {
    /// The node of these words.
    pub fn of(words: &'a [u64; 32]) -> Node<'a>
        ensures { result.words.now ≡ words.now }
    {
        Node { words }
    }

    /// The node's level, 0 for a leaf.
    pub fn level(&self) -> u64
        ensures { result ≡ level_of self.now.words.now }
    {
        self.words[1]
    }

    /// The right neighbour, or 0.
    pub fn link(&self) -> u64
        ensures { result ≡ link_of self.now.words.now }
    {
        self.words[3]
    }

    /// The high key.
    pub fn high(&self) -> u64
        ensures { result ≡ high_of self.now.words.now }
    {
        self.words[4]
    }

    /// How many entries the node has.
    pub fn len(&self) -> usize
        ensures count { result ≡ length (entries self.now.words.now) }
        ensures few { result ≤ 13 }
    {
        self.words[2].min(13) as usize
    }

    /// The words of the entries, two by two.
    pub fn pairs(&self) -> &'a [[u64; 2]]
        ensures { map pair result.now ≡ entries self.now.words.now }
    {
        let words = self.words;
        let (pairs, _) = words[6..].as_chunks::<2>();
        &pairs[..self.len()]
    }

    /// The entry at `i`; zeros past the last.
    // stays zeros for none: by the rules the words of unused entries are 0
    pub fn entry(&self, i: usize) -> Entry
        ensures { result ≡ slice_index_or (entries self.now.words.now) i (entry_of 0 0) }
    {
        match self.pairs().get(i) {
            Some(&[key, value]) => Entry { key, value },
            None => Entry::default(),
        }
    }

    /// Whether a key belongs to the node, and not only to those right of it.
    pub fn covers<O: Order>(&self, order: &O, key: u64) -> bool
        ensures { result ≡ covers_rule (O.before order.now) self.now.words.now key }
    {
        self.link() == 0 || !order.before(self.high(), key)
    }

    /// How many entries stand before the first one whose key isn't before `key`.
    pub fn rank<O: Order>(&self, order: &O, key: u64) -> usize
        ensures { result ≡ rank_rule (O.before order.now) key (entries self.now.words.now) }
    {
        let pairs = self.pairs();
        pairs
            .iter()
            .position(|pair| !order.before(pair[0], key))
            .unwrap_or(pairs.len())
    }

    /// The child that leads to a key; 0 of a node with no entries.
    // stays 0 for none: by the rules a step goes on at node 0 then
    pub fn child<O: Order>(&self, order: &O, key: u64) -> u64
        ensures { result ≡ child_rule (O.before order.now) key (entries self.now.words.now) }
    {
        let Some(last) = self.len().checked_sub(1) else {
            return 0;
        };
        self.entry(self.rank(order, key).min(last)).value
    }

    /// The value of the entry at `i`, if it has the key.
    pub(crate) fn value_at(&self, i: usize, key: u64) -> Option<u64>
        ensures { result ≡ value_at (entries self.now.words.now) i key }
    {
        let at = self.entry(i);
        (i < self.len() && at.key == key).then_some(at.value)
    }

    /// The value of a key in a leaf.
    pub fn find<O: Order>(&self, order: &O, key: u64) -> Option<u64>
        ensures { result ≡ found (O.before order.now) key (entries self.now.words.now) }
    {
        self.value_at(self.rank(order, key), key)
    }
}
