//! The worked examples, over any memory, in any order, with any eight ascending keys.

use super::driving::{Walked, find, number, put, walk};
use index::Index;
use memory::Memory;
use order::Order;
use rules::Told;
use std::process::Abort;

/// Eight keys that ascend in an order.
#[derive(Clone, Copy)]
pub(crate) struct Ascending<O> {
    pub order: O,
    pub keys: [u64; 8],
}

/// What an answer of this number tells that names node 0 and no word.
fn of_node_0(number: u64) -> Told {
    Told {
        number,
        ..Told::default()
    }
}

/// How the puts of eight ascending keys end, and after how many steps; and the steps of a find of each afterwards.
// a table: named fields would make five lines of each row
const ENDS: [(u64, u64, u64); 8] = [
    (8, 67, 66),
    (8, 67, 66),
    (8, 67, 66),
    (8, 132, 66),
    (8, 100, 66),
    (8, 199, 66),
    (8, 100, 99),
    (10, 169, 99),
];

impl<O: Order + Copy> Ascending<O> {
    /// Over five nodes: splits of the root and of leaves, and a last key that is stored untold. Then every key is found, and
    /// the first is replaced.
    pub(crate) fn grows<M: Memory + Drop>(self, rt: &impl Abort, memory: M) -> M {
        let Ascending { order, keys } = self;
        let mut index = Index::new(memory, order);
        assert_eq!(rt; number(index.format(3)), 0);
        for ((key, value), (number, steps, _)) in keys.iter().zip(100..108).zip(ENDS.iter()) {
            assert_eq!(rt;
                put(&mut index, *key, value),
                Walked::new(*number, 0, *steps)
            );
        }
        for ((key, value), (_, _, steps)) in keys.iter().zip(100..108).zip(ENDS.iter()) {
            assert_eq!(rt; find(&mut index, *key), Walked::new(6, value, *steps));
        }
        assert_eq!(rt; put(&mut index, keys[0], 7), Walked::new(9, 100, 100));
        assert_eq!(rt; find(&mut index, keys[0]), Walked::new(6, 7, 66));
        index.into_memory()
    }

    /// Over five nodes: a put that is abandoned after its publishing stays found, and one that is abandoned before does not.
    pub(crate) fn abandons<M: Memory + Drop>(self, rt: &impl Abort, memory: M) -> M {
        let Ascending { order, keys } = self;
        let mut index = Index::new(memory, order);
        assert_eq!(rt; number(index.format(3)), 0);
        for key in keys.iter().take(5) {
            assert_eq!(rt; put(&mut index, *key, 1).number, 8);
        }
        assert_eq!(rt; number(index.begin_put(0, keys[5], 6)), 0);
        assert_eq!(rt; walk(&mut index, 0, 132), Walked::new(3, 0, 132));
        assert_eq!(rt; Told::from(index.abandon(0)), of_node_0(14));
        assert_eq!(rt; find(&mut index, keys[5]), Walked::new(6, 6, 99));
        assert_eq!(rt; number(index.begin_put(0, keys[6], 7)), 0);
        assert_eq!(rt; walk(&mut index, 0, 20), Walked::new(0, 0, 20));
        assert_eq!(rt; Told::from(index.abandon(0)), of_node_0(13));
        assert_eq!(rt; find(&mut index, keys[6]), Walked::new(7, 0, 99));
        index.into_memory()
    }

    /// Two puts have accepted the empty root: one latches it, and the other is turned back and comes after it.
    pub(crate) fn turns_back<M: Memory + Drop>(self, rt: &impl Abort, memory: M) -> M {
        let Ascending { order, keys } = self;
        let mut index = Index::new(memory, order);
        assert_eq!(rt; number(index.format(13)), 0);
        assert_eq!(rt; number(index.begin_put(2, keys[0], 1)), 0);
        assert_eq!(rt; number(index.begin_put(3, keys[1], 2)), 0);
        assert_eq!(rt; walk(&mut index, 2, 33), Walked::new(0, 0, 33));
        assert_eq!(rt; walk(&mut index, 3, 33), Walked::new(0, 0, 33));
        assert_eq!(rt; Told::from(index.step(2)), of_node_0(2));
        assert_eq!(rt; Told::from(index.step(3)), of_node_0(1));
        assert_eq!(rt; walk(&mut index, 2, 100), Walked::new(8, 0, 33));
        assert_eq!(rt; walk(&mut index, 3, 100), Walked::new(8, 0, 67));
        assert_eq!(rt; find(&mut index, keys[0]), Walked::new(6, 1, 33));
        assert_eq!(rt; find(&mut index, keys[1]), Walked::new(6, 2, 33));
        index.into_memory()
    }

    /// Over one node: a fourth key finds it full, and a present key is replaced.
    pub(crate) fn fills_up<M: Memory + Drop>(self, rt: &impl Abort, memory: M) -> M {
        let Ascending { order, keys } = self;
        let mut index = Index::new(memory, order);
        assert_eq!(rt; number(index.format(3)), 0);
        assert_eq!(rt; put(&mut index, keys[0], 1), Walked::new(8, 0, 67));
        assert_eq!(rt; put(&mut index, keys[1], 2), Walked::new(8, 0, 67));
        assert_eq!(rt; put(&mut index, keys[2], 3), Walked::new(8, 0, 67));
        assert_eq!(rt; put(&mut index, keys[3], 4), Walked::new(11, 0, 37));
        assert_eq!(rt; put(&mut index, keys[1], 5), Walked::new(9, 2, 67));
        assert_eq!(rt; find(&mut index, keys[3]), Walked::new(7, 0, 33));
        index.into_memory()
    }
}
