//! Lock words that can rise no more, and what is never touched.

use super::driving::{Walked, find, number, put};
use index::Index;
use memory::{ByteMemory, Width, WordMemory};
use order::NumberOrder;

#[test]
fn two_byte_lock_words_wear_out(rt: HostRuntime) {
    let mut bytes = [0u8; 64];
    let mut index = Index::new(ByteMemory::new(&mut bytes, Width::Two), NumberOrder);
    assert_eq!(rt; number(index.format(13)), 0);
    assert_eq!(rt; put(&mut index, 5, 0), Walked::new(8, 0, 67));
    for i in 1..32_767 {
        assert_eq!(rt; put(&mut index, 5, i), Walked::new(9, i - 1, 67));
    }
    assert_eq!(rt; put(&mut index, 5, 0), Walked::new(12, 0, 35));
    assert_eq!(rt;
        put(&mut index, 65_535, 0),
        Walked::new(12, 0, 35),
        "the highest word is a key"
    );
    assert_eq!(rt; put(&mut index, 65_536, 0), Walked::new(25, 0, 0));
    assert_eq!(rt; find(&mut index, 5), Walked::new(6, 32_766, 33));
}

#[test]
fn cells_of_no_whole_node_are_never_touched(rt: HostRuntime) {
    let mut words = [9u64; 63];
    let mut index = Index::new(WordMemory::new(&mut words), NumberOrder);
    assert_eq!(rt; number(index.format(3)), 0);
    for key in 0..4 {
        let _ = put(&mut index, key, 1);
    }
    let words = index.into_memory().into_words();
    for word in words.iter().skip(32) {
        assert_eq!(rt; *word, 9);
    }
}
