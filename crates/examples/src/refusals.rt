//! Every refusal, what it leaves, and which of two is said.

use super::driving::{Walked, number, walk};
use index::Index;
use memory::{ByteMemory, Memory, Width, WordMemory};
use order::{LabelOrder, Order};
use std::process::Abort;

/// Formats an index with a fan over 32 cells: the number of its answer.
fn formatted(fan: u64) -> u64 {
    let mut words = [0u64; 32];
    let mut index = Index::new(WordMemory::new(&mut words), LabelOrder);
    number(index.format(fan))
}

#[test]
fn fans_from_3_to_13(rt: HostRuntime) {
    assert_eq!(rt; formatted(0), 30);
    assert_eq!(rt; formatted(2), 30);
    assert_eq!(rt; formatted(3), 0);
    assert_eq!(rt; formatted(13), 0);
    assert_eq!(rt; formatted(14), 30);
    assert_eq!(rt; formatted(u64::MAX), 30);
}

/// The refusals before an accepted format. 31 cells are too few; where the fan is bad too, that is said.
fn refuses_before_format<M: Memory, O: Order>(rt: &impl Abort, index: &mut Index<M, O>) {
    assert_eq!(rt; number(index.begin_find(0, 65)), 21);
    assert_eq!(rt;
        number(index.begin_put(9, 65_536, 65_536)),
        21,
        "unformatted, no seat, too wide"
    );
    assert_eq!(rt; number(index.begin_find(0, 256)), 21, "unformatted, no key");
    assert_eq!(rt; number(index.step(0)), 21, "unformatted, idle");
    assert_eq!(rt; number(index.step(8)), 21, "unformatted, no seat");
    assert_eq!(rt; number(index.abandon(0)), 21, "unformatted, idle");
    assert_eq!(rt; number(index.abandon(8)), 21, "unformatted, no seat");
}

#[test]
fn before_format(rt: HostRuntime) {
    let mut words = [5u64; 31];
    let mut index = Index::new(WordMemory::new(&mut words), LabelOrder);
    refuses_before_format(&rt, &mut index);
    assert_eq!(rt; number(index.format(2)), 30, "bad fan, too small");
    assert_eq!(rt; number(index.format(3)), 31);
    refuses_before_format(&rt, &mut index);
    let left = index.into_memory().into_words();
    for word in left.iter() {
        assert_eq!(rt; *word, 5, "a refused format writes no cell");
    }
}

/// Every refusal of a formatted index over two-byte cells in label order, where seat 0 is idle, seat 1 reads and seat 2
/// holds a latch; each with others that hold as well.
fn refuses<M: Memory, O: Order>(rt: &impl Abort, index: &mut Index<M, O>) {
    assert_eq!(rt; number(index.format(2)), 29, "formatted, bad fan");
    assert_eq!(rt; number(index.format(3)), 29);
    assert_eq!(rt; number(index.begin_find(8, 65)), 22);
    assert_eq!(rt;
        number(index.begin_put(u64::MAX, 65_536, 0)),
        22,
        "no seat, too wide"
    );
    assert_eq!(rt; number(index.begin_find(8, 256)), 22, "no seat, no key");
    assert_eq!(rt; number(index.step(8)), 22);
    assert_eq!(rt; number(index.abandon(8)), 22);
    assert_eq!(rt; number(index.begin_find(1, 65)), 23);
    assert_eq!(rt;
        number(index.begin_put(2, 65, 65_536)),
        23,
        "busy, too wide"
    );
    assert_eq!(rt; number(index.begin_find(1, 256)), 23, "busy, no key");
    assert_eq!(rt; number(index.begin_find(0, 65_536)), 25, "too wide, no key");
    assert_eq!(rt; number(index.begin_put(0, 65, 65_536)), 25);
    assert_eq!(rt;
        number(index.begin_put(0, 256, 65_536)),
        25,
        "too wide, no key"
    );
    assert_eq!(rt; number(index.begin_find(0, 256)), 26);
    assert_eq!(rt; number(index.step(0)), 27);
    assert_eq!(rt; number(index.abandon(0)), 27);
    assert_eq!(rt; number(index.abandon(2)), 28);
}

/// Formats, has seat 1 read half a node and seat 2 win its latch.
fn prepared<M: Memory, O: Order>(rt: &impl Abort, index: &mut Index<M, O>) {
    assert_eq!(rt; number(index.format(3)), 0);
    assert_eq!(rt; number(index.begin_find(1, 65)), 0);
    assert_eq!(rt; walk(index, 1, 16), Walked::new(0, 0, 16));
    assert_eq!(rt; number(index.begin_put(2, 65, 7)), 0);
    assert_eq!(rt; walk(index, 2, 34), Walked::new(2, 0, 34));
}

/// Ends what was begun: the put is stored, and the find, turned back once, finds it.
fn ended<M: Memory, O: Order>(rt: &impl Abort, index: &mut Index<M, O>) {
    assert_eq!(rt; walk(index, 1, 17), Walked::new(1, 0, 17));
    assert_eq!(rt; walk(index, 2, 100), Walked::new(8, 0, 33));
    assert_eq!(rt; walk(index, 1, 100), Walked::new(6, 7, 33));
}

#[test]
fn after_format_with_nothing_lost(rt: HostRuntime) {
    let mut calm = [0u8; 64];
    let mut index = Index::new(ByteMemory::new(&mut calm, Width::Two), LabelOrder);
    prepared(&rt, &mut index);
    ended(&rt, &mut index);
    let calm = index.into_memory().into_bytes();
    let mut bytes = [0u8; 64];
    let mut index = Index::new(ByteMemory::new(&mut bytes, Width::Two), LabelOrder);
    prepared(&rt, &mut index);
    refuses(&rt, &mut index);
    ended(&rt, &mut index);
    let bytes = index.into_memory().into_bytes();
    assert_eq!(rt;
        &*calm,
        &*bytes,
        "the cells are those of a run with no refused call"
    );
}
