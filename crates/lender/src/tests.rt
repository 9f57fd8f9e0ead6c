use super::*;
use std::process::Abort;
use std::test::Fail;

/// Whether the highest word of a width is taken by every cell, and one above it by none, which stays as it was.
fn takes_up_to(rt: &impl Abort, width: Width, highest: u64) {
    let mut bytes = [0u8; 19];
    let mut memory = ByteMemory::new(&mut bytes, width);
    assert_eq!(rt; memory.top_word(), highest);
    assert_eq!(rt; memory.write(1, highest), Ok(()));
    assert_eq!(rt; memory.read(1), Ok(highest));
    if let Some(above) = highest.checked_add(1) {
        assert_eq!(rt; memory.write(1, above), Err(Fault::TooWide));
        assert_eq!(rt; memory.swap(1, highest, above), Err(Fault::TooWide));
        assert_eq!(rt; memory.write(65536, above), Err(Fault::NoCell));
    }
    assert_eq!(rt; memory.read(1), Ok(highest));
}

#[test]
fn each_width_takes_its_highest_word(rt: HostRuntime) {
    takes_up_to(&rt, Width::Two, 65535);
    takes_up_to(&rt, Width::Four, 4_294_967_295);
    takes_up_to(&rt, Width::Eight, u64::MAX);
}

#[test]
fn words_hold_what_is_written(rt: HostRuntime) {
    let mut words = [1, 2, 3];
    let mut memory = WordMemory::new(&mut words);
    assert_eq!(rt; memory.write(1, u64::MAX), Ok(()));
    assert_eq!(rt; memory.swap(1, 7, 5), Ok(u64::MAX));
    assert_eq!(rt; memory.read(1), Ok(u64::MAX));
    assert_eq!(rt; memory.swap(1, u64::MAX, 5), Ok(u64::MAX));
    assert_eq!(rt; memory.read(1), Ok(5));
    assert_eq!(rt; memory.read(3), Err(Fault::NoCell));
    assert_eq!(rt; memory.write(3, 9), Err(Fault::NoCell));
    assert_eq!(rt; words, [1, 5, 3]);
}

#[test]
fn bytes_lie_low_byte_first(rt: HostRuntime) {
    let mut bytes = [9u8; 5];
    let mut memory = ByteMemory::new(&mut bytes, Width::Two);
    assert_eq!(rt; memory.length(), 2);
    assert_eq!(rt; memory.write(1, 0x0102), Ok(()));
    assert_eq!(rt; memory.write(2, 1), Err(Fault::NoCell));
    assert_eq!(rt; memory.read(0), Ok(0x0909));
    assert_eq!(rt; bytes, [9, 9, 2, 1, 9], "a left-over byte is never touched");
}

#[test]
fn joined_banks_of_unequal_width(rt: HostRuntime) {
    let mut words = [70_000, 0];
    let mut bytes = [0u8; 7];
    let first = WordMemory::new(&mut words);
    let second = ByteMemory::new(&mut bytes, Width::Two);
    let mut memory = Joined::new(first, second);
    assert_eq!(rt; memory.length(), 5);
    assert_eq!(rt; memory.top_word(), 65535);
    assert_eq!(rt;
        memory.read(0),
        Ok(70_000),
        "a word above the top word is read"
    );
    assert_eq!(rt; memory.write(0, 70_000), Err(Fault::TooWide));
    assert_eq!(rt; memory.swap(0, 70_000, 65535), Ok(70_000));
    assert_eq!(rt; memory.write(4, 65535), Ok(()));
    assert_eq!(rt; memory.read(4), Ok(65535));
    assert_eq!(rt; memory.read(5), Err(Fault::NoCell));
    assert_eq!(rt; words, [65535, 0]);
    assert_eq!(rt; bytes, [0, 0, 0, 0, 255, 255, 0]);
}

#[test]
fn a_length_stops_at_65536(rt: HostRuntime) -> Result<(), Fail> {
    let mut words = vec![in rt.alloc(); 7u64; 65537]?;
    let mut memory = WordMemory::new(&mut words);
    assert_eq!(rt; memory.length(), 65536);
    assert_eq!(rt; memory.write(65535, 8), Ok(()));
    assert_eq!(rt; memory.write(65536, 8), Err(Fault::NoCell));
    let mut more = [0u64; 4];
    let memory = Joined::new(memory, WordMemory::new(&mut more));
    assert_eq!(rt; memory.length(), 65536);
    assert_eq!(rt; memory.read(65536), Err(Fault::NoCell));
    assert_eq!(rt; words.get(65536).copied(), Some(7));
    Ok(())
}

#[test]
fn empty_memories_refuse_every_cell(rt: HostRuntime) {
    let mut none = [0u64; 0];
    let mut short = [1u8; 1];
    let first = WordMemory::new(&mut none);
    let second = ByteMemory::new(&mut short, Width::Two);
    assert_eq!(rt; first.length(), 0);
    assert_eq!(rt; second.length(), 0);
    assert_eq!(rt; first.read(0), Err(Fault::NoCell));
    let mut memory = Joined::new(first, second);
    assert_eq!(rt; memory.length(), 0);
    assert_eq!(rt;
        memory.swap(0, 0, 70_000),
        Err(Fault::NoCell),
        "no cell is said before too wide"
    );
}

#[test]
fn lenders_get_their_numbers_back(rt: HostRuntime) {
    let mut left = [1, 2];
    let mut right = [3, 4];
    let (first, second) = store_joined(&mut left, &mut right, 3, 9);
    assert_eq!(rt; &*first, [1, 2].as_slice());
    assert_eq!(rt; &*second, [3, 9].as_slice());
    assert_eq!(rt; store(&mut left, 0, 6), Ok(()));
    assert_eq!(rt; left, [6, 2]);
    wipe_words(&mut right);
    assert_eq!(rt; right, [0, 0]);
}
