//! The worked examples over word memory, byte memory of each width and joined memory, in each order.

use super::runs::Ascending;
use memory::{ByteMemory, Joined, Memory, Width, WordMemory};
use order::{LabelOrder, LaneOrder, NumberOrder, Order};
use std::process::Abort;

/// A memory of so many cells of a width over the first of these bytes, or of as many as there is room for.
fn cells<'a>(bytes: &'a mut [u8], count: usize, width: Width) -> ByteMemory<'a> {
    let used = count
        .saturating_mul(width.bytes() as usize)
        .min(bytes.len());
    ByteMemory::new(&mut bytes[..used], width)
}

/// The memory with a zero in each cell.
fn cleared<M: Memory>(mut memory: M) -> M {
    for cell in 0..memory.length() {
        let _ = memory.write(cell, 0);
    }
    memory
}

impl<O: Order + Copy> Ascending<O> {
    /// All examples, over a memory of five nodes or more as the one before left it and with zeros in it, and over one of
    /// one node.
    fn over<M: Memory + Drop>(self, rt: &impl Abort, roomy: M, small: M) {
        let roomy = self.grows(rt, roomy);
        let roomy = self.abandons(rt, roomy);
        let roomy = self.turns_back(rt, roomy);
        let roomy = self.abandons(rt, cleared(roomy));
        self.turns_back(rt, cleared(roomy));
        self.fills_up(rt, small);
    }

    fn over_words(self, rt: &impl Abort) {
        let mut roomy = [0u64; 160];
        let mut small = [0u64; 32];
        self.over(rt, WordMemory::new(&mut roomy), WordMemory::new(&mut small));
    }

    fn over_bytes(self, rt: &impl Abort, width: Width) {
        let mut roomy = [0u8; 1280];
        let mut small = [0u8; 256];
        self.over(
            rt,
            cells(&mut roomy, 160, width),
            cells(&mut small, 32, width),
        );
    }

    /// Words, and then cells of a width; a node lies across both.
    fn over_both(self, rt: &impl Abort, width: Width) {
        let mut words = [0u64; 50];
        let mut bytes = [0u8; 880];
        let roomy = Joined::new(WordMemory::new(&mut words), cells(&mut bytes, 110, width));
        let mut words = [0u64; 20];
        let mut bytes = [0u8; 96];
        let small = Joined::new(WordMemory::new(&mut words), cells(&mut bytes, 12, width));
        self.over(rt, roomy, small);
    }

    /// The examples of many nodes, each over new bytes, and over words as the one before left them.
    fn over_new_bytes(self, rt: &impl Abort, width: Width) {
        let mut words = [0u64; 50];
        let mut bytes = [0u8; 880];
        let both = Joined::new(WordMemory::new(&mut words), cells(&mut bytes, 110, width));
        let (words, _) = self.grows(rt, both).into_parts();
        let mut bytes = [0u8; 880];
        let both = Joined::new(words, cells(&mut bytes, 110, width));
        let (words, _) = self.abandons(rt, both).into_parts();
        let mut bytes = [0u8; 880];
        self.turns_back(rt, Joined::new(words, cells(&mut bytes, 110, width)));
    }

    fn everywhere(self, rt: &impl Abort) {
        self.over_words(rt);
        for width in [Width::Two, Width::Four, Width::Eight] {
            self.over_bytes(rt, width);
            self.over_both(rt, width);
            self.over_new_bytes(rt, width);
        }
    }
}

#[test]
fn in_number_order(rt: HostRuntime) {
    let order = NumberOrder;
    let keys = [10, 20, 30, 40, 50, 60, 70, 80];
    Ascending { order, keys }.everywhere(&rt);
}

#[test]
fn in_lane_order(rt: HostRuntime) {
    let order = LaneOrder;
    let keys = [0, 1, 2, 1000, 1001, 30_000, 40_000, 65_535];
    Ascending { order, keys }.everywhere(&rt);
    // lane 0 at −2 and 4; lane 1 at −5, 0 and 5; lane 2 at −2^31 and 0; lane 255 at −1
    let keys = [
        4_294_967_294,
        4,
        8_589_934_587,
        4_294_967_296,
        4_294_967_301,
        10_737_418_240,
        8_589_934_592,
        1_099_511_627_775,
    ];
    Ascending { order, keys }.over_words(&rt);
}

#[test]
fn in_label_order(rt: HostRuntime) {
    let order = LabelOrder;
    // A, AA, AB, B, BA, C, D and E
    let keys = [65, 16_705, 16_961, 66, 16_706, 67, 68, 69];
    Ascending { order, keys }.everywhere(&rt);
}
