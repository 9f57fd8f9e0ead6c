use super::*;
use std::process::Abort;

/// Whether each key comes before all that follow it, and none before itself or one that precedes it.
fn ascends<O: Order>(rt: &impl Abort, order: &O, keys: &[u64]) {
    for (i, first) in keys.iter().enumerate() {
        assert!(rt; order.is_key(*first));
        for (j, second) in keys.iter().enumerate() {
            assert_eq!(rt; order.before(*first, *second), i < j);
        }
    }
}

#[test]
fn every_number_is_a_key(rt: HostRuntime) {
    ascends(&rt, &NumberOrder, &[0, 1, 255, 65536, u64::MAX]);
}

#[test]
fn lanes_then_places(rt: HostRuntime) {
    // lane 0 at −1, 0 and 2^31 − 1; lane 1 at −2^31, −5 and 0; lane 255 at −1
    ascends(
        &rt,
        &LaneOrder,
        &[
            4_294_967_295,
            0,
            2_147_483_647,
            6_442_450_944,
            8_589_934_587,
            4_294_967_296,
            1_099_511_627_775,
        ],
    );
    assert!(rt; !LaneOrder.is_key(1_099_511_627_776));
    assert!(rt; !LaneOrder.is_key(u64::MAX));
}

#[test]
fn labels_letter_by_letter(rt: HostRuntime) {
    // the empty label, A, AB, ABCDEFGH, B, BA and a label of one letter 255
    ascends(
        &rt,
        &LabelOrder,
        &[0, 65, 16_961, 5_208_208_757_389_214_273, 66, 16_706, 255],
    );
    assert!(rt; !LabelOrder.is_key(256), "a letter after a zero byte");
    assert!(rt; !LabelOrder.is_key(0x4100_0000_0000_0041));
}
