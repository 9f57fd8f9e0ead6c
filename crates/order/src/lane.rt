ghost use Rattle.std.specs.Prelude.{◌≡◌};
ghost use Rattle.order.specs.Lane.{lane as lane_of, place as place_of, lane_key, lane_before};
ghost use Rattle.order.specs.LaneLaws.{lane_ordered};

use super::Order;

/// A key is a lane of 8 bits above a place of 32 bits in two's complement. The lower lane comes first, and within a
/// lane the lower place.
#[derive(Clone, Copy, PartialEq, Eq, Debug, Default)]
pub struct LaneOrder;

/// The lane of a key.
fn lane(key: u64) -> u64
    ensures { result ≡ lane_of key }
{
    key / 0x1_0000_0000
}

/// The place of a key in its lane, in millimetres.
fn place(key: u64) -> i32
    ensures { result ≡ place_of key }
{
    let low = (key % 0x1_0000_0000) as u32;
    low.cast_signed()
}

impl Order for LaneOrder {
    ghost iskey = { λ _. lane_key };

    ghost before = { λ _. lane_before };

    ghost ordered = { λ _. lane_ordered };

    fn is_key(&self, word: u64) -> bool {
        word < 0x100_0000_0000
    }

    fn before(&self, first: u64, second: u64) -> bool {
        (lane(first), place(first)) < (lane(second), place(second))
    }
}
