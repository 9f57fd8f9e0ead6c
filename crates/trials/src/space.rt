//! Keys, values and seats of draws.

use super::scenario::OrderKind;
use std::num::NonZeroU64;

/// The keys that a trial draws from: so many, of an order, cut to the width of the top word.
#[derive(Clone, Copy)]
pub(crate) struct Space {
    pub order: OrderKind,
    pub keys: NonZeroU64,
    pub top: u64,
}

/// The letters of an index, the first in the lowest byte.
fn letters(index: u64) -> u64 {
    let mut letters = [0; 8];
    let mut rest = index;
    for letter in &mut letters {
        let Some(n) = rest.checked_sub(1) else {
            break;
        };
        *letter = 15 + 16 * (n & 15) as u8;
        rest = n >> 4;
    }
    u64::from_le_bytes(letters)
}

/// The words that are given now and then whether they are keys or not.
const ODD: [u64; 8] = [
    65_535,
    65_536,
    4_294_967_295,
    4_294_967_296,
    1_099_511_627_775,
    1_099_511_627_776,
    256,
    u64::MAX,
];

impl Space {
    /// The key of an index.
    pub(crate) fn key(&self, index: u64) -> u64 {
        let wide = match self.order {
            OrderKind::Number => index.wrapping_mul(0x9E37_79B9_7F4A_7C15),
            OrderKind::Lane => {
                let lane = (index & 3).wrapping_mul(85) << 32;
                lane | ((index >> 2).wrapping_sub(self.keys.get() >> 3) & 0xFFFF_FFFF)
            }
            OrderKind::Label => letters(index),
        };
        wide & self.top
    }

    /// The key of a draw.
    pub(crate) fn key_of(&self, draw: u64) -> u64 {
        if draw >> 58 == 0 {
            return ODD[((draw >> 55) & 7) as usize];
        }
        self.key_in(draw & 0xFFFF_FFFF)
    }

    /// The key of a number, counted round and round the key space.
    pub(crate) fn key_in(&self, number: u64) -> u64 {
        self.key(number % self.keys.get())
    }

    /// The value of a draw.
    pub(crate) fn value_of(&self, draw: u64) -> u64 {
        match draw >> 58 {
            0 => self.top.wrapping_add(1),
            1 => self.top,
            _ => draw & self.top,
        }
    }
}

/// The seat of a draw; now and then one that is none.
pub(crate) fn seat_of(draw: u64) -> u64 {
    let seat = (draw >> 16) & 7;
    if (draw >> 24) & 255 == 0 {
        seat + 8
    } else {
        seat
    }
}
