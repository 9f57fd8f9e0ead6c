ghost use Rattle.order.specs.Number.{number_key, number_before};
ghost use Rattle.order.specs.NumberLaws.{number_ordered};

use super::Order;

/// Every word is a key, and the smaller comes first.
#[derive(Clone, Copy, PartialEq, Eq, Debug, Default)]
pub struct NumberOrder;

impl Order for NumberOrder {
    ghost iskey = { λ _. number_key };

    ghost before = { λ _. number_before };

    ghost ordered = { λ _. number_ordered };

    fn is_key(&self, _word: u64) -> bool {
        true
    }

    fn before(&self, first: u64, second: u64) -> bool {
        first < second
    }
}
