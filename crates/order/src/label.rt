ghost use Rattle.order.specs.Label.{label_key, label_before};
ghost use Rattle.order.specs.LabelLaws.{label_ordered};

use super::Order;

/// A key is a label of at most eight letters, the first in the lowest byte, with only zeros after a zero byte. Labels
/// compare letter by letter, as byte numbers; an ended label comes before one that goes on.
#[derive(Clone, Copy, PartialEq, Eq, Debug, Default)]
pub struct LabelOrder;

impl Order for LabelOrder {
    ghost iskey = { λ _. label_key };

    ghost before = { λ _. label_before };

    ghost ordered = { λ _. label_ordered };

    #[tactic(auto, using(crate::proofs::Labels::full_bytes))]
    fn is_key(&self, word: u64) -> bool {
        match word.to_le_bytes().iter().position(|letter| *letter == 0) {
            // eight letters
            None => true,
            // only zeros follow a zero byte
            Some(end) => word >> (8 * end) == 0,
        }
    }

    #[tactic(auto, using(crate::proofs::Labels::leads_swapped))]
    fn before(&self, first: u64, second: u64) -> bool {
        // with the first letter in the highest byte
        first.swap_bytes() < second.swap_bytes()
    }
}
