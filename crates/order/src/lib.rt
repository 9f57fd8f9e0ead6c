#![tactic(auto)]
//! Key orders: which words are keys, and which of two keys comes first. Code above knows an order by its meaning
//! alone, the trait `Order`.

mod label;
mod lane;
mod number;
mod order;

pub use label::LabelOrder;
pub use lane::LaneOrder;
pub use number::NumberOrder;
pub use order::Order;

#[cfg(test)]
mod tests;
