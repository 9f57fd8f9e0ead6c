#![tactic(auto)]
//! A B+-tree index that eight seats work on, one memory access to a step.

mod access;
mod fan;
mod index;
mod seat;

pub use index::Index;
