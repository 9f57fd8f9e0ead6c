#![tactic(auto)]
//! The data of an index and the rules that it is worked by.
//!
//! The index is a B+-tree of linked nodes of 32 words. Eight *seats* work on it, each with one find or put at a time,
//! and a step of a seat makes at most one access to the memory. This crate has the types of a seat, of what it reports
//! and of why it is refused. The rules of a step, and the laws that every run of calls keeps, are definitions in specs/.

mod access;
mod laws;
mod refusal;
mod report;
mod seat;

pub use access::{Access, Extent};
pub use laws::{runs_are_lawful, worked_examples_hold};
pub use refusal::Refusal;
pub use report::{Outcome, Report, Told};
pub use seat::{Draft, Entry, Operation, Part, Phase, Seat};
