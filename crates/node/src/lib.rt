#![tactic(auto)]
//! What a seat does with the words of one node: it reads its copy, works out where that leads, and drafts an update
//! with the words to write.

mod change;
mod course;
mod draft;
mod fill;
mod node;

pub use course::{Course, course_of};
pub use draft::draft_update;
pub use fill::fill_word;
pub use node::Node;
