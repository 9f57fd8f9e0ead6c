//! What the calls of a trial answered.

use super::digest::Digest;
use rules::{Refusal, Report, Told};
use std::fmt;

/// How often each number was answered, and the digest of all answers.
#[derive(Clone, Copy, Default)]
pub(crate) struct Tally {
    counts: [u64; 32],
    digest: Digest,
}

impl Tally {
    /// Takes one answer more.
    pub(crate) fn note(&mut self, answer: Result<Report, Refusal>) {
        let Told { number, node, word } = Told::from(answer);
        if let Some(count) = self.counts.get_mut(number as usize) {
            *count = count.saturating_add(1);
        }
        for told in [number, node, word] {
            self.digest.add(told);
        }
    }

    /// Takes the word of a cell into the digest.
    pub(crate) fn note_cell(&mut self, word: u64) {
        self.digest.add(word);
    }
}

/// The counts that are not 0, and the digest, each after a space.
impl fmt::Display for Tally {
    fn fmt<W: fmt::Write>(&self, f: &mut fmt::Formatter<W>) -> fmt::Result {
        for (number, count) in self.counts.iter().enumerate() {
            if *count > 0 {
                write!(f, " {number}:{count}")?;
            }
        }
        let digest = u64::from(self.digest);
        write!(f, " digest {digest}")
    }
}
