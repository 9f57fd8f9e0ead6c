ghost use Rattle.std.specs.Prelude.{◌≡◌, ℕ, Bool};
ghost use Rattle.order.specs.Laws.{Ordered};

/// Which words are keys, and which of two keys comes first. The answers depend on the order and the words alone.
/// An order means its two tests, `iskey` and `before`, and shows by `ordered` that they keep the three laws.
pub trait Order {
    ghost iskey: { Self → ℕ → Bool };

    ghost before: { Self → ℕ → ℕ → Bool };

    ghost ordered: { (o : Self) → Ordered (iskey o) (before o) };

    /// Whether a word is a key.
    fn is_key(&self, word: u64) -> bool
        ensures { result ≡ iskey self.now word };

    /// Whether the first of two keys comes before the second.
    fn before(&self, first: u64, second: u64) -> bool
        ensures { result ≡ before self.now first second };
}
