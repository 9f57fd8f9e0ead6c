//! How many entries a node may have.
ghost use Rattle.std.specs.Prelude.{◌≡◌, ◌≤◌, ◌||◌, true, false, MatchResult, nat_lt};
ghost use Rattle.rules.specs.declared.refusal.Refusal.TheVariants.{BadFan};

use rules::Refusal;

/// The most entries of a node, from 3 to 13.
#[derive(Clone, Copy)]
pub(crate) struct Fan {
    pub entries: u8,
    ghost some: { 3 ≤ entries },
    ghost few: { entries ≤ 13 },
}

impl TryFrom<u64> for Fan {
    type Error = Refusal;

    ghost try_from_gives = { λ n r. MatchResult r (λ f. (f.entries ≡ n) × ((nat_lt n 3 || nat_lt 13 n) ≡ false)) (λ e. (e ≡ BadFan) × ((nat_lt n 3 || nat_lt 13 n) ≡ true)) };

    fn try_from(entries: u64) -> Result<Fan, Refusal> {
        match entries {
            3..=13 => Ok(Fan {
                entries: entries as u8,
            }),
            _ => Err(Refusal::BadFan),
        }
    }
}
