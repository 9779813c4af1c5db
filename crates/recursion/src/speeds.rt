// Lists of speeds that keep their rules.
ghost use Rattle.std.specs.Prelude.{◌≡◌, ◌-◌, true, false, length, take, drop, slice_index, MatchResult};
ghost use Rattle.recursion.specs.Speeds.{rises_from, lawful_speeds, top_of};
ghost use Rattle.recursion.specs.declared.unplanned.Unplanned.TheVariants.{Speeds};

use super::Unplanned;

// Whether each speed is above the one before it.
fn rises(speeds: &[u8]) -> bool
    ensures { result ≡ rises_from (slice_index speeds.now 0) (drop 1 speeds.now) }
{
    speeds.is_sorted_by(|a, b| a < b)
}

/// Whether the list keeps the rules of a list of speeds: 2 to 16 of them, from 0, rising strictly, to 15 or less.
pub fn lawful(speeds: &[u8]) -> bool
    ensures { result ≡ lawful_speeds speeds.now }
{
    match speeds {
        [0, .., last] if speeds.len() <= 16 && rises(speeds) => *last <= 15,
        _ => false,
    }
}

// A list of speeds that keeps the rules.
#[derive(Clone, Copy)]
pub(crate) struct LawfulSpeeds<'a> {
    pub(crate) listed: &'a [u8],
    ghost lawful: { lawful_speeds listed.now ≡ true },
}

impl<'a> TryFrom<&'a [u8]> for LawfulSpeeds<'a> {
    type Error = Unplanned;

    ghost try_from_gives = { λ s r. MatchResult r (λ l. l.listed.now ≡ s.now) (λ e. (e ≡ Speeds) × (lawful_speeds s.now ≡ false)) };

    fn try_from(speeds: &'a [u8]) -> Result<Self, Unplanned> {
        if lawful(speeds) {
            Ok(LawfulSpeeds { listed: speeds })
        } else {
            Err(Unplanned::Speeds)
        }
    }
}

impl<'a> LawfulSpeeds<'a> {
    // The fastest speed: one line here, where the list is lent, as where one is owned.
    pub(crate) fn top(self) -> u8
        ensures { result ≡ top_of self.entry.listed.now }
    {
        self.listed[self.listed.len() - 1]
    }

    // The speeds below the fastest.
    pub(crate) fn below_top(self) -> &'a [u8]
        ensures { result.now ≡ take (length self.entry.listed.now - 1) self.entry.listed.now }
    {
        &self.listed[..self.listed.len() - 1]
    }
}
