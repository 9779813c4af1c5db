// The speeds that a stay is opened with.
ghost use Rattle.std.specs.Prelude.{◌≡◌, ◌≤◌, true, [], ◌∷◌, take, is_some, Some, None};
ghost use Rattle.recursion.specs.Speeds.{lawful_speeds, top_of};

use crate::speeds::as_bytes;
use recursion::lawful;

/// A lawful list of speeds, in the first `count` places: two to sixteen, from 0 on, each above the one before, none above 15.
// A fixed array with a count, for the table's reason; no list type is shared with the table, since the facts here are of speeds.
// Clauses say its list as `take count speeds`: a definition would only be one more name.
#[derive(Clone, Copy)]
pub struct SpeedList {
    pub(crate) speeds: [u8; 16],
    pub(crate) count: usize,
    ghost some: { 2 ≤ count },
    ghost few: { count ≤ 16 },
    ghost lawful: { lawful_speeds (take count speeds) ≡ true },
}

impl SpeedList {
    /// The list as a speed list, if it keeps the rules.
    // Public by this name: a `TryFrom` beside it would be a second way.
    #[tactic(auto, using(crate::proofs::Capping::lawful_bytes, crate::proofs::Capping::same_bytes))]
    pub fn from_slice(list: &[u32]) -> Option<SpeedList>
        ensures made { is_some result ≡ lawful_speeds list.now }
        ensures same { elim result [ Some s ↦ take s.count s.speeds ≡ list.now | None ↦ Unit {0} ] }
    {
        // Refused before the list is turned into bytes.
        let [0, _, ..] = list else {
            return None;
        };
        if list.len() > 16 {
            return None;
        }
        let speeds = as_bytes(list);
        let count = list.len();
        if !lawful(&speeds[..count]) {
            return None;
        }
        Some(SpeedList { speeds, count })
    }

    /// The speeds 0 and 1.
    pub(crate) fn nought_and_one() -> SpeedList
        ensures { take result.count result.speeds ≡ 0 ∷ 1 ∷ [] }
    {
        let mut speeds = [0u8; 16];
        speeds[1] = 1;
        SpeedList { speeds, count: 2 }
    }

    /// The fastest speed.
    // One line here, where the list is owned, as where one is lent to planning.
    pub fn top(&self) -> u8
        ensures { result ≡ top_of (take self.now.count self.now.speeds) }
    {
        self.speeds[self.count - 1]
    }

    /// The speeds, from 0 on.
    pub fn listed(&self) -> &[u8]
        ensures { result.now ≡ take self.now.count self.now.speeds }
    {
        &self.speeds[..self.count]
    }
}
