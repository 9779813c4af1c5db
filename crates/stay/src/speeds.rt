// A list of speeds as bytes.
ghost use Rattle.std.specs.Prelude.{◌≡◌, ◌≤◌, length, take, map};
ghost use Rattle.stay.specs.Capped.{capped};

/// The speeds as bytes, in the first places; one that fits no byte as the largest byte, which is no lawful speed either.
pub(crate) fn as_bytes(list: &[u32]) -> [u8; 16]
    requires { length list.now ≤ 16 }
    ensures { take (length list.now) result ≡ map capped list.now }
{
    // A fixed array, by index: the list may be shorter, and behind `take` on `iter_mut` a proof knows no element.
    let mut speeds = [0u8; 16];
    for (i, speed) in list.iter().enumerate() {
        speeds[i] = (*speed).min(255) as u8;
    }
    speeds
}
