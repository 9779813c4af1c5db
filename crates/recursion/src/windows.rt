// The states that matter.
ghost use Rattle.std.specs.Prelude.{◌≤◌};

// The states of a slot that matter: before it the work done is from low to high. By its end `need` has to be done, and no
// more than `arrived` can be.
#[derive(Clone, Copy)]
pub(crate) struct Window {
    pub(crate) low: usize,
    pub(crate) high: usize,
    pub(crate) need: usize,
    pub(crate) arrived: usize,
    ghost high_small: { high ≤ 65535 },
    ghost arrived_small: { arrived ≤ 65535 },
    ghost need_arrived: { need ≤ arrived },
}
