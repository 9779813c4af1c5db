// The limits of a stay.
pub(crate) const MOST_SLOTS: usize = 96;

pub(crate) const MOST_JOBS: usize = 64;
/// Units, of one job and of all open ones.
pub(crate) const MOST_WORK: u32 = 600;

pub(crate) const LARGEST_NUMBER: u32 = 999_999;
