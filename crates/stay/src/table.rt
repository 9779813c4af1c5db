// The job table, for elements of any type.
ghost use Rattle.std.specs.Prelude.{◌≡◌, ◌<◌, ◌≤◌, ⊤, take, slice_index_or, slice_set};
ghost use Rattle.std.specs.Borrow.{sem, follows};

use crate::limits::MOST_JOBS;
use std::alloc::AllocError;

/// Up to 64 jobs: those in the first `count` places.
// A fixed array with a count: the library takes no memory and stands on `std` alone, so neither `Vec` nor `arrayvec`.
#[derive(Copy)]
pub(crate) struct Table<T> {
    pub(crate) jobs: [T; MOST_JOBS],
    pub(crate) count: usize,
    ghost few: { count ≤ 64 },
}

// Not derived: a struct that is generic in a type and has a ghost field has no derived `Clone`.
impl<T: Copy> Clone for Table<T> {
    ghost is_clone = { λ table copy. copy ≡ table };

    ghost is_infallible = { λ _. ⊤ };

    fn clone(&self) -> Result<Table<T>, AllocError> {
        Ok(*self)
    }
}

impl<T> Table<T> {
    ghost use Rattle.stay.specs.contracts.table.Table.{the_row};

    /// The open jobs, in their order.
    pub(crate) fn open(&self) -> &[T]
        ensures { result.now ≡ take self.now.count self.now.jobs }
    {
        &self.jobs[..self.count]
    }

    /// Lends the job at a place. The first clause says that what is written through the loan stands at that place
    /// afterwards, and that nothing else changes; the second, what is lent.
    pub(crate) fn job_mut(&mut self, i: usize) -> &mut T
        requires { i < 64 }
        ensures* follows { sem 𝓛 (follows (the_row T.row) T.row self.entry.ghost_name result.ghost_name (λ w. record { jobs = slice_set self.old.jobs i w; count = self.old.count; few = self.old.few })) }
        ensures value { (d : T) → result.now ≡ slice_index_or self.old.jobs i d }
    {
        &mut self.jobs[i]
    }
}
