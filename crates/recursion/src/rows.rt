// One row of the recursion: what is least from a slot on, at each work done that matters.
ghost use Rattle.std.specs.Prelude.{◌≡◌, ℕ, ◌+◌, ◌-◌, ◌<◌, ◌≤◌, min, length, slice_index, slice_index_or};
ghost use Rattle.recursion.specs.Staged.{best, lower};
ghost use Rattle.recursion.specs.Rows.{Lowered, offer, Picked};
ghost use Rattle.recursion.specs.Speeds.{top_of};

use super::speeds::LawfulSpeeds;
use super::windows::Window;
use measure::Measure;
use tariff::Tariff;

// The measure of the charge of a slot at a speed.
fn measure_at<T: Tariff, M: Measure>(tariff: &T, slot: usize, speed: u8) -> M
    requires { (slot ≤ 95) × (speed ≤ 15) }
    ensures { result ≡ M.Measure.kind.of (T.Tariff.charge tariff.now slot speed) }
{
    M::of(tariff.charge_for(slot as u32, speed as u32))
}

// What a measure comes to with the least of the slots after, at the work done by then.
fn with_rest<M: Measure>(measure: M, next: &[M], done: usize) -> M
    requires { done < length next.now }
    ensures { result ≡ M.Measure.kind.join measure (slice_index_or next.now done M.Measure.kind.nought) }
{
    measure.join(next[done])
}

// Starts a row with one speed, which does at least as much as is needed.
fn start_row<M: Measure>(
    speed: u8,
    measure: M,
    window: Window,
    next: &[M],
    row: &mut [M],
    picks: &mut [u8],
)
    requires inside { (window.arrived < length next.now) × (window.high < length row.old) × (window.high < length picks.old) }
    requires enough { window.need ≤ window.low + speed }
    ensures { (e : ℕ) → window.low ≤ e → e ≤ window.high → best (slice_index picks.new e) (slice_index_or row.new e M.Measure.kind.nought) ≡ offer M.Measure.kind measure window.arrived window.need next.now speed e }
{
    // By index: two slices are written in step, and behind a `zip` of `iter_mut` a proof knows no element. Apart they are no
    // plainer: `fill` for one, a function for the other, and a cut of each, which needs low ≤ high + 1 where a loop does not.
    for done in window.low..window.high + 1 {
        let then = (done + speed as usize).min(window.arrived);
        row[done] = with_rest(measure, next, then);
        picks[done] = speed;
    }
}

// Whether what a lower speed comes to takes the place of what is held: so it does where they are level.
fn takes_place<M: Measure>(here: M, held: M) -> bool
    ensures { result ≡ M.Measure.kind.not_above here held }
{
    here.not_above(held)
}

// Lowers a row by one speed at each work done from `from` to before `to`, where `outcome` says what it comes to.
fn lower_between<M: Measure, F: Fn(usize) -> M>(
    speed: u8,
    outcome: F,
    from: usize,
    to: usize,
    row: &mut [M],
    picks: &mut [u8],
)
    requires inside { (from ≤ to) × (to ≤ length row.old) × (to ≤ length picks.old) }
    requires callable { (e : ℕ) → from ≤ e → e < to → F.pre outcome e }
    ensures { (f : ℕ → M) → ((e : ℕ) (m : M) → from ≤ e → e < to → F.post outcome e m → m ≡ f e) → Lowered M.Measure.kind (λ e. best speed (f e)) from to picks.old row.old picks.new row.new }
{
    // By index: two slices are written in step, as `outcome` says; behind a `zip` of `iter_mut` a proof knows no element.
    for done in from..to {
        let here = outcome(done);
        if takes_place(here, row[done]) {
            row[done] = here;
            picks[done] = speed;
        }
    }
}

// Lowers a row by one speed: not where it does less than is needed, in full where that leaves work, at once from there on.
fn lower_row<M: Measure>(
    speed: u8,
    measure: M,
    window: Window,
    next: &[M],
    row: &mut [M],
    picks: &mut [u8],
)
    requires inside { (window.arrived < length next.now) × (window.high < length row.old) × (window.high < length picks.old) }
    ensures { (e : ℕ) → window.low ≤ e → e ≤ window.high → best (slice_index picks.new e) (slice_index_or row.new e M.Measure.kind.nought) ≡ lower M.Measure.kind (offer M.Measure.kind measure window.arrived window.need next.now speed e) (best (slice_index picks.old e) (slice_index_or row.old e M.Measure.kind.nought)) }
{
    let s = speed as usize;
    let end = window.high + 1;
    let from = window.need.saturating_sub(s).max(window.low).min(end);
    let mid = (window.arrived + 1).saturating_sub(s).max(from).min(end);
    let all = with_rest(measure, next, window.arrived);
    lower_between(
        speed,
        |done| with_rest(measure, next, done + s),
        from,
        mid,
        row,
        picks,
    );
    lower_between(speed, |_| all, mid, end, row, picks);
}

// Fills the row of a slot from that of the next one: at each work done of the window the lowest speed that comes to the
// least, of those that do as much as is needed. Top speed does as much from the low on. The speeds are taken from the top
// down, each over the whole row.
// Window, rows and picks are no struct: tried, and the caller's proof did not close, on what the slices hold once the struct
// is gone.
pub(crate) fn fill_row<T: Tariff, M: Measure>(
    tariff: &T,
    speeds: LawfulSpeeds,
    slot: usize,
    window: Window,
    next: &[M],
    row: &mut [M],
    picks: &mut [u8],
)
    requires slots { slot ≤ 95 }
    requires inside { (window.arrived < length next.now) × (window.high < length row.old) × (window.high < length picks.old) }
    requires enough { window.need ≤ window.low + top_of speeds.listed.now }
    ensures { Picked M.Measure.kind (T.Tariff.charge tariff.now slot) window.arrived window.need next.now speeds.entry.listed.now window.low window.high row.new picks.new }
{
    let top = speeds.top();
    start_row(top, measure_at(tariff, slot, top), window, next, row, picks);
    for speed in speeds.below_top().iter().rev() {
        lower_row(
            *speed,
            measure_at(tariff, slot, *speed),
            window,
            next,
            row,
            picks,
        );
    }
}
