//! Decimal numbers written into fixed columns of the caller's page.

ghost use Rattle.std.specs.Prelude.{◌≡◌, ◌≤◌, length, decimal, is_ok};
ghost use Rattle.columns.specs.Numbers.{fits, justified, written};

/// The number has more digits than its part has columns, or the page ends before the part does.
#[derive(Clone, Copy, PartialEq, Eq, Debug)]
pub struct DoesNotFit;

/// How many digits the number has.
fn digit_count(value: u64) -> usize
    ensures { result ≡ length (decimal value) }
{
    // 0 has no logarithm, and one digit.
    value.checked_ilog10().unwrap_or(0) as usize + 1
}

/// Writes the digits of the number over all of the bytes, which are as many.
fn put_digits(bytes: &mut [u8], value: u64)
    requires { length bytes.old ≡ length (decimal value) }
    ensures { bytes.new ≡ decimal value }
{
    let mut rest = value;
    // By index: behind `iter_mut().rev()`, as behind `write!` into a slice, a proof knows none of the bytes.
    for k in (0..bytes.len()).rev() {
        bytes[k] = b'0' + (rest % 10) as u8;
        rest /= 10;
    }
}

/// Fills the whole part: the number at its end, and blanks before it.
fn fill(part: &mut [u8], value: u64)
    requires { length (decimal value) ≤ length part.old }
    ensures { part.new ≡ justified (length part.old) value }
{
    let front = part.len() - digit_count(value);
    part[..front].fill(b' ');
    put_digits(&mut part[front..], value);
}

/// Writes the number right-justified into the `width` columns behind the first `at` bytes of the page. Where the number has
/// more digits, or the page ends before the part does, it writes nothing.
pub fn put_number(page: &mut [u8], at: usize, width: usize, value: u64) -> Result<(), DoesNotFit>
    ensures done { is_ok result ≡ fits page.old at width value }
    ensures bytes { page.new ≡ written page.old at width value }
{
    let digits = digit_count(value);
    if digits > width || at > page.len() || width > page.len() - at {
        return Err(DoesNotFit);
    }
    fill(&mut page[at..at + width], value);
    Ok(())
}
