//! Decimal numbers in fixed columns, read where they stand.

ghost use Rattle.std.specs.Prelude.{◌≡◌, ◌≤◌, length, drop, sum, ◌==◌};
ghost use Rattle.columns.specs.Fields.{after_blanks, can_hold, digits_behind, field_at, field_value, fields_from, line_fields, starts_well};

use crate::faults::{FieldFault, LineFault};
use crate::lines::Line;

/// How many blanks stand in front.
// One expression, as `line_length` is.
fn blanks(bytes: &[u8]) -> usize
    ensures inside { result ≤ length bytes.now }
    ensures behind { drop result bytes.now ≡ after_blanks bytes.now }
{
    bytes
        .iter()
        .position(|byte| *byte != b' ')
        .unwrap_or(bytes.len())
}

/// The number that digits alone write; few enough that it fits.
#[tactic(auto, using(crate::proofs::FieldFacts::power_within))]
fn digits(bytes: &[u8]) -> Option<u32>
    requires { length bytes.now ≤ 9 }
    ensures { result ≡ digits_behind 0 bytes.now }
{
    let mut n = 0;
    for byte in bytes {
        n = n * 10 + char::from(*byte).to_digit(10)?;
    }
    Some(n)
}

/// Whether a number may start so: with at least one byte, and with a 0 only if that is all.
fn starts_well(text: &[u8]) -> bool
    ensures { result ≡ starts_well text.now }
{
    match text {
        [] => false,
        [_] => true,
        [first, ..] => *first != b'0',
    }
}

/// The number in a field with these bytes, which are at most nine.
fn value(bytes: &[u8]) -> Option<u32>
    requires { length bytes.now ≤ 9 }
    ensures { result ≡ field_value bytes.now }
{
    let text = &bytes[blanks(bytes)..];
    // An `if`: `then` and `flatten` would say no more.
    if starts_well(text) {
        digits(text)
    } else {
        None
    }
}

/// Whether a field is wholly inside the line, and at most nine columns wide.
fn can_hold(bytes: &[u8], column: usize, width: usize) -> bool
    ensures { result ≡ can_hold bytes.now column width }
{
    column >= 1 && column - 1 <= bytes.len() && width <= bytes.len() - (column - 1) && width <= 9
}

/// Whether a line has just the columns of fields with these widths.
fn has_columns(bytes: &[u8], widths: &[usize]) -> bool
    ensures { result ≡ (sum widths.now == length bytes.now) }
{
    let left = widths
        .iter()
        .try_fold(bytes.len(), |left, width| left.checked_sub(*width));
    left == Some(0)
}

impl Line<'_> {
    /// The number in the field of `width` columns that starts in `column`, counted from 1. A field that is not wholly inside
    /// the line, or is wider than nine columns, is no number.
    pub fn field(self, column: usize, width: usize) -> Result<u32, FieldFault>
        ensures { result ≡ field_at self.entry.number self.entry.bytes.now column width }
    {
        let fault = FieldFault::NoNumber {
            line: self.number,
            column,
        };
        if !can_hold(self.bytes, column, width) {
            return Err(fault);
        }
        value(&self.bytes[column - 1..column - 1 + width]).ok_or(fault)
    }

    /// The numbers of fields side by side from the first column on, or the first fault from the left.
    fn numbers<const N: usize>(self, widths: [usize; N]) -> Result<[u32; N], FieldFault>
        requires { sum widths ≤ length self.bytes.now }
        ensures { result ≡ fields_from self.entry.number self.entry.bytes.now 1 widths.entry }
    {
        let mut numbers = [0; N];
        let mut column = 1;
        // By index: one of the two lists has to go so, since behind a `zip` a proof knows no element of the array.
        for (i, width) in widths.iter().enumerate() {
            numbers[i] = self.field(column, *width)?;
            column += *width;
        }
        Ok(numbers)
    }

    /// The numbers of the line by the widths of its fields, which stand side by side. A line that has not just these columns
    /// is refused before any field is looked at, and then for the first field from the left that is no number. A field of no
    /// column, or of more than nine, is no number whatever the line has there.
    pub fn fields<const N: usize>(self, widths: [usize; N]) -> Result<[u32; N], LineFault>
        ensures { result ≡ line_fields self.entry.number self.entry.bytes.now widths.entry }
    {
        if !has_columns(self.bytes, &widths) {
            return Err(LineFault::Length { line: self.number });
        }
        Ok(self.numbers(widths)?)
    }
}
