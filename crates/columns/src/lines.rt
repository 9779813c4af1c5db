//! The lines of a file, read from the caller's bytes one after another.

mod reading;

ghost use Rattle.std.specs.Prelude.{◌≡◌, ◌≤◌, length, drop};
ghost use Rattle.columns.specs.Lines.{lines};

/// A line of a file: its number, counted from 1, and its bytes without the newline, which are the caller's own.
#[derive(Clone, Copy, PartialEq, Eq, Debug)]
pub struct Line<'a> {
    pub number: usize,
    pub bytes: &'a [u8],
}

/// A place in the caller's bytes, and how many lines were given. What stands behind the place holds the other lines.
#[derive(Drop)]
pub struct Reader<'a> {
    bytes: &'a [u8],
    place: usize,
    given: usize,
    ghost inside: { place ≤ length bytes.now },
    ghost counted: { given ≤ place },
    ghost ordered: { lines (drop place bytes.now) ≡ drop given (lines bytes.now) },
}
