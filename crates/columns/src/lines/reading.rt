//! How a reader finds its lines.

ghost use Rattle.std.specs.Prelude.{◌≡◌, ◌+◌, ◌-◌, [], ◌∷◌, length, MatchOption, slice_index_or};
ghost use Rattle.std.specs.Iterator.{YieldsFirstBy, at_most};
ghost use Rattle.columns.specs.Lines.{first_line, lines};
ghost use Rattle.columns.specs.Reading.{file_of, lines_given, lines_left, numbered, numbered_left};

use super::{Line, Reader};

/// How many bytes stand before the first newline, or in all where there is none.
// One expression, as `blanks` is: a function of both would have a contract that ranges over tests.
fn line_length(bytes: &[u8]) -> usize
    ensures { result ≡ length (first_line bytes.now) }
{
    bytes
        .iter()
        .position(|byte| *byte == b'\n')
        .unwrap_or(bytes.len())
}

impl<'a> Reader<'a> {
    /// A reader that has given no line yet.
    pub fn new(bytes: &'a [u8]) -> Reader<'a>
        ensures file { file_of result ≡ bytes.now }
        ensures left { lines_left result ≡ lines bytes.now }
        ensures given { lines_given result ≡ 0 }
    {
        Reader {
            bytes,
            place: 0,
            given: 0,
        }
    }

    /// The next line and its number, or `None` once there is none left, and then for ever.
    pub fn next_line(&mut self) -> Option<Line<'a>>
        ensures file { file_of self.new ≡ file_of self.old }
        ensures left { MatchOption result
            (lines_left self.old ≡ [])
            (λ l. lines_left self.old ≡ l.bytes.now ∷ lines_left self.new) }
        ensures numbered { MatchOption result
            (self.new ≡ self.old)
            (λ l. (lines_given self.new ≡ lines_given self.old + 1)
            × (l.number ≡ lines_given self.new)
            × (l.bytes.now ≡ slice_index_or (lines (file_of self.old)) (lines_given self.old) [])) }
    {
        let rest = &self.bytes[self.place..];
        if rest.is_empty() {
            return None;
        }
        let width = line_length(rest);
        let line = &rest[..width];
        self.place = (self.place + width + 1).min(self.bytes.len());
        self.given += 1;
        Some(Line {
            number: self.given,
            bytes: line,
        })
    }
}

/// The lines that are left, as `next_line` gives them, for a `for` and for chains.
impl<'a> Iterator for Reader<'a> {
    type Item = Line<'a>;

    ghost next_gives = { YieldsFirstBy numbered numbered_left };

    // Each line takes at least one byte.
    ghost remaining = { λ reader. at_most (length (file_of reader) - lines_given reader) };

    fn next(&mut self) -> Option<Line<'a>> {
        self.next_line()
    }
}
