//! Laws over the definitions that the contracts of this crate cite. A function that ends in `holds` does nothing: its
//! contract is the law.

ghost use Rattle.std.specs.Prelude.{◌≡◌, ◌+◌, ◌<◌, ◌≤◌, [], length, MatchOption, slice_index_or};
ghost use Rattle.columns.specs.Laws.{BytesInOneLine, FieldsInOrder, LastNewlineIsFree, LinesJoin, OnlyWrittenReads, WrittenReadsBack};
ghost use Rattle.columns.specs.Lines.{lines};

use crate::lines::{Line, Reader};

/// The lines of a file joined by newlines are the file, but for one last newline.
pub fn lines_join_holds()
    ensures { LinesJoin }
{}

/// A newline added to a file that ends in another byte changes no line.
pub fn last_newline_holds()
    ensures { LastNewlineIsFree }
{}

/// Every byte that is no newline is in exactly one line.
pub fn bytes_in_one_line_holds()
    ensures { BytesInOneLine }
{}

/// A line answers all its numbers in order, or is refused for its length, or for the first bad field from the left.
pub fn fields_in_order_holds()
    ensures { FieldsInOrder }
{}

/// A number that fits is read back from where it was written.
pub fn written_reads_back_holds()
    ensures { WrittenReadsBack }
{}

/// A field that is read holds just the bytes that its number is written as.
pub fn only_written_reads_holds()
    ensures { OnlyWrittenReads }
{}

/// What a new reader answers after it was asked so many times before: a file's lines in order, and then `None` for ever.
pub fn answer_after<'a>(file: &'a [u8], asked: usize) -> Option<Line<'a>>
    ensures { MatchOption result
        (length (lines file.now) ≤ asked)
        (λ l. (asked < length (lines file.now))
        × (l.number ≡ asked + 1)
        × (l.bytes.now ≡ slice_index_or (lines file.now) asked [])) }
{
    let mut reader = Reader::new(file);
    for _ in 0..asked {
        let _ = reader.next_line();
    }
    reader.next_line()
}
