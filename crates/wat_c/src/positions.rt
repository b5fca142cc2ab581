//! Lines and columns, counted in the text or found by the offsets of its line feeds, which the
//! caller keeps.
ghost use Rattle.std.specs.Prelude.{◌≡◌, ◌≤◌, ◌<◌, length, take, drop};
ghost use Rattle.std.specs.List.{count_by};
ghost use Rattle.std.specs.Str.{IsUtf8};
ghost use Rattle.wat_lex.specs.errors.LineFeeds.{LineFeeds};
ghost use Rattle.wat_lex.specs.errors.Positions.{is_line_feed, line_and_column};
ghost use Rattle.wat_lex.specs.errors.Positions.{utf16_line_and_column};

use std::str;
use wat_lex::token::{Span, fill_line_feeds, linecol_by, utf16_linecol_by};

/// Line and column of a byte, both starting at 0. A line ends after its line feed.
#[repr(C)]
#[derive(Clone, Copy, Debug, PartialEq)]
pub struct Position {
    /// Number of line feeds before the byte.
    pub line: usize,
    /// Number of bytes, or UTF-16 code units, between the start of the line and the byte.
    pub column: usize,
}

/// Returns the line and column of the byte at `offset`. If `offset` is greater than the length of
/// the text, the line is the number of lines, and the column is 0. Reads the text from its start to
/// `offset`.
#[unsafe(no_mangle)]
pub extern "C" fn wat_line_column(text: &[u8], offset: usize) -> Position
    requires { IsUtf8 text.now }
    ensures line { result.line ≡ (line_and_column text.now offset).0 }
    ensures column { result.column ≡ (line_and_column text.now offset).1 }
{
    let text = unsafe { str::from_utf8_unchecked(text) };
    let (line, column) = Span::from_offset(offset).linecol_in(text);
    Position { line, column }
}

/// Writes the offsets of all line feeds of the text to the front of `out`, in ascending order, and
/// returns their number. If the number is greater than the length of `out`, nothing is written.
#[unsafe(no_mangle)]
pub extern "C" fn wat_line_feeds(text: &[u8], out: &mut [usize]) -> usize
    requires { IsUtf8 text.now }
    ensures count { result ≡ count_by is_line_feed text.now }
    ensures filled { result ≤ length out.old → LineFeeds text.now (take result out.new) }
    ensures after { drop result out.new ≡ drop result out.old }
    ensures short { length out.old < result → out.new ≡ out.old }
{
    fill_line_feeds(text, out)
}

/// Returns the same result as `wat_line_column`, by a binary search in `feeds`, which must be the
/// offsets of all line feeds of the text.
#[unsafe(no_mangle)]
pub extern "C" fn wat_line_column_by(text: &[u8], feeds: &[usize], offset: usize) -> Position
    requires utf8 { IsUtf8 text.now }
    requires feeds { LineFeeds text.now feeds.now }
    ensures line { result.line ≡ (line_and_column text.now offset).0 }
    ensures column { result.column ≡ (line_and_column text.now offset).1 }
{
    let text = unsafe { str::from_utf8_unchecked(text) };
    let (line, column) = linecol_by(text, feeds, offset);
    Position { line, column }
}

/// Returns the line and column of the byte at `offset`, like `wat_line_column_by`, but with the
/// column in UTF-16 code units: those of all characters of the line that begin before `offset`.
#[unsafe(no_mangle)]
pub extern "C" fn wat_utf16_line_column_by(text: &[u8], feeds: &[usize], offset: usize) -> Position
    requires utf8 { IsUtf8 text.now }
    requires feeds { LineFeeds text.now feeds.now }
    ensures line { result.line ≡ (utf16_line_and_column text.now offset).0 }
    ensures column { result.column ≡ (utf16_line_and_column text.now offset).1 }
{
    let text = unsafe { str::from_utf8_unchecked(text) };
    let (line, column) = utf16_linecol_by(text, feeds, offset);
    Position { line, column }
}
