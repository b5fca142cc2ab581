//! Computes the lines and columns of increasing offsets.
ghost use Rattle.std.specs.Prelude.{◌≡◌, ◌++◌, ◌+◌, ◌<◌, ◌≤◌, ◌^◌, length, codes};
ghost use Rattle.std.specs.Str.{IsCharBoundary};
ghost use Rattle.wat_lex.specs.errors.Positions.{line_and_column};
ghost use Rattle.wat_tokens_io.specs.JsonRows.{json_tail, json_head};
ghost use Rattle.wat_tokens_io.specs.TextLines.{EndsLine, IsLine};

use crate::block::Block;
use crate::line::Place;
use memchr::memchr;
use std::marker::Model;
use wat_lex::lexer::Token;
use wat_lex::token::Span;

/// A line of a text.
#[derive(Clone, Copy)]
struct Line {
    /// Number of the line, counted from 0.
    number: usize,
    /// Byte offset of its first byte.
    start: usize,
    /// Byte offset of its line feed, or the length of the text.
    end: usize,
}

/// Returns the offset of the first line feed from `start` on, or the length of the text.
fn line_end(text: &[u8], start: usize) -> usize
    requires { start ≤ length text.now }
    ensures { EndsLine text.now start result }
{
    match memchr(b'\n', &text[start..]) {
        Some(len) => start + len,
        None => text.len(),
    }
}

/// Returns the line that contains `offset`, searching forward from `line`, which must not start
/// after `offset`.
#[inline(never)]
fn line_from(text: &[u8], line: Line, offset: usize) -> Line
    requires short { length text.now < 2 ^ 32 }
    requires line { IsLine text.now line.number line.start line.end }
    requires after { line.start ≤ offset }
    requires within { offset ≤ length text.now }
    ensures line { IsLine text.now result.number result.start result.end }
    ensures start { result.start ≤ offset }
    ensures end { offset ≤ result.end }
{
    let mut line = line;
    while line.end < offset {
        let start = line.end + 1;
        line = Line {
            number: line.number + 1,
            start,
            end: line_end(text, start),
        };
    }
    line
}

/// A text with the line that was found last. Lines and columns of increasing offsets are found in
/// linear time overall, as each search begins at that line.
#[derive(Drop)]
pub struct Positions<'a> {
    /// The text.
    text: &'a str,
    /// The line at which the next search begins.
    line: Line,
    /// The offset that was written last, with its digits.
    offset_place: Place,
    /// The line number that was written last, with its digits.
    line_place: Place,
}

impl<'a> Model for Positions<'a> {
    ghost use Rattle.std.specs.Prelude.{◌<◌, ◌^◌, ℕ, List, length};
    ghost use Rattle.wat_tokens_io.specs.TextLines.{IsLine};

    ghost Value = { List ℕ };

    ghost view = { λ p. p.text.now };

    ghost invariant = { λ p. (length p.text.now < 2 ^ 32)
        × IsLine p.text.now p.line.number p.line.start p.line.end };
}

impl<'a> Positions<'a> {
    /// Creates the positions of a text. The first search begins at its first line.
    pub fn new(text: &'a str) -> Positions<'a>
        requires { length text.now < 2 ^ 32 }
        ensures { result ≡ text.now }
    {
        Positions {
            text,
            line: Line {
                number: 0,
                start: 0,
                end: line_end(text.as_bytes(), 0),
            },
            offset_place: Place::start(),
            line_place: Place::start(),
        }
    }

    /// Returns the text.
    pub fn text(&self) -> &'a str
        ensures text { result.now ≡ self.now }
        ensures short { length result.now < 2 ^ 32 }
    {
        self.text
    }

    /// Returns the line and column of an offset, as [`Span::linecol_in`] does: both count from 0,
    /// and the column is in bytes. An offset before the line that was found last is searched for
    /// from the start of the text. `offset` must be a char boundary.
    pub fn linecol(&mut self, offset: usize) -> (usize, usize)
        requires { IsCharBoundary self.old offset }
        ensures place { result ≡ line_and_column self.old offset }
        ensures line { result.0 < 2 ^ 32 }
        ensures column { result.1 < 2 ^ 32 }
        ensures text { self.new ≡ self.old }
    {
        if offset < self.line.start {
            return Span::from_offset(offset).linecol_in(self.text);
        }
        if self.line.end < offset {
            self.line = line_from(self.text.as_bytes(), self.line, offset);
        }
        (self.line.number, offset - self.line.start)
    }

    /// Appends the members of a token's JSON object before its text, without the start of the line,
    /// and the quotation mark that opens the text, to the block. At least 96 bytes must be free.
    #[inline(always)]
    pub(crate) fn push_head(&mut self, block: &mut Block, token: &Token)
        requires room { length block.old + 96 ≤ 65536 }
        requires short { token.now.offset + token.now.len < 2 ^ 32 }
        ensures put { block.new ≡ block.old ++ (json_head token.now ++ codes "\"") }
        ensures text { self.new ≡ self.old }
    {
        block.push_head(&mut self.offset_place, token);
    }

    /// Appends the quotation mark that closes a token's text, and the members of its JSON object
    /// after the text, to the block. `line` and `column` count from 0. At least 96 bytes must be
    /// free.
    #[inline(always)]
    pub(crate) fn push_tail(&mut self, block: &mut Block, line: usize, column: usize)
        requires room { length block.old + 96 ≤ 65536 }
        requires line { line < 2 ^ 32 }
        requires column { column < 2 ^ 32 }
        ensures put { block.new ≡ block.old ++ (codes "\"" ++ json_tail (line, column)) }
        ensures text { self.new ≡ self.old }
    {
        block.push_tail(&mut self.line_place, line, column);
    }
}
