//! The source line that an error is about.
ghost use Rattle.std.specs.Prelude.{◌≡◌, [], IfOk, flat_map, slice_get, unwrap_or};
ghost use Rattle.std.specs.Str.{chars};
ghost use Rattle.std.specs.Str.Lines.{lines};
ghost use Rattle.wat_lex.specs.errors.ErrorView.{excerpt_of};
ghost use Rattle.wat_lex.specs.errors.PieceTexts.{piece_text};
ghost use Rattle.wat_lex.specs.errors.Positions.{line_and_column};
ghost use Rattle.wat_lex.specs.errors.Rendering.{excerpt, rendered_location};

use crate::error::pieces::{Piece, print};
use crate::error::shown::{Line, Shown, columns};
use crate::token::Span;
use memchr::memchr;
use std::alloc::{AllocError, Global};
use std::fmt;
use std::marker::Model;

/// The last column that gets a marker. From column 501 on, only line and column are printed.
const LAST_MARKED: usize = 500;

/// A borrowed source line, with the line and column of an error. It prints all three, with a marker
/// under the column.
#[derive(Drop)]
pub struct Excerpt<'a> {
    /// The line, counted from 1.
    line: usize,
    /// The column, counted from 1, in the displayed form of the line.
    column: usize,
    source: Line<'a>,
}

impl<'a> Model for Excerpt<'a> {
    ghost use Rattle.wat_lex.specs.errors.Rendering.{Excerpt, rendered_line};

    ghost Value = { Excerpt };

    ghost view = { λ e. record {
      line = e.line;
      column = e.column;
      snippet = rendered_line e.source.0.now;
    } };
}

impl<'a> Excerpt<'a> {
    /// Finds the line that contains a position, and computes the line and column to report.
    pub(crate) fn new(contents: &'a str, span: Span) -> Excerpt<'a>
        ensures { result ≡ excerpt contents.now span }
    {
        let (line, column) = span.linecol_in(contents);
        let source = line_at(contents, span.offset(), column);
        let column = columns(source, column);
        Excerpt {
            line: line + 1,
            column: column + 1,
            source: Line(source),
        }
    }
}

impl<'a> Excerpt<'a> {
    /// Returns the line, counted from 1.
    pub fn line(&self) -> usize
        ensures { result ≡ self.now.line }
    {
        self.line
    }

    /// Returns the column, counted from 1, in the displayed form of the line.
    pub fn column(&self) -> usize
        ensures { result ≡ self.now.column }
    {
        self.column
    }

    /// Returns an iterator over the displayed characters of the line.
    pub fn characters(&self) -> Shown<'a>
        ensures { result ≡ chars self.now.snippet }
    {
        Shown::of(self.source.0)
    }
}

/// Returns the line that contains the byte at an offset, without its line ending. `column` must be
/// the column of that byte. Returns the empty text if the offset is past the end.
fn line_at(text: &str, offset: usize, column: usize) -> &str
    requires { column ≡ (line_and_column text.now offset).1 }
    ensures { let line = (line_and_column text.now offset).0 in
        result.now ≡ unwrap_or (slice_get (lines text.now) line) [] }
{
    if offset > text.len() {
        return "";
    }
    first_line(&text[offset - column..])
}

/// Returns the first line of a text, without its LF or CR LF.
fn first_line(text: &str) -> &str
    ensures { result.now ≡ unwrap_or (slice_get (lines text.now) 0) [] }
{
    let bytes = text.as_bytes();
    let Some(end) = memchr(b'\n', bytes) else {
        return text;
    };
    if end > 0 && bytes[end - 1] == b'\r' {
        return &text[..end - 1];
    }
    &text[..end]
}

/// An owned source line, with the line and column of an error.
#[derive(Debug, Drop)]
pub struct Text {
    /// The line, counted from 1.
    line: usize,
    /// The column, counted from 1, in the displayed form of the line.
    column: usize,
    source: String,
}

impl Text {
    /// Copies the line that contains a position, and computes the line and column to report.
    pub(crate) fn new(alloc: Global, contents: &str, span: Span) -> Result<Text, AllocError>
        ensures { IfOk result (λ text. excerpt_of text ≡ excerpt contents.now span) }
    {
        let excerpt = Excerpt::new(contents, span);
        Ok(Text {
            line: excerpt.line,
            column: excerpt.column,
            source: String::from_str(alloc, excerpt.source.0)?,
        })
    }

    /// Returns a borrowed copy.
    pub(crate) fn excerpt(&self) -> Excerpt<'_>
        ensures { result ≡ excerpt_of self.now }
    {
        Excerpt {
            line: self.line,
            column: self.column,
            source: Line(self.source.as_str()),
        }
    }
}

impl<'a> Excerpt<'a> {
    /// Returns the output as chunks: line and column, then the source line, then a marker under the
    /// column. From column 501 on, it has line and column only.
    pub(crate) fn pieces(&self) -> [Piece<'a>; 10]
        ensures { flat_map piece_text result ≡ rendered_location self.now }
    {
        let line = Piece::Decimal(self.line);
        let column = Piece::Decimal(self.column);
        let colon = Piece::Text(":");
        if self.column > LAST_MARKED {
            let none = Piece::Text("");
            let at = Piece::Text(" at <anon>:");
            return [at, line, colon, column, none, none, none, none, none, none];
        }
        [
            Piece::Text("\n     --> <anon>:"),
            line,
            colon,
            column,
            Piece::Text("\n      |\n "),
            Piece::LineNumber(self.line),
            Piece::Text(" | "),
            Piece::Line(self.source),
            Piece::Text("\n      | "),
            Piece::Marker(self.column),
        ]
    }
}

impl fmt::Display for Excerpt<'_> {
    ghost use Rattle.std.specs.Prelude.{Some};
    ghost use Rattle.wat_lex.specs.errors.Rendering.{rendered_location};

    ghost output = { λ e. Some (rendered_location e) };

    fn fmt<W: fmt::Write>(&self, f: &mut fmt::Formatter<W>) -> fmt::Result {
        print(&self.pieces(), f)
    }
}

impl fmt::Display for Text {
    ghost use Rattle.std.specs.Prelude.{Some};
    ghost use Rattle.wat_lex.specs.errors.ErrorView.{excerpt_of};
    ghost use Rattle.wat_lex.specs.errors.Rendering.{rendered_location};

    ghost output = { λ t. Some (rendered_location (excerpt_of t)) };

    fn fmt<W: fmt::Write>(&self, f: &mut fmt::Formatter<W>) -> fmt::Result {
        write!(f, "{}", self.excerpt())
    }
}
