//! Prints errors with the name of a file, without control characters and without an allocation.
ghost use Rattle.std.specs.Prelude.{◌≡◌, length, nat_lt};
ghost use Rattle.std.specs.Fmt.{WritesOnOk};
ghost use Rattle.wat_tokens_output.specs.Places.{dots, indent, is_cut, location_in};
ghost use Rattle.wat_tokens_output.specs.Places.{is_ascii_before, is_long, start_of, window};
ghost use Rattle.wat_tokens_output.specs.Places.{visible, visible_char, visible_in_lines};

use std::fmt;
use std::fmt::Write;
use wat_lex::error;
use wat_lex::error::{Error, Excerpt, Message, Piece};

/// The greatest number of characters of a source line that a report has.
const MOST: usize = 500;

/// The column of the error in the part that a report has of a line of more characters.
const BEFORE: usize = 250;

/// Returns the character that is printed instead of `c`: a picture for a control character of
/// ASCII, U+FFFD for a control character from U+0080 on, and `c` itself otherwise.
fn visible_char(c: char) -> char
    ensures { result ≡ visible_char c }
{
    match c {
        '\0'..='\u{1f}' => char::from_u32(0x2400 + c as u32).unwrap(),
        '\u{7f}' => '\u{2421}',
        '\u{80}'..='\u{9f}' => '\u{fffd}',
        _ => c,
    }
}

/// A text that prints with its control characters replaced, each by its picture or by U+FFFD.
#[derive(Clone, Copy)]
pub struct Shown<'a>(pub &'a str);

impl fmt::Display for Shown<'_> {
    ghost use Rattle.std.specs.Prelude.{Some};
    ghost use Rattle.wat_tokens_output.specs.Places.{visible};

    ghost output = { λ s. Some (visible s.0.now) };

    fn fmt<W: fmt::Write>(&self, f: &mut fmt::Formatter<W>) -> fmt::Result {
        for c in self.0.chars() {
            f.write_char(visible_char(c))?;
        }
        Ok(())
    }
}

/// Returns the character that is printed instead of `c` in a text of lines, in which line feeds are
/// unchanged.
fn visible_in_lines(c: char) -> char
    ensures { result ≡ visible_in_lines c }
{
    if c == '\n' { c } else { visible_char(c) }
}

/// A text of lines that prints with its control characters replaced, except line feeds.
#[derive(Clone, Copy)]
struct ShownLines<'a>(&'a str);

impl fmt::Display for ShownLines<'_> {
    ghost use Rattle.std.specs.Prelude.{Some};
    ghost use Rattle.wat_tokens_output.specs.Places.{visible_lines};

    ghost output = { λ s. Some (visible_lines s.0.now) };

    fn fmt<W: fmt::Write>(&self, f: &mut fmt::Formatter<W>) -> fmt::Result {
        for c in self.0.chars() {
            f.write_char(visible_in_lines(c))?;
        }
        Ok(())
    }
}

/// A destination of formatted text that passes the text on, with its control characters replaced
/// except line feeds.
#[derive(Drop)]
struct LineFilter<'a, T> {
    /// The destination of the replaced text.
    output: &'a mut T,
}

impl<T: fmt::Write> fmt::Write for LineFilter<'_, T> {
    ghost use Rattle.std.specs.Prelude.{◌≡◌};
    ghost use Rattle.std.specs.Fmt.{WritesInCalls};
    ghost use Rattle.std.specs.Str.{IsUtf8};
    ghost use Rattle.wat_tokens_output.specs.Places.{visible_lines};

    ghost write_str_gives = { λ s bs t. (t.output.ghost_name ≡ s.output.ghost_name) × IsUtf8 bs
        × WritesInCalls T.write_str_gives s.output.now (visible_lines bs) t.output.now };

    fn write_str(&mut self, text: &str) -> fmt::Result {
        write!(self.output, "{}", ShownLines(text))
    }
}

/// An error with the name of its file. It prints the message, the location in the file, and a
/// window of the source line. Does not allocate.
#[derive(Clone, Copy)]
pub struct InFile<'a> {
    /// The name of the file.
    pub name: &'a str,
    /// The error.
    pub error: &'a Error,
}

impl fmt::Display for InFile<'_> {
    ghost use Rattle.std.specs.Prelude.{Some};
    ghost use Rattle.wat_tokens_output.specs.Places.{printed_in, visible};

    ghost output = { λ e. Some (printed_in (visible e.name.now) e.error.now) };

    fn fmt<W: fmt::Write>(&self, f: &mut fmt::Formatter<W>) -> fmt::Result {
        match self.error.excerpt() {
            Some(excerpt) => {
                write!(f, "{}", Message(self.error))?;
                write_location(self.name, &excerpt, f)
            }
            None => write!(f, "{}: {}", Shown(self.name), self.error),
        }
    }
}

/// The part of a source line that a report has.
#[derive(Drop)]
struct Window<'a> {
    /// `true` if the start of the line is left out.
    is_cut: bool,
    /// The characters that follow what is left out.
    characters: error::Shown<'a>,
    /// The column of the error among these characters, counted from 1.
    column: usize,
}

/// Returns `true` if there are more than 500 characters.
fn are_many(characters: error::Shown<'_>) -> bool
    ensures { result ≡ nat_lt 500 (length characters.entry) }
{
    let mut count = 0;
    for _c in characters {
        if count == MOST {
            return true;
        }
        count += 1;
    }
    false
}

/// Returns `true` if the displayed line has more than 500 characters, or the column is over 500.
fn is_long(excerpt: &Excerpt<'_>) -> bool
    ensures { result ≡ is_long excerpt.now }
{
    excerpt.column() > MOST || are_many(excerpt.characters())
}

/// Returns `true` if the displayed characters before the error are ASCII, so that each of them has
/// one column.
fn is_ascii_before(excerpt: &Excerpt<'_>) -> bool
    ensures { result ≡ is_ascii_before excerpt.now }
{
    let mut left = excerpt.column().saturating_sub(1);
    for c in excerpt.characters() {
        if left == 0 {
            return true;
        }
        if !c.is_ascii() {
            return false;
        }
        left -= 1;
    }
    left == 0
}

/// Returns the part of a source line that a report has.
fn window_of<'a>(excerpt: &Excerpt<'a>) -> Window<'a>
    ensures cut { result.is_cut ≡ is_cut excerpt.now }
    ensures characters { result.characters ≡ (window excerpt.now).0 }
    ensures column { result.column ≡ (window excerpt.now).1 }
{
    let mut characters = excerpt.characters();
    let column = excerpt.column();
    let is_cut = column > BEFORE && is_long(excerpt);
    let column = if is_cut {
        characters.skip_columns(column - BEFORE, column)
    } else {
        column
    };
    Window {
        is_cut,
        characters,
        column,
    }
}

/// Writes the first 500 characters, and dots if more follow.
fn write_start<W: fmt::Write>(
    characters: error::Shown<'_>,
    f: &mut fmt::Formatter<W>,
) -> fmt::Result
    ensures { WritesOnOk W.write_str_gives f.old result (start_of 500 characters.entry) f.new }
{
    let mut left = MOST;
    for c in characters {
        if left == 0 {
            return f.write_str("...");
        }
        f.write_char(c)?;
        left -= 1;
    }
    Ok(())
}

/// Returns the dots that replace the start of a line, if it is left out.
fn dots(is_cut: bool) -> &'static str
    ensures { result.now ≡ dots is_cut }
{
    if is_cut { "..." } else { "" }
}

/// Returns the spaces below the dots.
fn indent(is_cut: bool) -> &'static str
    ensures { result.now ≡ indent is_cut }
{
    if is_cut { "   " } else { "" }
}

/// Writes the location of an error in a file, and a window of its source line with a marker under
/// the column, except of a long line with characters beyond ASCII before the error.
fn write_location<W: fmt::Write>(
    name: &str,
    excerpt: &Excerpt<'_>,
    f: &mut fmt::Formatter<W>,
) -> fmt::Result
    ensures { WritesOnOk W.write_str_gives f.old result
        (location_in (visible name.now) excerpt.now) f.new }
{
    let (name, line, column) = (Shown(name), excerpt.line(), excerpt.column());
    if is_long(excerpt) && !is_ascii_before(excerpt) {
        return write!(f, " at {name}:{line}:{column}");
    }
    let window = window_of(excerpt);
    let (dots, indent) = (dots(window.is_cut), indent(window.is_cut));
    let (number, marker) = (Piece::LineNumber(line), Piece::Marker(window.column));
    write!(
        f,
        "\n     --> {name}:{line}:{column}\n      |\n {number} | {dots}"
    )?;
    write_start(window.characters, f)?;
    write!(f, "\n      | {indent}{marker}")
}

/// The report of an error in a file: it prints like [`InFile`], with the control characters
/// replaced except line feeds. Does not allocate.
#[derive(Clone, Copy)]
pub struct FileReport<'a> {
    /// The name of the file.
    pub name: &'a str,
    /// The error.
    pub error: &'a Error,
}

impl fmt::Display for FileReport<'_> {
    ghost use Rattle.std.specs.Prelude.{Some};
    ghost use Rattle.wat_tokens_output.specs.Places.{printed_in, visible, visible_lines};

    ghost output = { λ r. Some (visible_lines (printed_in (visible r.name.now) r.error.now)) };

    fn fmt<W: fmt::Write>(&self, f: &mut fmt::Formatter<W>) -> fmt::Result {
        let (name, error) = (self.name, self.error);
        let mut filter = LineFilter { output: f };
        let printed = write!(filter, "{}", InFile { name, error });
        let LineFilter { output } = filter;
        // Needed only by the proof: it shows what the formatter has written at the end.
        let _ = &*output;
        printed
    }
}
