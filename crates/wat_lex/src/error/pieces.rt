//! Chunks of printed output, which are written to a formatter or into a byte buffer.
ghost use Rattle.std.specs.Prelude.{◌≡◌, ◌≤◌, ◌<◌, ◌^◌, ◌⊎◌, false, flat_map, length, replicate};
ghost use Rattle.std.specs.Fmt.{digits, WritesOnOk};
ghost use Rattle.wat_lex.specs.errors.LaidPieces.{WritesAfter};
ghost use Rattle.wat_lex.specs.errors.PieceTexts.{piece_text};
ghost use Rattle.wat_lex.specs.errors.Rendering.{rendered_line};

use crate::error::shown::Line;
use crate::error::stretches::split_shown;
use std::{fmt, str};

/// A chunk of printed output.
#[derive(Clone, Copy)]
pub enum Piece<'a> {
    /// A text, unchanged.
    Text(&'a str),
    /// A character, in UTF-8.
    Character(char),
    /// An integer in decimal digits.
    Decimal(usize),
    /// An integer in lowercase hexadecimal digits.
    Hexadecimal(u32),
    /// An integer in decimal digits, padded with spaces to a width of 4.
    LineNumber(usize),
    /// A source line, as it is displayed.
    Line(Line<'a>),
    /// A `^` below a column, counted from 1, with spaces before it.
    Marker(usize),
}

/// Writes chunks to a formatter.
pub(crate) fn print<W: fmt::Write>(pieces: &[Piece], f: &mut fmt::Formatter<W>) -> fmt::Result
    ensures { WritesOnOk W.write_str_gives f.old result (flat_map piece_text pieces.now) f.new }
{
    for piece in pieces {
        write!(f, "{piece}")?;
    }
    Ok(())
}

/// Writes chunks to a buffer, starting at index `at`, until the buffer is full. Returns the index
/// after the last byte written.
pub(crate) fn write_chunks(pieces: &[Piece], out: &mut [u8], at: usize) -> usize
    requires { at ≤ length out.old }
    ensures { WritesAfter out.old at (flat_map piece_text pieces.now) out.new result }
{
    let mut at = at;
    for piece in pieces {
        at = piece.lay(out, at);
    }
    at
}

/// Returns the length of the chunks' output in bytes.
pub(crate) fn length_of(pieces: &[Piece]) -> usize
    requires { length (flat_map piece_text pieces.now) < 2 ^ 64 }
    ensures { result ≡ length (flat_map piece_text pieces.now) }
{
    let mut length = 0;
    for piece in pieces {
        length += piece.length();
    }
    length
}

impl fmt::Display for Piece<'_> {
    ghost use Rattle.std.specs.Prelude.{Some};
    ghost use Rattle.wat_lex.specs.errors.PieceTexts.{piece_text};

    ghost output = { λ p. Some (piece_text p) };

    fn fmt<W: fmt::Write>(&self, f: &mut fmt::Formatter<W>) -> fmt::Result {
        let mark = "^";
        match *self {
            Piece::Text(text) => write!(f, "{text}"),
            Piece::Character(c) => write!(f, "{c}"),
            Piece::Decimal(number) => write!(f, "{number}"),
            Piece::Hexadecimal(number) => write!(f, "{number:x}"),
            Piece::LineNumber(number) => write!(f, "{number:4}"),
            Piece::Line(line) => write!(f, "{line}"),
            Piece::Marker(column) => write!(f, "{mark:>column$}"),
        }
    }
}

impl Piece<'_> {
    /// Returns the length of the chunk's output in bytes.
    fn length(&self) -> usize
        requires { length (piece_text self.now) < 2 ^ 64 }
        ensures { result ≡ length (piece_text self.now) }
    {
        match *self {
            Piece::Text(text) => text.len(),
            Piece::Character(c) => c.len_utf8(),
            Piece::Decimal(number) => digits(number, 10, &mut [0; 20]).len(),
            Piece::Hexadecimal(number) => digits(number as usize, 16, &mut [0; 20]).len(),
            Piece::LineNumber(number) => digits(number, 10, &mut [0; 20]).len().max(4),
            Piece::Line(line) => line_length(line),
            Piece::Marker(column) => column.max(1),
        }
    }

    /// Writes the chunk to a buffer, starting at index `at`, until the buffer is full. Returns the
    /// index after the last byte written.
    fn lay(&self, out: &mut [u8], at: usize) -> usize
        requires { at ≤ length out.old }
        ensures { WritesAfter out.old at (piece_text self.now) out.new result }
    {
        match *self {
            Piece::Text(text) => lay(text, out, at),
            Piece::Character(c) => lay(c.encode_utf8(&mut [0; 4]), out, at),
            Piece::Decimal(number) => lay(digits(number, 10, &mut [0; 20]), out, at),
            Piece::Hexadecimal(number) => lay(digits(number as usize, 16, &mut [0; 20]), out, at),
            Piece::LineNumber(number) => {
                let mut room = [0; 20];
                let number = digits(number, 10, &mut room);
                let at = write_spaces(4usize.saturating_sub(number.len()), out, at);
                lay(number, out, at)
            }
            Piece::Line(line) => write_line(line, out, at),
            Piece::Marker(column) => {
                let at = write_spaces(column.saturating_sub(1), out, at);
                lay("^", out, at)
            }
        }
    }
}

/// Writes a text to a buffer, starting at index `at`, until the buffer is full. Returns the index
/// after the last byte written.
fn lay(text: &str, out: &mut [u8], at: usize) -> usize
    requires { at ≤ length out.old }
    ensures { WritesAfter out.old at text.now out.new result }
{
    let text = text.as_bytes();
    let room = out.len() - at;
    let count = if text.len() < room { text.len() } else { room };
    out[at..at + count].copy_from_slice(&text[..count]);
    at + count
}

/// Writes `count` spaces to a buffer, starting at index `at`, until the buffer is full. Returns the
/// index after the last byte written.
fn write_spaces(count: usize, out: &mut [u8], at: usize) -> usize
    requires { at ≤ length out.old }
    ensures { WritesAfter out.old at (replicate count 32) out.new result }
{
    let mut at = at;
    for _ in 0..count {
        at = lay(" ", out, at);
    }
    at
}

/// Writes a line to a buffer as it is displayed, starting at index `at`, until the buffer is full.
/// Returns the index after the last byte written.
fn write_line(line: Line, out: &mut [u8], at: usize) -> usize
    requires { at ≤ length out.old }
    ensures { WritesAfter out.old at (rendered_line line.entry.0.now) out.new result }
{
    let mut at = at;
    let mut rest = line.0;
    while let Some((shown, after)) = split_shown(rest) {
        at = lay(shown, out, at);
        rest = after;
    }
    at
}

/// Returns the length in bytes of a line as it is displayed.
fn line_length(line: Line) -> usize
    requires { length (rendered_line line.0.now) < 2 ^ 64 }
    ensures { result ≡ length (rendered_line line.entry.0.now) }
{
    let mut length = 0;
    let mut rest = line.0;
    while let Some((shown, after)) = split_shown(rest) {
        length += shown.len();
        rest = after;
    }
    length
}

/// Returns the digits of an integer in base 10 or 16, lowercase and without leading zeros, written
/// to the end of a buffer.
fn digits(number: usize, base: usize, room: &mut [u8; 20]) -> &str
    requires { (base ≡ 10) ⊎ (base ≡ 16) }
    ensures { result.now ≡ digits base false number }
{
    let mut rest = number;
    let mut at = room.len();
    'places: loop {
        at -= 1;
        let digit = (rest % base) as u8;
        room[at] = if digit < 10 {
            b'0' + digit
        } else {
            b'a' - 10 + digit
        };
        rest /= base;
        if rest == 0 {
            break;
        }
    }
    match str::from_utf8(&room[at..]) {
        Ok(digits) => digits,
        Err(_) => "",
    }
}
