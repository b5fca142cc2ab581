//! Displayed lines: a TAB is displayed as 4 spaces, and the 9 confusing characters are dropped.
ghost use Rattle.std.specs.Prelude.{
  ◌≡◌,
  ◌*◌,
  ◌^◌,
  ◌<◌,
  ◌≤◌,
  true,
  false,
  length,
  take,
  IsTrue,
  MatchOption,
};
ghost use Rattle.std.specs.Prelude.{encode_utf8_all};
ghost use Rattle.std.specs.Str.{chars};
ghost use Rattle.wat_lex.specs.errors.Rendering.{columns, rendered_char, rendered_line};
ghost use Rattle.wat_lex.specs.errors.Rendering.{is_boundary, past_columns, width_alone};

use crate::error::stretches::{by_columns_len, is_shown_as_it_is, split_shown};
use crate::lexer::is_confusing;
use std::fmt;
use std::marker::Model;
use std::str::Chars;
use unicode_width::{UnicodeWidthChar, UnicodeWidthStr, char_iter_width};

/// The number of spaces that a TAB is displayed as.
const TAB: usize = 4;

/// A source line, which prints in its displayed form.
#[derive(Clone, Copy)]
pub struct Line<'a>(pub &'a str);

/// An iterator over the displayed characters of a line, from either end.
#[derive(Drop)]
pub struct Shown<'a> {
    /// The number of spaces left of a TAB before `chars`.
    front: usize,
    /// The characters of the line that neither end has reached.
    chars: Chars<'a>,
    /// The number of spaces left of a TAB after `chars`.
    back: usize,
}

impl<'a> Model for Shown<'a> {
    ghost use Rattle.std.specs.Prelude.{ℕ, List};
    ghost use Rattle.wat_lex.specs.errors.ShownView.{shown_view};

    ghost Value = { List ℕ };

    ghost view = { shown_view };
}

impl<'a> Shown<'a> {
    /// Returns an iterator over the displayed characters of a line.
    pub(crate) fn of(line: &'a str) -> Shown<'a>
        ensures bytes { encode_utf8_all result ≡ rendered_line line.now }
        ensures characters { result ≡ chars (rendered_line line.now) }
    {
        Shown {
            front: 0,
            chars: line.chars(),
            back: 0,
        }
    }

    /// Skips characters until their columns are `columns` or more. Returns `column`, the column of
    /// an error, reduced by the columns of the skipped characters.
    pub fn skip_columns(&mut self, columns: usize, column: usize) -> usize
        ensures rest { self.new ≡ (past_columns columns column self.old).0 }
        ensures column { result ≡ (past_columns columns column self.old).1 }
    {
        let mut left = columns;
        let mut column = column;
        'characters: while left > 0 {
            let Some(c) = self.next() else {
                return column;
            };
            let width = width_alone(c);
            left = left.saturating_sub(width);
            column = column.saturating_sub(width);
        }
        column
    }
}

/// Returns the columns of a single character. A control character has one.
fn width_alone(c: char) -> usize
    ensures { result ≡ width_alone c }
{
    c.width().unwrap_or(1)
}

impl<'a> Iterator for Shown<'a> {
    type Item = char;

    ghost use Rattle.std.specs.Iterator.{YieldsFirst, item_count};

    ghost next_gives = { YieldsFirst (λ left. left) };

    ghost remaining = { item_count (λ left. left) };

    fn next(&mut self) -> Option<char> {
        // Needed only by the proof: the contract of `as_str` states that the remaining characters
        // are UTF-8.
        let _ = self.chars.as_str();
        if self.front > 0 {
            self.front -= 1;
            return Some(' ');
        }
        match self.chars.find(|c| !is_confusing(*c)) {
            Some('\t') => self.front = TAB - 1,
            Some(c) => return Some(c),
            None if self.back > 0 => self.back -= 1,
            None => return None,
        }
        Some(' ')
    }
}

impl<'a> DoubleEndedIterator for Shown<'a> {
    ghost use Rattle.std.specs.Iterator.{YieldsLast};

    ghost next_back_gives = { YieldsLast (λ left. left) };

    fn next_back(&mut self) -> Option<char> {
        // Needed only by the proof: the contract of `as_str` states that the remaining characters
        // are UTF-8.
        let _ = self.chars.as_str();
        if self.back > 0 {
            self.back -= 1;
            return Some(' ');
        }
        match self.chars.rfind(|c| !is_confusing(*c)) {
            Some('\t') => self.back = TAB - 1,
            Some(c) => return Some(c),
            None if self.front > 0 => self.front -= 1,
            None => return None,
        }
        Some(' ')
    }
}

impl fmt::Display for Line<'_> {
    ghost use Rattle.std.specs.Prelude.{Some};
    ghost use Rattle.wat_lex.specs.errors.Rendering.{rendered_line};

    ghost output = { λ l. Some (rendered_line l.0.now) };

    fn fmt<W: fmt::Write>(&self, f: &mut fmt::Formatter<W>) -> fmt::Result {
        let mut rest = self.0;
        while let Some((shown, after)) = split_shown(rest) {
            f.write_str(shown)?;
            rest = after;
        }
        Ok(())
    }
}

/// Returns the display width of the first `bytes` bytes of a line's displayed form. Returns `bytes`
/// if the displayed form is shorter, or if that offset is inside a character.
pub(crate) fn columns(line: &str, bytes: usize) -> usize
    requires { bytes < 2 ^ 63 }
    ensures columns { result ≡ columns (rendered_line line.now) bytes }
    ensures bound { result ≤ 2 * bytes }
{
    if begins_by_columns(line, bytes) {
        return bytes;
    }
    match line.split_at_checked(bytes) {
        Some((before, _)) if is_shown_as_it_is(before) => before.width(),
        _ => columns_by_character(line, bytes),
    }
}

/// Returns `true` if the first `bytes` bytes of the line are printable ASCII or TABs.
fn begins_by_columns(line: &str, bytes: usize) -> bool
    ensures { IsTrue result → columns (rendered_line line.now) bytes ≡ bytes }
{
    bytes <= line.len() && by_columns_len(&line.as_bytes()[..bytes]) == bytes
}

/// Returns the display width of the first `bytes` bytes of a line's displayed form, measured a
/// character at a time. Returns `bytes` if the displayed form is shorter, or if that offset is
/// inside a character.
fn columns_by_character(line: &str, bytes: usize) -> usize
    requires { bytes < 2 ^ 63 }
    ensures columns { result ≡ columns (rendered_line line.now) bytes }
    ensures bound { result ≤ 2 * bytes }
{
    match front(line, bytes) {
        Some(shown) => char_iter_width(shown),
        None => bytes,
    }
}

/// Returns an iterator over the first `bytes` bytes of a line's displayed form. Returns `None` if
/// the displayed form is shorter, or if that offset is inside a character.
fn front(line: &str, bytes: usize) -> Option<Shown<'_>>
    ensures { MatchOption result (is_boundary (rendered_line line.now) bytes ≡ false)
        (λ shown. (is_boundary (rendered_line line.now) bytes ≡ true)
        × (encode_utf8_all shown ≡ take bytes (rendered_line line.now))) }
{
    let mut at = 0;
    let mut missing = bytes;
    'places: while let Some(c) = line[at..].chars().next() {
        let len = shown_len(c);
        if missing < len {
            if missing > 0 && c != '\t' {
                return None;
            }
            return Some(Shown {
                front: 0,
                chars: line[..at].chars(),
                back: missing,
            });
        }
        missing -= len;
        at += c.len_utf8();
    }
    if missing > 0 {
        return None;
    }
    Some(Shown::of(line))
}

/// Returns the length in bytes of a character's displayed form.
fn shown_len(c: char) -> usize
    ensures { result ≡ length (encode_utf8_all (rendered_char c)) }
{
    match c {
        '\t' => TAB,
        c if is_confusing(c) => 0,
        c => c.len_utf8(),
    }
}
