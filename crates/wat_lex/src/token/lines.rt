//! Line feeds of a text, and lines and columns of offsets. Columns are in bytes or in UTF-16 code
//! units.
ghost use Rattle.std.specs.Prelude.{◌≡◌, ◌≤◌, ◌<◌, length, take, drop, map, IfOk, IfSome};
ghost use Rattle.std.specs.List.{count_by, sum_by};
ghost use Rattle.std.specs.Str.Lines.{lines};
ghost use Rattle.std.specs.Simd.Lanes.{mask_l};
ghost use Rattle.wat_lex.specs.errors.LineFeeds.{LineFeeds};
ghost use Rattle.wat_lex.specs.errors.Positions.{is_line_feed, line_and_column};
ghost use Rattle.wat_lex.specs.errors.Positions.{utf16_line_and_column};
ghost use Rattle.wat_lex.specs.inside.Utf16Bytes.{AreUnits, byte_units};

use crate::lexer::block_at;
use crate::token::Span;
use crate::token::utf16::units;
use memchr::{memchr, memchr_iter};
use std::alloc::{AllocError, Global};
use std::marker::Model;
use std::simd::prelude::*;

/// Returns a bit mask of the line feeds of a block. The lowest bit is the first byte's.
#[inline(always)]
fn feeds_in_block(block: u8x16) -> u64
    ensures { result ≡ mask_l (map is_line_feed block) }
{
    block.simd_eq(u8x16::splat(b'\n')).to_bitmask()
}

/// Returns the number of line feeds.
pub fn line_feeds(text: &[u8]) -> usize
    ensures count { result ≡ count_by is_line_feed text.now }
    ensures bound { result ≤ length text.now }
{
    let mut count = 0;
    let mut i = 0;
    while text.len() - i >= 16 {
        count += feeds_in_block(block_at(text, i)).count_ones() as usize;
        i += 16;
    }
    count + memchr_iter(b'\n', &text[i..]).count()
}

/// Writes the offsets of the line feeds to the front of a buffer and returns their number. If the
/// buffer has fewer elements, it is unchanged.
pub fn fill_line_feeds(text: &[u8], out: &mut [usize]) -> usize
    ensures count { result ≡ count_by is_line_feed text.now }
    ensures filled { result ≤ length out.old → LineFeeds text.now (take result out.new) }
    ensures after { drop result out.new ≡ drop result out.old }
    ensures short { length out.old < result → out.new ≡ out.old }
{
    let count = line_feeds(text);
    if count > out.len() {
        return count;
    }
    let mut done = 0;
    let mut at = 0;
    while let Some(ahead) = memchr(b'\n', &text[at..]) {
        out[done] = at + ahead;
        done += 1;
        at += ahead + 1;
    }
    count
}

/// Returns the number of lines of a text. `feeds` must be the offsets of its line feeds.
fn line_count(text: &str, feeds: &[usize]) -> usize
    requires { LineFeeds text.now feeds.now }
    ensures { result ≡ length (lines text.now) }
{
    let bytes = text.as_bytes();
    if bytes.is_empty() {
        return 0;
    }
    if bytes[bytes.len() - 1] == b'\n' {
        return feeds.len();
    }
    feeds.len() + 1
}

/// Returns the line and column of a byte offset, both counted from 0, as [`Span::linecol_in`] does.
/// Uses a binary search in `feeds`, which must be the offsets of the line feeds of the text.
pub fn linecol_by(text: &str, feeds: &[usize], offset: usize) -> (usize, usize)
    requires { LineFeeds text.now feeds.now }
    ensures { result ≡ line_and_column text.now offset }
{
    if offset > text.len() {
        return (line_count(text, feeds), 0);
    }
    let line = feeds.partition_point(|feed| *feed < offset);
    if line == 0 {
        return (0, offset);
    }
    (line, offset - feeds[line - 1] - 1)
}

/// Returns the line and column of a byte offset, both counted from 0, with the column in UTF-16
/// code units: those of the characters of the line that begin before the offset. `feeds` must be
/// the offsets of the line feeds of the text.
pub fn utf16_linecol_by(text: &str, feeds: &[usize], offset: usize) -> (usize, usize)
    requires { LineFeeds text.now feeds.now }
    ensures { result ≡ utf16_line_and_column text.now offset }
{
    let (line, column) = linecol_by(text, feeds, offset);
    if column == 0 {
        return (line, 0);
    }
    (line, units(&text.as_bytes()[offset - column..offset]))
}

/// The distance in bytes between two marks of a [`LineIndex`]. Code units are counted from the
/// start of a line if its column is at most this.
const SHORT: usize = 0x1_0000;

/// Returns `true` if two consecutive line feeds, or a line feed and the start or the end of the
/// text, are more than `SHORT` bytes apart.
fn has_long_line(text: &str, feeds: &[usize]) -> bool {
    let mut start = 0;
    for feed in feeds {
        if feed.saturating_sub(start) > SHORT {
            return true;
        }
        start = *feed;
    }
    text.len().saturating_sub(start) > SHORT
}

/// Returns the number of UTF-16 code units before each multiple of `SHORT` bytes.
fn units_at_marks(alloc: Global, text: &[u8]) -> Result<Vec<usize>, AllocError>
    ensures { IfOk result (λ marks. AreUnits text.now marks.items) }
{
    let mut marks = Vec::new(alloc);
    let mut before = 0;
    let mut at = 0;
    while text.len() - at >= SHORT {
        marks.push(before)?;
        before += units(&text[at..at + SHORT]);
        at += SHORT;
    }
    marks.push(before)?;
    Ok(marks)
}

/// Returns the number of UTF-16 code units before each multiple of `SHORT` bytes, or nothing if no
/// line is long.
fn marks(alloc: Global, text: &str, feeds: &[usize]) -> Result<Vec<usize>, AllocError>
    ensures { IfOk result (λ marks. AreUnits text.now marks.items) }
{
    if has_long_line(text, feeds) {
        return units_at_marks(alloc, text.as_bytes());
    }
    Ok(Vec::new(alloc))
}

/// Returns the offset of each line feed.
fn feeds(alloc: Global, text: &[u8]) -> Result<Vec<usize>, AllocError>
    ensures { IfOk result (λ feeds. LineFeeds text.now feeds.items) }
{
    let mut feeds = Vec::new(alloc);
    let mut at = 0;
    while let Some(ahead) = memchr(b'\n', &text[at..]) {
        feeds.push(at + ahead)?;
        at += ahead + 1;
    }
    Ok(feeds)
}

/// An index of the lines of a text, for programs that look up many positions. A lookup is a binary
/// search, whereas [`Span::linecol_in`] scans the text up to the position.
#[derive(Drop)]
pub struct LineIndex<'a> {
    text: &'a str,
    /// The offset of each line feed.
    feeds: Vec<usize>,
    /// The number of UTF-16 code units before each multiple of `SHORT` bytes; empty if no line is
    /// long.
    marks: Vec<usize>,
}

impl<'a> Model for LineIndex<'a> {
    ghost use Rattle.std.specs.Prelude.{◌≡◌, ℕ, List, length};
    ghost use Rattle.wat_lex.specs.errors.LineFeeds.{LineFeeds};
    ghost use Rattle.wat_lex.specs.inside.Utf16Bytes.{AreUnits};

    ghost Value = { List ℕ };

    ghost view = { λ l. l.text.now };

    ghost invariant = { λ l.
        LineFeeds l.text.now l.feeds.items × AreUnits l.text.now l.marks.items };
}

impl<'a> LineIndex<'a> {
    /// Finds the lines of a text. The index stores a `usize` for each line feed and, if a line is
    /// longer than 64 KiB, one for each 64 KiB of the text.
    ///
    /// # Errors
    ///
    /// Returns the allocation failure.
    pub fn new(alloc: Global, text: &'a str) -> Result<LineIndex<'a>, AllocError>
        ensures { IfOk result (λ index. index ≡ text.now) }
    {
        let feeds = feeds(alloc, text.as_bytes())?;
        let marks = marks(alloc, text, &feeds)?;
        Ok(LineIndex { text, feeds, marks })
    }

    /// Returns the number of UTF-16 code units before a byte offset, or `None` if its mark is not
    /// stored.
    fn units_before(&self, offset: usize) -> Option<usize>
        requires { offset ≤ length self.now }
        ensures { IfSome result (λ units. units ≡ sum_by byte_units (take offset self.now)) }
    {
        let mark = offset / SHORT;
        let before = *self.marks.get(mark)?;
        Some(before + units(&self.text.as_bytes()[mark * SHORT..offset]))
    }

    /// Returns the line and column of a position, both counted from 0, as [`Span::linecol_in`]
    /// does. The column is in bytes.
    pub fn linecol(&self, span: Span) -> (usize, usize)
        ensures { result ≡ line_and_column self.now span }
    {
        linecol_by(self.text, &self.feeds, span.offset())
    }

    /// Returns the line and column of a position as editors count them: both from 0, with the
    /// column in UTF-16 code units. These are the code units of the characters of the line that
    /// begin before the position. Reads at most 64 KiB of the text twice.
    pub fn utf16_linecol(&self, span: Span) -> (usize, usize)
        ensures { result ≡ utf16_line_and_column self.now span }
    {
        let offset = span.offset();
        let (line, column) = linecol_by(self.text, &self.feeds, offset);
        if column > SHORT {
            if let (Some(start), Some(end)) = (
                self.units_before(offset - column),
                self.units_before(offset),
            ) {
                return (line, end - start);
            }
        }
        utf16_linecol_by(self.text, &self.feeds, offset)
    }
}
