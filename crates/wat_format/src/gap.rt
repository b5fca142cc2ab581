//! Gaps between tokens.
ghost use Rattle.std.specs.Prelude.{◌≡◌};
ghost use Rattle.wat_format.specs.Gaps.{gap_of, is_break, kept, settled};

use crate::sort::Sort;

/// Gap between two tokens, i.e. what replaces the whitespace between them.
#[derive(Clone, Copy)]
pub enum Gap {
    /// No bytes.
    Touching,
    /// A number of spaces, without a line end.
    Blanks(usize),
    /// A line end, and the indentation of the next line.
    LineEnd,
    /// A line end, an empty line, and the indentation of the next line.
    EmptyLine,
}

/// Returns the gap of the whitespace between two tokens. Line ends are LF, CR and CR LF. Whitespace
/// without line ends is a gap of as many spaces as it has bytes.
pub fn gap_of(white: &[u8]) -> Gap
    ensures { result ≡ gap_of white.now }
{
    let mut ends: usize = 0;
    let mut last = 0;
    for byte in white {
        if *byte == b'\r' || (*byte == b'\n' && last != b'\r') {
            ends += 1;
        }
        last = *byte;
    }
    if ends > 1 {
        Gap::EmptyLine
    } else if ends == 1 {
        Gap::LineEnd
    } else if white.is_empty() {
        Gap::Touching
    } else {
        Gap::Blanks(white.len())
    }
}

impl Gap {
    /// Returns `true` if the gap contains a line end.
    pub fn is_break(self) -> bool
        ensures { result ≡ is_break self }
    {
        match self {
            Gap::Touching | Gap::Blanks(_) => false,
            Gap::LineEnd | Gap::EmptyLine => true,
        }
    }

    /// Returns `Touching` for `Touching`, otherwise a gap of 1 space.
    fn kept(self) -> Gap
        ensures { result ≡ kept self }
    {
        match self {
            Gap::Touching => Gap::Touching,
            Gap::Blanks(_) | Gap::LineEnd | Gap::EmptyLine => Gap::Blanks(1),
        }
    }

    /// Returns the gap that replaces this one between tokens of these sorts.
    pub fn settled(self, before: Sort, after: Sort) -> Gap
        ensures { result ≡ settled before after self }
    {
        if before.is_comment() {
            return if after.is_close() { Gap::LineEnd } else { self };
        }
        if after.is_comment() {
            let is_off = matches!(self, Gap::Touching) || (before.is_open() && self.is_break());
            return if is_off { Gap::Blanks(1) } else { self };
        }
        if before.is_open() {
            return if after.keeps_space_after_open() {
                self.kept()
            } else {
                Gap::Touching
            };
        }
        if self.is_break() {
            return if after.is_close() { Gap::LineEnd } else { self };
        }
        if before.is_mark() || after.is_mark() {
            return self.kept();
        }
        if after.is_close() {
            Gap::Touching
        } else {
            Gap::Blanks(1)
        }
    }
}
