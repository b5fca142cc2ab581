//! A lexical error that is printed with its source line, without an allocation.
ghost use Rattle.std.specs.Prelude.{◌≡◌, ◌<◌, ◌^◌, length, min};
ghost use Rattle.wat_lex.specs.errors.Errors.{rendered_fault};
ghost use Rattle.wat_lex.specs.errors.Rendering.{excerpt, overwrite_start};

use crate::error::pieces::{length_of, write_chunks};
use crate::error::text::Excerpt;
use crate::lexer::LexFault;
use crate::token::Span;
use std::fmt;
use std::marker::Model;

/// A lexical error of a text. It prints what its [`Error`](crate::error::Error) prints, and does
/// not allocate.
#[derive(Drop)]
pub struct Rendered<'a> {
    text: &'a str,
    fault: LexFault,
}

impl<'a> Model for Rendered<'a> {
    ghost use Rattle.std.specs.Prelude.{ℕ, List};
    ghost use Rattle.wat_lex.specs.declared.lexer.faults.LexFault.{LexFault};

    ghost Value = { List ℕ × LexFault };

    ghost view = { λ r. (r.text.now, r.fault) };
}

impl<'a> Rendered<'a> {
    /// Pairs a text with a lexical error of it, for printing.
    pub fn new(text: &'a str, fault: LexFault) -> Rendered<'a>
        ensures { result ≡ (text.now, fault) }
    {
        Rendered { text, fault }
    }

    /// Returns the length of the output in bytes.
    pub fn length(&self) -> usize
        requires { length self.now.0 < 2 ^ 32 }
        ensures { result ≡ length (rendered_fault self.now) }
    {
        length_of(&self.fault.error.pieces()) + length_of(&self.excerpt().pieces())
    }

    /// Writes the output to a buffer, until the buffer is full, and returns the number of bytes
    /// written. If that is less than the length of `out`, the output is complete.
    pub fn write_to(&self, out: &mut [u8]) -> usize
        ensures bytes { out.new ≡ overwrite_start (rendered_fault self.now) out.old }
        ensures count { result ≡ min (length (rendered_fault self.now)) (length out.old) }
    {
        let at = write_chunks(&self.fault.error.pieces(), out, 0);
        write_chunks(&self.excerpt().pieces(), out, at)
    }

    /// Returns the source line of the error, with its line and column.
    fn excerpt(&self) -> Excerpt<'a>
        ensures { result ≡ excerpt self.now.0 self.now.1.offset }
    {
        Excerpt::new(self.text, Span::from_offset(self.fault.offset))
    }
}

impl fmt::Display for Rendered<'_> {
    ghost use Rattle.std.specs.Prelude.{Some};
    ghost use Rattle.wat_lex.specs.errors.Errors.{rendered_fault};

    ghost output = { λ r. Some (rendered_fault r) };

    fn fmt<W: fmt::Write>(&self, f: &mut fmt::Formatter<W>) -> fmt::Result {
        write!(f, "{}{}", self.fault.error, self.excerpt())
    }
}
