//! Source texts of parsers, with or without a token table.
ghost use Rattle.std.specs.Prelude.{◌≡◌, ◌<◌, ◌^◌, ◌+◌, length, IfOk, IfSome, IsTrue, false};
ghost use Rattle.std.specs.Str.{IsUtf8};
ghost use Rattle.wat_lex.specs.errors.Errors.{IsUnlessMemory};
ghost use Rattle.wat_lexer_parser.specs.inside.FirstTokens.{IsMarkedAt, IsSight};
ghost use Rattle.wat_lexer_parser.specs.inside.Next.{IsAfter, IsNext, IsPlace};
ghost use Rattle.wat_lexer_parser.specs.parser.State.{message_at, report_of};
ghost use Rattle.wat_lexer_parser.specs.places.Places.{comment_at, is_meaningful};
ghost use Rattle.wat_lexer_parser.specs.places.Source.{IsRead};
ghost use Rattle.wat_lexer_parser.specs.shown.Showing.{shown};

use crate::parser::fault::{Fault, FaultKind};
use crate::parser::kept::Kept;
use crate::parser::names::Names;
use crate::parser::table_ref::TableRef;
use crate::parser::text_ref::{NO_TOKEN, Sight, TextRef};
use std::alloc::Global;
use std::marker::Model;
use wat_lex::error::Error;
use wat_lex::lexer::Token;
use wat_lex::token::Span;

/// A source of raw tokens.
#[derive(Drop)]
enum Tokens<'a> {
    /// A table of all raw tokens.
    Table(TableRef<'a>),
    /// The text, lexed again by each peek.
    Text(TextRef<'a>),
}

/// A borrowed source text of a parser. Both kinds of sources yield the same tokens.
#[derive(Drop)]
pub struct SourceRef<'a> {
    tokens: Tokens<'a>,
}

impl<'a> Model for SourceRef<'a> {
    ghost use Rattle.wat_lexer_parser.specs.declared.parser.source_ref.Tokens.TheVariants.{
      Table,
      Text,
    };
    ghost use Rattle.wat_lexer_parser.specs.inside.Codes.{source_code};
    ghost use Rattle.wat_lexer_parser.specs.places.Source.{Source};

    ghost Value = { Source };

    ghost coded = { source_code };

    ghost view = { λ b. elim b.tokens [ Table s ↦ s | Text s ↦ s ] };
}

impl<'a> SourceRef<'a> {
    pub fn of_table(table: TableRef<'a>) -> SourceRef<'a>
        ensures { result ≡ table.entry }
    {
        SourceRef {
            tokens: Tokens::Table(table),
        }
    }

    pub fn of_text(text: TextRef<'a>) -> SourceRef<'a>
        ensures { result ≡ text.entry }
    {
        SourceRef {
            tokens: Tokens::Text(text),
        }
    }

    /// Lemma (no effect): the view's tokens are the raw tokens of the text, fewer than 2^63.
    pub fn lemma_read(&self)
        ensures read { IsRead self.now }
        ensures small { length self.now.tokens < 2 ^ 63 }
    {
        match &self.tokens {
            Tokens::Table(table) => table.lemma_read(),
            Tokens::Text(text) => text.lemma_read(),
        }
    }

    /// Returns the flag set by `track_instr_spans` of the buffer.
    pub fn tracks(&self) -> bool
        ensures { result ≡ self.now.track }
    {
        match &self.tokens {
            Tokens::Table(table) => table.tracks(),
            Tokens::Text(text) => text.tracks(),
        }
    }

    #[inline]
    pub fn text(&self) -> &'a str
        ensures text { result.now ≡ self.now.setting.text }
        ensures utf8 { IsUtf8 self.now.setting.text }
        ensures short { length self.now.setting.text < 2 ^ 32 }
    {
        match &self.tokens {
            Tokens::Table(table) => table.text(),
            Tokens::Text(text) => text.text(),
        }
    }

    #[inline]
    pub fn alloc(&self) -> Global {
        match &self.tokens {
            Tokens::Table(table) => table.alloc(),
            Tokens::Text(text) => text.alloc(),
        }
    }

    /// Returns the token visible at a position, and the position after it. Allocates only if more
    /// than 16 names are registered and an annotation's name has an escape.
    pub fn look(
        &self,
        place: usize,
        byte: usize,
        names: &Names,
    ) -> Result<Option<(Token, usize)>, Fault>
        requires { IsPlace self.now place byte }
        ensures value { result ≡ shown self.now place names.now }
        ensures on { IfOk result (λ found. IfSome found (λ v. place < v.1)) }
        ensures after { IfOk result (λ found. IfSome found (IsAfter self.now)) }
    {
        match &self.tokens {
            Tokens::Table(table) => table.look(place, names),
            Tokens::Text(text) => text.look(place, byte, names),
        }
    }

    /// Returns the first raw token at or after a position that is not whitespace, its position, and
    /// its classification. With a table, comments are skipped too, and the classification is
    /// `Sight::Nothing` unless the token is visible under every set of names.
    #[inline(always)]
    pub fn first_at(&self, place: usize, byte: usize) -> (Token, usize, Sight)
        requires { IsPlace self.now place byte }
        ensures { IsSight self.now place result.2 result.0 result.1 }
    {
        match &self.tokens {
            Tokens::Table(table) => match table.plain_at(place) {
                Some((token, after)) => (token, after - 1, Sight::Plain),
                None => (NO_TOKEN, 0, Sight::Nothing),
            },
            Tokens::Text(text) => text.first_at(place, byte),
        }
    }

    /// Caches the token visible at a position. `is_marked` means that `(` and `@` are at the
    /// position.
    // Writes directly to the parser's cache: a result returned in memory would be loaded as a whole
    // just after it was stored in parts.
    #[inline(never)]
    pub fn keep_past(
        &self,
        place: usize,
        byte: usize,
        is_marked: bool,
        names: &Names,
        kept: &mut Kept,
    )
        requires place { IsPlace self.now place byte }
        requires marked { IsTrue is_marked → IsMarkedAt self.now place byte }
        ensures { IfSome kept.new (IsNext self.now place names.now) }
    {
        let found = match &self.tokens {
            Tokens::Text(text) => text.next_past(place, byte, is_marked, names),
            Tokens::Table(_) => None,
        };
        match found {
            Some((token, after)) => kept.keep(token, after),
            None => self.keep_look(place, byte, names, kept),
        }
    }

    /// Caches the token visible at a position, found by `look`. Clears the cache at the end of the
    /// text or at an error.
    #[inline(never)]
    pub fn keep_look(&self, place: usize, byte: usize, names: &Names, kept: &mut Kept)
        requires { IsPlace self.now place byte }
        ensures { IfSome kept.new (IsNext self.now place names.now) }
    {
        match self.look(place, byte, names) {
            Ok(Some((token, after))) => kept.keep(token, after),
            Ok(None) => kept.clear(),
            Err(_) => kept.clear(),
        }
    }

    /// Returns the comment at a position, after optional whitespace, and the position after it.
    /// Returns `None` if another token or the end of the text comes first. Does not allocate.
    pub fn comment_at(&self, place: usize, byte: usize) -> Result<Option<(Token, usize)>, Fault>
        requires { IsPlace self.now place byte }
        ensures value { result ≡ comment_at self.now place }
        ensures on { IfOk result (λ found. IfSome found (λ v. place < v.1)) }
        ensures after { IfOk result (λ found. IfSome found (IsAfter self.now)) }
    {
        match &self.tokens {
            Tokens::Table(table) => table.comment_at(place),
            Tokens::Text(text) => text.comment_at(place, byte),
        }
    }

    /// Returns `true` if the text has a significant token or a lexical error.
    pub fn is_meaningful(&self) -> bool
        ensures { result ≡ is_meaningful self.now }
    {
        match &self.tokens {
            Tokens::Table(table) => table.is_meaningful(),
            Tokens::Text(text) => text.is_meaningful(),
        }
    }

    /// Converts an error that a peek found to an [`Error`]. A group without end is reported without
    /// its source line.
    #[cold]
    #[tactic(auto, unfolding(crate::specs::parser::State::report_of))]
    pub fn error_of(&self, fault: Fault) -> Error
        ensures { IsUnlessMemory result (report_of self.now.setting.text fault) }
    {
        let span = Span::from_offset(fault.offset);
        match fault.kind {
            FaultKind::Lex(error) => Error::lex(self.alloc(), span, self.text(), error),
            FaultKind::Unclosed => match String::from_str(self.alloc(), "unclosed annotation") {
                Ok(message) => Error::new(span, message),
                Err(refused) => Error::from(refused),
            },
        }
    }

    /// Creates an error with this message at an offset of the text.
    #[cold]
    pub fn error_at(&self, span: Span, message: &str) -> Error
        ensures { IsUnlessMemory result (message_at self.now span message.now) }
    {
        match String::from_str(self.alloc(), message) {
            Ok(message) => Error::parse(self.alloc(), span, self.text(), message),
            Err(refused) => Error::from(refused),
        }
    }
}
