//! Buffers without a token table.
ghost use Rattle.std.specs.Prelude.{◌≡◌, ◌<◌, ◌^◌, false, length};
ghost use Rattle.std.specs.Str.{IsUtf8};
ghost use Rattle.wat_lexer_parser.specs.names.RegisteredNames.{no_names};
ghost use Rattle.wat_lexer_parser.specs.parser.State.{Answers};
ghost use Rattle.wat_lexer_parser.specs.places.Source.{IsRead, Source};
ghost use Rattle.wat_lexer_parser.specs.readings.Readings.{whole, whole_may_allocate};

use crate::parser::source_ref::SourceRef;
use crate::parser::text_ref::TextRef;
use crate::parser::whole::read;
use crate::parser::{Parse, Parser};
use std::alloc::Global;
use std::marker::Model;
use wat_lex::error::Error;
use wat_lex::lexer::{LexFault, Lexer};

/// A text that its parsers lex on demand.
///
/// Creating a buffer neither lexes nor allocates. Its parsers yield the same tokens as those of a
/// [`ParseBuffer`](crate::parser::ParseBuffer).
///
/// A parser that advances lexes up to the next visible token, and caches it. `peek2`, `peek3`,
/// cursors that advance, and peeks at an error or at the end of the text lex their tokens each
/// time. If they skip the group of an unregistered annotation, they lex it again.
#[derive(Drop)]
pub struct LazyBuffer<'a> {
    lexer: Lexer<'a>,
    track: bool,
    alloc: Global,
}

impl<'a> Model for LazyBuffer<'a> {
    ghost use Rattle.wat_lexer_parser.specs.inside.RawTokens.{raws};
    ghost use Rattle.wat_lexer_parser.specs.places.Source.{Source};

    ghost Value = { Source };

    ghost view = { λ b. record {
      setting = b.lexer;
      track = b.track;
      tokens = (raws b.lexer).tokens;
      ending = (raws b.lexer).ending;
    } };
}

impl<'a> LazyBuffer<'a> {
    /// Creates a buffer of a text, with both settings of the lexer off. The text must be shorter
    /// than 2^32 bytes.
    pub fn new(alloc: Global, text: &'a str) -> LazyBuffer<'a>
        requires { length text.now < 2 ^ 32 }
        ensures setting { result.setting ≡ record {
          text = text.now;
          flags = record { allow = false; strict = false };
        } }
        ensures track { result.track ≡ false }
        ensures read { IsRead result }
    {
        LazyBuffer::new_with_lexer(alloc, Lexer::new(text))
    }

    /// Creates a buffer of the text of a lexer, with its settings.
    pub fn new_with_lexer(alloc: Global, lexer: Lexer<'a>) -> LazyBuffer<'a>
        ensures setting { result.setting ≡ lexer.entry }
        ensures track { result.track ≡ false }
        ensures read { IsRead result }
    {
        let _text = lexer.input();
        LazyBuffer {
            lexer,
            track: false,
            alloc,
        }
    }

    /// Sets the flag that [`Parser::track_instr_spans`] returns. It has no other effect.
    pub fn track_instr_spans(&mut self, track: bool) -> &mut Self
        ensures same { result.ghost_name ≡ self.entry.ghost_name }
        ensures track { result.now ≡ record self.old { track = track } }
    {
        self.track = track;
        self
    }

    /// Returns the lexer, which yields the raw tokens of the text one by one.
    pub fn lexer(&self) -> &Lexer<'a>
        ensures { result.now ≡ self.now.setting }
    {
        &self.lexer
    }

    /// Returns the first lexical error of the text, which is lexed up to there. Does not allocate.
    pub fn lex_fault(&self) -> Option<LexFault>
        ensures ending { result ≡ self.now.ending }
        ensures read { IsRead self.now }
    {
        self.lemma_sound();
        self.lexer.first_fault(0)
    }

    /// Creates a parser at the start of the text, with no names registered and no group open.
    pub fn parser(&self) -> Parser<'_>
        ensures start { result ≡ record {
          source = self.now;
          place = 0;
          names = no_names;
          depth = 0;
        } }
        ensures read { IsRead self.now }
    {
        self.lemma_sound();
        Parser::new(SourceRef::of_text(TextRef::new(
            self.lexer.input(),
            self.lexer.settings(),
            self.track,
            self.alloc,
        )))
    }

    /// Parses the whole text, like [`parse`](crate::parser::parse), with no annotation names
    /// registered.
    ///
    /// Returns a value if and only if the type's `meaning` reads the whole text.
    ///
    /// # Errors
    ///
    /// Returns the error of the type, or `extra tokens remaining after parse` at the first
    /// remaining token, or the error that a peek finds after the value. Fails if an allocation
    /// fails.
    pub fn parse<'b, T: Parse<'b>>(&'b self) -> Result<T, Error>
        ensures value { (s : Source) → IsRead s → s.setting ≡ self.now.setting →
            s.track ≡ self.now.track →
            Answers (whole_may_allocate T.meaning s) T.value (whole T.meaning s) result }
        ensures read { IsRead self.now }
    {
        self.lemma_only();
        read(self.parser())
    }

    /// Lemma (no effect): a buffer's tokens are those of its text, which is UTF-8 and shorter than
    /// 2^32 bytes.
    pub fn lemma_sound(&self)
        ensures read { IsRead self.now }
        ensures utf8 { IsUtf8 self.now.setting.text }
        ensures short { length self.now.setting.text < 2 ^ 32 }
    {
        let _text = self.lexer.input();
    }

    /// Lemma (no effect): the raw tokens of a text are unique under its lexer settings.
    fn lemma_only(&self)
        ensures only { (s : Source) → IsRead s → s.setting ≡ self.now.setting →
            s.track ≡ self.now.track → s ≡ self.now }
        ensures read { IsRead self.now }
    {
        wat_lex::laws::one_tiling();
        self.lemma_sound();
    }
}
