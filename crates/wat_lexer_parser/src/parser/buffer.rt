//! Buffers with a token table.
ghost use Rattle.std.specs.Prelude.{◌≡◌, ◌<◌, ◌^◌, false, length, IfOk, IfErr};
ghost use Rattle.std.specs.Str.{IsUtf8};
ghost use Rattle.wat_lexer_parser.specs.names.RegisteredNames.{no_names};
ghost use Rattle.wat_lexer_parser.specs.places.Source.{IsRead, Source};

use crate::parser::Parser;
use crate::parser::source_ref::SourceRef;
use crate::parser::table::Table;
use crate::parser::table_ref::TableRef;
use std::alloc::Global;
use std::marker::Model;
use wat_lex::error::Error;
use wat_lex::lexer::{LexFault, Lexer, Settings, Token};

/// A text with a table of its raw tokens.
///
/// The text is lexed once, when the buffer is created. A lexical error is stored, and reported when
/// a parser reaches it.
#[derive(Drop)]
pub struct ParseBuffer<'a> {
    lexer: Lexer<'a>,
    track: bool,
    table: Table,
    alloc: Global,
}

impl<'a> Model for ParseBuffer<'a> {
    ghost use Rattle.std.specs.Prelude.{map};
    ghost use Rattle.wat_lexer_parser.specs.inside.Table.{IsTable};
    ghost use Rattle.wat_lexer_parser.specs.inside.TableNames.{name_view};
    ghost use Rattle.wat_lexer_parser.specs.places.Source.{Source};

    ghost Value = { Source };

    ghost view = { λ b. record {
      setting = b.lexer;
      track = b.track;
      tokens = b.table.tokens.items;
      ending = b.table.fault;
    } };

    ghost invariant = { λ b. IsTable
        (record {
          setting = b.lexer;
          track = b.track;
          tokens = b.table.tokens.items;
          ending = b.table.fault;
        })
        b.table.opens.items (map name_view b.table.names.items) b.table.starts.items
        b.table.closes.items };
}

impl<'a> ParseBuffer<'a> {
    /// Lexes a text, with both settings of the lexer off. The text must be shorter than 2^32 bytes.
    ///
    /// # Errors
    ///
    /// Fails only if an allocation fails.
    pub fn new(alloc: Global, text: &'a str) -> Result<ParseBuffer<'a>, Error>
        requires { length text.now < 2 ^ 32 }
        ensures setting { IfOk result (λ b. b.setting ≡ record {
          text = text.now;
          flags = record { allow = false; strict = false };
        }) }
        ensures track { IfOk result (λ b. b.track ≡ false) }
        ensures read { IfOk result IsRead }
        ensures memory { IfErr result (λ e. e ≡ None) }
    {
        ParseBuffer::new_with_lexer(alloc, Lexer::new(text))
    }

    /// Lexes the text of a lexer, with its settings.
    ///
    /// # Errors
    ///
    /// Fails only if an allocation fails.
    pub fn new_with_lexer(alloc: Global, lexer: Lexer<'a>) -> Result<ParseBuffer<'a>, Error>
        ensures setting { IfOk result (λ b. b.setting ≡ lexer.entry) }
        ensures track { IfOk result (λ b. b.track ≡ false) }
        ensures read { IfOk result IsRead }
        ensures memory { IfErr result (λ e. e ≡ None) }
    {
        let table = Table::of(alloc, &lexer)?;
        Ok(ParseBuffer {
            lexer,
            track: false,
            table,
            alloc,
        })
    }

    /// Sets the flag that [`Parser::track_instr_spans`] returns. It has no other effect.
    pub fn track_instr_spans(&mut self, track: bool) -> &mut Self
        ensures same { result.ghost_name ≡ self.entry.ghost_name }
        ensures track { result.now ≡ record self.old { track = track } }
    {
        self.track = track;
        self
    }

    /// Returns the raw tokens of the text, up to its end or its first lexical error.
    pub fn raw(&self) -> &[Token]
        ensures tokens { result.now ≡ self.now.tokens }
        ensures read { IsRead self.now }
    {
        &self.table.tokens
    }

    /// Returns the first lexical error of the text.
    pub fn lex_fault(&self) -> Option<LexFault>
        ensures ending { result ≡ self.now.ending }
        ensures read { IsRead self.now }
    {
        self.table.fault
    }

    /// Creates a parser at the start of the text, with no names registered and no group open.
    pub fn parser(&self) -> Parser<'_>
        ensures start { result ≡ record {
          source = self.now;
          place = 0;
          names = no_names;
          depth = 0;
        } }
        ensures read { IsRead self.now }
    {
        Parser::new(SourceRef::of_table(self.table_ref()))
    }

    /// Lemma (no effect): a buffer's tokens are those of its text, which is UTF-8 and shorter than
    /// 2^32 bytes.
    pub fn lemma_sound(&self)
        ensures read { IsRead self.now }
        ensures utf8 { IsUtf8 self.now.setting.text }
        ensures short { length self.now.setting.text < 2 ^ 32 }
    {
        let table = self.table_ref();
        let _text = table.text();
    }

    /// Lemma (no effect): the raw tokens of a text are unique under its lexer settings.
    pub(crate) fn lemma_only(&self)
        ensures only { (s : Source) → IsRead s → s.setting ≡ self.now.setting →
            s.track ≡ self.now.track → s ≡ self.now }
        ensures read { IsRead self.now }
    {
        wat_lex::laws::one_tiling();
        let _table = self.table_ref();
    }

    /// Returns the buffer as its parsers borrow it.
    pub(crate) fn table_ref(&self) -> TableRef<'_>
        ensures same { result ≡ self.now }
        ensures read { IsRead self.now }
    {
        TableRef::new(
            self.lexer.input(),
            self.lexer.settings(),
            self.track,
            &self.table,
            self.alloc,
        )
    }
}
