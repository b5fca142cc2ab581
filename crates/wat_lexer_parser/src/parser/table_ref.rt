//! Peeking into a source text with a token table.
ghost use Rattle.std.specs.Prelude.{
  ◌≡◌,
  ◌<◌,
  ◌≤◌,
  ◌^◌,
  ◌+◌,
  ◌-◌,
  false,
  length,
  drop,
  map,
  not,
  Some,
  Ok,
};
ghost use Rattle.std.specs.Prelude.{IsTrue};
ghost use Rattle.std.specs.Prelude.{slice_get};
ghost use Rattle.std.specs.List.{list_any};
ghost use Rattle.std.specs.Prelude.{IfOk, IfErr, IfSome};
ghost use Rattle.std.specs.Str.{IsUtf8};
ghost use Rattle.wat_lex.specs.errors.Errors.{IsUnlessMemory};
ghost use Rattle.wat_lex.specs.tokens.ReadableTokens.{IsTokenOf, word_of};
ghost use Rattle.wat_lex.specs.values.Names.{HasNoEscape};
ghost use Rattle.wat_lex.specs.declared.lexer.kinds.Token.{Token};
ghost use Rattle.wat_lex.specs.declared.lexer.kinds.TokenKind.TheVariants.{Annotation, LParen};
ghost use Rattle.wat_lexer_parser.specs.declared.parser.fault.FaultKind.TheVariants.{Lex};
ghost use Rattle.wat_lexer_parser.specs.declared.parser.fault.Step.TheVariants.{Refuse, Skip, Take};
ghost use Rattle.wat_lex.specs.tokens.Blanks.{is_blank, is_comment, is_space};
ghost use Rattle.wat_lexer_parser.specs.inside.Next.{IsAfter, IsNext};
ghost use Rattle.wat_lexer_parser.specs.inside.Table.{HeadsAnnotation, IsTable, Pair};
ghost use Rattle.wat_lexer_parser.specs.inside.TableNames.{name_view, written_view};
ghost use Rattle.wat_lexer_parser.specs.names.RegisteredNames.{Names as NamesOf};
ghost use Rattle.wat_lexer_parser.specs.parser.State.{message_at, report_of};
ghost use Rattle.wat_lexer_parser.specs.places.Places.{offset_at};
ghost use Rattle.wat_lexer_parser.specs.places.Places.{comment_at, past_space, is_meaningful};
ghost use Rattle.wat_lexer_parser.specs.places.Source.{IsRead};
ghost use Rattle.wat_lexer_parser.specs.shown.Shown.{ended, unclosed_ending};
ghost use Rattle.wat_lexer_parser.specs.shown.Showing.{placed, shown};
ghost use Rattle.wat_lexer_parser.specs.inside.ShownIn.{name_at, step_kind};
ghost use Rattle.wat_lexer_parser.specs.inside.ShownIn.{step_named, step_next, step_of};

use crate::parser::fault::{Fault, FaultKind, Step};
use crate::parser::names::Names;
use crate::parser::steps::{
    is_comment, is_space, is_unregistered, lexical, step_by, step_of_invalid_name,
};
use crate::parser::table::{Table, find, is_annotation};
use std::alloc::Global;
use std::marker::Model;
use wat_lex::error::Error;
use wat_lex::lexer::{LexError, LexFault, Settings, Token, TokenKind};
use wat_lex::token::Span;

/// A buffer's text and token table, borrowed by a parser.
///
/// It holds references of a single lifetime to the parts, not to the buffer, so that a buffer in a
/// local variable can be lent to its parsers.
#[derive(Drop)]
pub struct TableRef<'a> {
    text: &'a str,
    settings: Settings,
    track: bool,
    table: &'a Table,
    alloc: Global,
}

impl<'a> Model for TableRef<'a> {
    ghost use Rattle.std.specs.Prelude.{map};
    ghost use Rattle.wat_lexer_parser.specs.inside.Table.{IsTable};
    ghost use Rattle.wat_lexer_parser.specs.inside.TableNames.{name_view};
    ghost use Rattle.wat_lexer_parser.specs.inside.Codes.{source_code};
    ghost use Rattle.wat_lexer_parser.specs.places.Source.{Source};
    ghost use Rattle.std.specs.Prelude.{◌<◌, ◌^◌, length};

    ghost Value = { Source };

    ghost coded = { source_code };

    ghost view = { λ b. record {
      setting = record { text = b.text.now; flags = b.settings };
      track = b.track;
      tokens = b.table.now.tokens.items;
      ending = b.table.now.fault;
    } };

    ghost invariant = { λ b. (length b.text.now < 2 ^ 32) × IsTable
        (record {
          setting = record { text = b.text.now; flags = b.settings };
          track = b.track;
          tokens = b.table.now.tokens.items;
          ending = b.table.now.fault;
        })
        b.table.now.opens.items (map name_view b.table.now.names.items) b.table.now.starts.items
        b.table.now.closes.items };
}

impl<'a> TableRef<'a> {
    pub fn new(
        text: &'a str,
        settings: Settings,
        track: bool,
        table: &'a Table,
        alloc: Global,
    ) -> TableRef<'a>
        requires short { length text.now < 2 ^ 32 }
        requires table { IsTable
            (record {
              setting = record { text = text.now; flags = settings };
              track = track;
              tokens = table.now.tokens.items;
              ending = table.now.fault;
            })
            table.now.opens.items (map name_view table.now.names.items) table.now.starts.items
            table.now.closes.items }
        ensures { result ≡ record {
          setting = record { text = text.now; flags = settings };
          track = track;
          tokens = table.now.tokens.items;
          ending = table.now.fault;
        } }
    {
        TableRef {
            text,
            settings,
            track,
            table,
            alloc,
        }
    }

    /// Lemma (no effect): the view's tokens are the raw tokens of the text, fewer than 2^63.
    pub fn lemma_read(&self)
        ensures read { IsRead self.now }
        ensures small { length self.now.tokens < 2 ^ 63 }
    {
        let _count = self.table.tokens.len();
    }

    /// Returns the flag set by `track_instr_spans` of the buffer.
    pub fn tracks(&self) -> bool
        ensures { result ≡ self.now.track }
    {
        self.track
    }

    pub fn text(&self) -> &'a str
        ensures text { result.now ≡ self.now.setting.text }
        ensures utf8 { IsUtf8 self.now.setting.text }
        ensures short { length self.now.setting.text < 2 ^ 32 }
    {
        self.text
    }

    pub fn alloc(&self) -> Global {
        self.alloc
    }
}

/// Returns `true` if a token is significant: neither whitespace nor a comment.
fn has_significant(tokens: &[Token]) -> bool
    ensures { result ≡ list_any (λ t. not (is_blank t.kind)) tokens.now }
{
    tokens.iter().any(|token| !token.kind.is_blank())
}

/// Returns the effect on a peek of a `(` before an annotation whose name, or its error, is in the
/// table.
fn step_of_stored_name(name: &Result<String, LexError>, token: Token, names: &Names) -> Step
    ensures { result ≡ step_named names.now token (Some (written_view name.now)) }
{
    match name {
        Ok(name) => step_by(name.as_str(), token, names),
        Err(error) => step_of_invalid_name(*error, token),
    }
}

// Peeks, which do not allocate.
impl<'a> TableRef<'a> {
    /// Returns the raw token at a position.
    pub fn token_at(&self, place: usize) -> Option<Token>
        ensures value { result ≡ slice_get self.now.tokens place }
        ensures within { IfSome result (λ t. place < length self.now.tokens) }
        ensures small { length self.now.tokens < 2 ^ 63 }
    {
        self.table.tokens.get(place).copied()
    }

    /// Lemma (no effect): the token at a position is a token of the text, so that its value can be
    /// read.
    pub fn lemma_readable(&self, place: usize, token: Token)
        requires { slice_get self.now.tokens place ≡ Some token }
        ensures token { IsTokenOf self.now.setting.text token }
        ensures short { token.offset + token.len < 2 ^ 32 }
    {
        let _count = self.table.tokens.len();
    }

    /// Returns the effect on a peek of a `(` before an annotation whose name is a slice of the
    /// text.
    fn step_in_text(&self, token: Token, names: &Names) -> Step
        requires token { IsTokenOf self.now.setting.text token }
        requires kind { token.kind ≡ Annotation }
        requires plain { HasNoEscape (word_of self.now.setting.text token) }
        ensures { result ≡ step_named names.now token (name_at self.now.setting.text token) }
    {
        match token.name(self.alloc, self.text()) {
            Ok(Ok(name)) => step_by(name.as_str(), token, names),
            Ok(Err(error)) => step_of_invalid_name(error, token),
            Err(_) => unreachable!(),
        }
    }

    /// Returns the effect on a peek of the `(` at a position, by the name of the annotation after
    /// it.
    // `inline(never)` keeps the common path of `look` small.
    #[inline(never)]
    fn step_named(&self, place: usize, names: &Names) -> Step
        requires within { place < 2 ^ 63 }
        requires head { (u : Token) × HeadsAnnotation self.now.tokens place u }
        ensures { result ≡ step_next self.now.setting.text names.now
            (slice_get self.now.tokens (place + 1)) }
    {
        let Some(token) = self.token_at(place + 1) else {
            return Step::Finish;
        };
        self.lemma_readable(place + 1, token);
        match find(&self.table.opens, &self.table.starts, place) {
            Some(i) => match &self.table.names[i] {
                Some(name) => step_of_stored_name(name, token, names),
                None => self.step_in_text(token, names),
            },
            None => Step::Take,
        }
    }

    /// Returns the position of the `)` that closes an annotation group, given the position of its
    /// `(`.
    fn close_of(&self, place: usize) -> Option<usize>
        requires { (u : Token) × HeadsAnnotation self.now.tokens place u }
        ensures { Pair self.now.tokens place result }
    {
        match find(&self.table.opens, &self.table.starts, place) {
            Some(i) => self.table.closes[i],
            None => None,
        }
    }

    /// Returns the effect on a peek of the `(` at a position, by the token directly after it.
    fn step_open(&self, place: usize, token: Token, names: &Names) -> Step
        requires within { place < 2 ^ 63 }
        requires short { token.offset < 2 ^ 32 }
        requires token { slice_get self.now.tokens place ≡ Some token }
        requires kind { token.kind ≡ LParen }
        ensures { result ≡ step_kind self.now.setting.text names.now token LParen
            (slice_get self.now.tokens (place + 1)) }
    {
        match self.token_at(place + 1) {
            Some(next) => match next.kind {
                TokenKind::Annotation => {
                    self.lemma_readable(place + 1, next);
                    if !token.is_marked(self.text()) {
                        Step::Take
                    } else if is_unregistered(self.text(), next, names) {
                        Step::Skip
                    } else {
                        self.step_named(place, names)
                    }
                }
                _ => Step::Take,
            },
            None => {
                if token.is_marked(self.text()) {
                    Step::Finish
                } else {
                    Step::Take
                }
            }
        }
    }

    /// Returns the effect on a peek of the token at a position.
    fn step(&self, place: usize, token: Token, names: &Names) -> Step
        requires within { place < 2 ^ 63 }
        requires short { token.offset < 2 ^ 32 }
        requires token { slice_get self.now.tokens place ≡ Some token }
        ensures { result ≡ step_of self.now.setting.text names.now token
            (slice_get self.now.tokens (place + 1)) }
    {
        match token.kind {
            TokenKind::Whitespace | TokenKind::LineComment | TokenKind::BlockComment => Step::Pass,
            TokenKind::LParen => self.step_open(place, token, names),
            _ => Step::Take,
        }
    }

    /// Returns the result of a peek that reaches the end of the tokens.
    fn ending(&self) -> Result<Option<(Token, usize)>, Fault>
        ensures { result ≡ placed self.now.tokens (ended self.now.ending) }
    {
        match self.table.fault {
            None => Ok(None),
            Some(fault) => Err(lexical(fault)),
        }
    }

    /// Returns the result of a peek that reaches the end of the tokens inside the group opened by
    /// `token`.
    fn unclosed_ending(&self, token: Token) -> Result<Option<(Token, usize)>, Fault>
        requires { token.offset < 2 ^ 32 }
        ensures { result ≡ placed self.now.tokens (unclosed_ending self.now.ending token) }
    {
        match self.table.fault {
            None => Err(Fault {
                offset: token.offset + 1,
                kind: FaultKind::Unclosed,
            }),
            Some(fault) => Err(lexical(fault)),
        }
    }

    /// Returns the token visible at a position, and the position after it. Does not allocate.
    pub fn look(&self, place: usize, names: &Names) -> Result<Option<(Token, usize)>, Fault>
        ensures value { result ≡ shown self.now place names.now }
        ensures on { IfOk result (λ found. IfSome found (λ v.
            (place < v.1) × (v.1 ≤ length self.now.tokens))) }
        ensures after { IfOk result (λ found. IfSome found (IsAfter self.now)) }
    {
        let mut i = place;
        while i < self.table.tokens.len() {
            let token = self.table.tokens[i];
            self.lemma_readable(i, token);
            match self.step(i, token, names) {
                Step::Pass => i += 1,
                Step::Take => return Ok(Some((token, i + 1))),
                Step::Finish => return self.ending(),
                Step::Refuse(fault) => return Err(fault),
                Step::Skip => match self.close_of(i) {
                    Some(close) => i = close + 1,
                    None => return self.unclosed_ending(token),
                },
            }
        }
        self.ending()
    }

    /// Returns the first position at or after `place` without whitespace or a comment.
    fn past_blanks(&self, place: usize) -> usize
        ensures on { place ≤ result }
        ensures same { (names : NamesOf) →
            shown self.now place names ≡ shown self.now result names }
    {
        let mut i = place;
        while i < self.table.tokens.len() && self.table.tokens[i].kind.is_blank() {
            i += 1;
        }
        i
    }

    /// Returns `true` only if the token at a position is visible under every set of names, by its
    /// kind and the next token's kind.
    fn is_plain(&self, place: usize, token: Token) -> bool
        requires within { place < 2 ^ 63 }
        requires token { slice_get self.now.tokens place ≡ Some token }
        ensures { IsTrue result → (names : NamesOf) →
            step_of self.now.setting.text names token (slice_get self.now.tokens (place + 1))
            ≡ Take }
    {
        match token.kind {
            TokenKind::Whitespace | TokenKind::LineComment | TokenKind::BlockComment => false,
            TokenKind::LParen => match self.token_at(place + 1) {
                Some(next) => !is_annotation(next.kind),
                None => false,
            },
            _ => true,
        }
    }

    /// Returns the token visible at a position, and the position after it, if it is visible under
    /// every set of names.
    #[inline(always)]
    pub fn plain_at(&self, place: usize) -> Option<(Token, usize)>
        ensures { IfSome result (λ v. (names : NamesOf) → IsNext self.now place names v) }
    {
        let i = self.past_blanks(place);
        match self.token_at(i) {
            Some(token) if self.is_plain(i, token) => {
                self.lemma_readable(i, token);
                Some((token, i + 1))
            }
            _ => None,
        }
    }

    /// Returns the position after the whitespace token at a position, or the position itself if
    /// there is none.
    #[tactic(auto, using(crate::proofs::places::Comments::spaces))]
    fn past_space(&self, place: usize) -> usize
        requires { place ≤ length self.now.tokens }
        ensures past { past_space (drop place self.now.tokens) ≡ drop result self.now.tokens }
        ensures on { place ≤ result }
    {
        match self.token_at(place) {
            Some(token) if is_space(token.kind) => place + 1,
            Some(_) => place,
            None => place,
        }
    }

    /// Returns the comment at a position, after optional whitespace, and the position after it.
    /// Returns `None` if another token or the end of the text comes first. Does not allocate.
    #[tactic(auto, using(crate::proofs::places::Comments::comments))]
    pub fn comment_at(&self, place: usize) -> Result<Option<(Token, usize)>, Fault>
        requires { place ≤ length self.now.tokens }
        ensures value { result ≡ comment_at self.now place }
        ensures on { IfOk result (λ found. IfSome found (λ v.
            (place < v.1) × (v.1 ≤ length self.now.tokens))) }
        ensures after { IfOk result (λ found. IfSome found (IsAfter self.now)) }
    {
        let at = self.past_space(place);
        match self.token_at(at) {
            Some(token) if is_comment(token.kind) => {
                self.lemma_readable(at, token);
                Ok(Some((token, at + 1)))
            }
            Some(_) => Ok(None),
            None => self.ending(),
        }
    }

    /// Returns `true` if the text has a significant token or a lexical error.
    pub fn is_meaningful(&self) -> bool
        ensures { result ≡ is_meaningful self.now }
    {
        has_significant(&self.table.tokens) || self.table.fault.is_some()
    }
}
