//! The lexer of the WebAssembly text format.
ghost use Rattle.std.specs.Prelude.{
  ◌≡◌,
  ◌⊎◌,
  ◌≤◌,
  ◌<◌,
  ◌^◌,
  ◌+◌,
  ℕ,
  true,
  false,
  List,
  length,
  drop,
  Option,
};
ghost use Rattle.std.specs.Prelude.{
  Result,
  IfOk,
  IfErr,
  IfSome,
  IfNone,
  IsTrue,
  OnErr,
  slice_index,
};
ghost use Rattle.std.specs.Bool.{Decides};
ghost use Rattle.std.specs.List.{prefix_len};
ghost use Rattle.std.specs.Str.{IsCharBoundary, IsUtf8};
ghost use Rattle.wat_lex.specs.grammar.Classes.{close_paren, is_whitespace};
ghost use Rattle.wat_lex.specs.declared.lexer.faults.LexFault.{LexFault as Fault};
ghost use Rattle.wat_lex.specs.declared.lexer.kinds.Token.{Token as Lexed};
ghost use Rattle.wat_lex.specs.declared.lexer.kinds.TokenKind.TheVariants.{Whitespace, RParen};
ghost use Rattle.wat_lex.specs.tokens.BareWords.{bare_len, BareWordAt};
ghost use Rattle.wat_lex.specs.tokens.Faults.{FaultAt};
ghost use Rattle.wat_lex.specs.tokens.QuotedNames.{quoted_name_len, NamedAt};
ghost use Rattle.wat_lex.specs.tokens.Recovery.{ResumesAt};
ghost use Rattle.wat_lex.specs.tokens.Raw.{ErrorAt};
ghost use Rattle.wat_lex.specs.tokens.ReadableTokens.{IsTokenOf};
ghost use Rattle.wat_lex.specs.tokens.Tiling.{TokenAt};
ghost use Rattle.wat_lex.specs.tokens.Unclosed.{AreMarks};
ghost use Rattle.wat_lex.specs.tokens.UniqueTilings.{ResultAt, EndsFrom, SomeTiling};

use crate::error::Error;
use crate::token::Span;
use std::alloc::Global;
use std::marker::Model;

mod faults;
mod kinds;
mod read;
mod recover;
mod scan;
mod settings;
mod unclosed;

pub use faults::{LexError, LexFault};
pub use kinds::{FloatKind, IntegerKind, SignToken, Token, TokenKind};
use kinds::{Found, Lexeme, Stride};
pub use read::numbers::{Float, Integer, magnitude};
use recover::covered_len;
pub(crate) use scan::blocks::block_at;
use scan::classes::blank_len;
pub(crate) use scan::classes::is_confusing;
pub(crate) use scan::comments::first_confusing;
use scan::plain::quoted_name_len;
use scan::{bare_len, byte_at, fault_at_start, scan_at};
pub use settings::Settings;
use unclosed::{is_marked, mark_first};

/// A lexer over a source text. It splits the text into tokens, whitespace and comments, which cover
/// every byte up to the first lexical error.
#[derive(Clone, Drop)]
pub struct Lexer<'a> {
    input: &'a str,
    settings: Settings,
}

impl<'a> Model for Lexer<'a> {
    ghost use Rattle.std.specs.Prelude.{◌<◌, ◌^◌, length};
    ghost use Rattle.wat_lex.specs.tokens.Setting.{Setting};

    ghost Value = { Setting };

    ghost view = { λ l. record { text = l.input.now; flags = l.settings } };

    ghost invariant = { λ l. length l.input.now < 2 ^ 32 };
}

impl<'a> Lexer<'a> {
    /// Creates a lexer over a text with both settings off. The text must have at most `u32::MAX`
    /// bytes.
    pub fn new(input: &'a str) -> Lexer<'a>
        requires { length input.now < 2 ^ 32 }
        ensures setting { result ≡ record {
          text = input.now;
          flags = record { allow = false; strict = false };
        } }
        ensures start { IsCharBoundary input.now 0 }
    {
        let settings = Settings {
            allow: false,
            strict: false,
        };
        Lexer::with_settings(input, settings)
    }

    /// Creates a lexer over a text with the given settings. The text must have at most `u32::MAX`
    /// bytes.
    pub fn with_settings(input: &'a str, settings: Settings) -> Lexer<'a>
        requires { length input.now < 2 ^ 32 }
        ensures setting { result ≡ record { text = input.now; flags = settings } }
        ensures start { IsCharBoundary input.now 0 }
    {
        Lexer { input, settings }
    }

    /// Returns the source text.
    pub fn input(&self) -> &'a str
        ensures text { result.now ≡ self.now.text }
        ensures utf8 { IsUtf8 self.now.text }
        ensures short { length self.now.text < 2 ^ 32 }
    {
        self.input
    }

    /// Returns the settings.
    pub fn settings(&self) -> Settings
        ensures { result ≡ self.now.flags }
    {
        self.settings
    }

    /// Sets whether comments and strings may contain the 9 confusing characters, which can change
    /// how a text is displayed: U+202A, U+202B, U+202D, U+202E, U+2066 to U+2069, and U+206C.
    pub fn allow_confusing_unicode(&mut self, allow: bool) -> &mut Self
        ensures same { result.ghost_name ≡ self.entry.ghost_name }
        ensures setting { result.now ≡ record self.old {
          flags = record self.old.flags { allow = allow };
        } }
    {
        self.settings.allow = allow;
        self
    }

    /// Sets whether an underscore directly after another is a lexical error inside `\u{..}`.
    pub fn strict_underscores(&mut self, strict: bool) -> &mut Self
        ensures same { result.ghost_name ≡ self.entry.ghost_name }
        ensures setting { result.now ≡ record self.old {
          flags = record self.old.flags { strict = strict };
        } }
    {
        self.settings.strict = strict;
        self
    }

    /// Returns the token at byte offset `pos`, or `None` at the end of the text. Does not allocate.
    ///
    /// # Errors
    ///
    /// Returns the lexical error if no token begins at `pos`.
    // The result is large. Once inlined, it is not built in memory if the caller inspects it at
    // once.
    #[inline(always)]
    pub fn scan(&self, pos: usize) -> Result<Option<Token>, LexFault>
        requires { IsCharBoundary self.now.text pos }
        ensures token { IfOk result (λ found. IfSome found (TokenAt self.now pos)) }
        ensures end { IfOk result (λ found. IfNone found (pos ≡ length self.now.text)) }
        ensures fault { IfErr result (FaultAt self.now pos) }
        ensures one { (r : Result (Option Token) LexFault) → ResultAt self.now pos r → r ≡ result }

        // Readers accept the token. Its end is nearer to the end of the text, and is a character
        // boundary, so that it can be scanned in turn.
        ensures reader { IfOk result (λ found. IfSome found (IsTokenOf self.now.text)) }
        ensures some { IfOk result (λ found. IfSome found (λ t. 0 < t.len)) }
        ensures boundary { IfOk result (λ found. IfSome found (λ t.
            IsCharBoundary self.now.text (pos + t.len))) }
        ensures short { IfOk result (λ found. IfSome found (λ t. t.offset + t.len < 2 ^ 32)) }
    {
        match self.found(pos, Stride::Block) {
            Found::Lexeme(lexeme) => Ok(Some(self.token(pos, lexeme))),
            Found::End => Ok(None),
            Found::Fault => Err(self.fault(pos)),
        }
    }

    /// Returns the token at byte offset `pos`, or `None` at the end of the text, like
    /// [`Lexer::scan`]. Examines one byte at a time, for targets without vector instructions.
    ///
    /// # Errors
    ///
    /// Returns the lexical error if no token begins at `pos`.
    #[inline(always)]
    pub fn scan_by_byte(&self, pos: usize) -> Result<Option<Token>, LexFault>
        requires { IsCharBoundary self.now.text pos }
        ensures answer { ResultAt self.now pos result }
        ensures some { IfOk result (λ found. IfSome found (λ t. 0 < t.len)) }
        ensures boundary { IfOk result (λ found. IfSome found (λ t.
            IsCharBoundary self.now.text (pos + t.len))) }
        ensures short { IfOk result (λ found. IfSome found (λ t. t.offset + t.len < 2 ^ 32)) }
    {
        match self.found(pos, Stride::Byte) {
            Found::Lexeme(lexeme) => Ok(Some(self.token(pos, lexeme))),
            Found::End => Ok(None),
            Found::Fault => Err(self.fault(pos)),
        }
    }

    /// Returns the token at byte offset `pos`, or `None` at the end of the text, like
    /// [`Lexer::scan`]. `marks` records unclosed block comments between calls for one text, so that
    /// a loop that resumes after each lexical error does not search the rest of the text for the
    /// end of each of them. All marks must be 0 before the first call, and only this function may
    /// change them. 32 of them suffice for every text.
    ///
    /// # Errors
    ///
    /// Returns the lexical error if no token begins at `pos`.
    pub fn scan_with_marks(&self, pos: usize, marks: &mut [u32]) -> Result<Option<Token>, LexFault>
        requires boundary { IsCharBoundary self.now.text pos }
        requires marks { AreMarks self.now marks.old }
        ensures token { IfOk result (λ found. IfSome found (TokenAt self.now pos)) }
        ensures end { IfOk result (λ found. IfNone found (pos ≡ length self.now.text)) }
        ensures fault { IfErr result (FaultAt self.now pos) }
        ensures one { (r : Result (Option Token) LexFault) → ResultAt self.now pos r → r ≡ result }
        ensures some { IfOk result (λ found. IfSome found (λ t. 0 < t.len)) }
        ensures boundary { IfOk result (λ found. IfSome found (λ t.
            IsCharBoundary self.now.text (pos + t.len))) }
        ensures short { IfOk result (λ found. IfSome found (λ t. t.offset + t.len < 2 ^ 32)) }
        ensures marks { AreMarks self.now marks.new }
    {
        if is_marked(self, pos, marks) {
            return Err(LexFault {
                offset: pos,
                error: LexError::DanglingBlockComment,
            });
        }
        let result = self.scan(pos);
        match result {
            Err(
                LexFault {
                    offset,
                    error: LexError::DanglingBlockComment,
                },
            ) if offset == pos => mark_first(self, pos, marks),
            _ => {}
        }
        result
    }

    /// Returns the token at byte offset `pos`, and advances `pos` to the end of the token. Returns
    /// `None` at the end of the text.
    ///
    /// # Errors
    ///
    /// Returns the lexical error with its source line if no token begins at `pos`, or the
    /// out-of-memory error if that line cannot be copied. `pos` is then unchanged.
    // Without inlining, a program with two loops calls it, at 2.5 times the instructions for short
    // tokens.
    #[inline(always)]
    pub fn parse(&self, alloc: Global, pos: &mut usize) -> Result<Option<Token>, Error>
        requires { IsCharBoundary self.now.text pos.old }
        ensures token { IfOk result (λ found. IfSome found (λ t.
            TokenAt self.now pos.old t × (pos.new ≡ t.offset + t.len))) }
        ensures end { IfOk result (λ found. IfNone found (
            (pos.old ≡ length self.now.text) × (pos.new ≡ pos.old))) }
        ensures fault { IfErr result (ErrorAt self.now pos.old) }
        ensures reader { IfOk result (λ found. IfSome found (IsTokenOf self.now.text)) }
        ensures progress { IfOk result (λ found. IfSome found (λ t. pos.old < pos.new)) }
        ensures kept { OnErr result (pos.new ≡ pos.old) }
        ensures boundary { IsCharBoundary self.now.text pos.new }
    {
        let start = *pos;
        match self.found(start, Stride::Block) {
            Found::Lexeme(lexeme) => {
                let token = self.token(start, lexeme);
                *pos = start + token.len as usize;
                Ok(Some(token))
            }
            Found::End => Ok(None),
            Found::Fault => Err(self.error_at(alloc, start)),
        }
    }

    /// Returns the token at byte offset `pos`, or `None` at the end of the text or at a lexical
    /// error.
    #[inline(always)]
    pub fn token_at(&self, pos: usize) -> Option<Token>
        requires { IsCharBoundary self.now.text pos }
        ensures token { IfSome result (TokenAt self.now pos) }
        ensures none { IfNone result ((pos ≡ length self.now.text)
            ⊎ ((f : Fault) × FaultAt self.now pos f)) }
        ensures reader { IfSome result (IsTokenOf self.now.text) }
        ensures some { IfSome result (λ t. 0 < t.len) }
        ensures boundary { IfSome result (λ t. IsCharBoundary self.now.text (pos + t.len)) }
        ensures short { IfSome result (λ t. t.offset + t.len < 2 ^ 32) }
    {
        match self.found(pos, Stride::Block) {
            Found::Lexeme(lexeme) => Some(self.token(pos, lexeme)),
            Found::End => None,
            Found::Fault => None,
        }
    }

    /// Skips the whitespace at byte offset `pos`. Returns the offset after it, or `pos` if there is
    /// none.
    #[inline(always)]
    pub fn past_whitespace(&self, pos: usize) -> usize
        requires { IsCharBoundary self.now.text pos }
        ensures value { result ≡ pos + prefix_len is_whitespace (drop pos self.now.text) }
        ensures token { pos < result → (t : Lexed) × TokenAt self.now pos t
            × (t.kind ≡ Whitespace) × (result ≡ t.offset + t.len) }
        ensures boundary { IsCharBoundary self.now.text result }
    {
        let text = self.input();
        pos + blank_len(&text.as_bytes()[pos..])
    }

    /// Returns `true` if the byte at offset `pos` is `)`.
    #[inline(always)]
    pub fn is_close(&self, pos: usize) -> bool
        requires { IsCharBoundary self.now.text pos }
        ensures value { Decides result (slice_index self.now.text pos ≡ close_paren) }
        ensures token { IsTrue result → TokenAt self.now pos (record {
          offset = pos;
          len = 1;
          kind = RParen;
        }) }
        ensures boundary { IsTrue result → IsCharBoundary self.now.text (pos + 1) }
    {
        let text = self.input();
        byte_at(text.as_bytes(), pos) == b')'
    }

    /// Skips the idchars at byte offset `pos`, without classifying them. Returns the offset after
    /// them, or `pos` if there are none or if a string follows them directly.
    #[inline(always)]
    pub fn past_bare_word(&self, pos: usize) -> usize
        requires { IsCharBoundary self.now.text pos }
        ensures value { result ≡ pos + bare_len (drop pos self.now.text) }
        ensures token { pos < result → BareWordAt self.now pos result }
        ensures boundary { IsCharBoundary self.now.text result }
    {
        let text = self.input();
        pos + bare_len(&text.as_bytes()[pos..])
    }

    /// Skips an annotation with a quoted name at byte offset `pos`. Returns the offset after it, or
    /// `pos` if there is none. The name must be nonempty and have neither an escape nor a byte
    /// 0xE2, with which confusing characters begin.
    #[inline(always)]
    pub fn past_quoted_name(&self, pos: usize) -> usize
        requires { IsCharBoundary self.now.text pos }
        ensures value { result ≡ pos + quoted_name_len (drop pos self.now.text) }
        ensures token { pos < result → NamedAt self.now pos result }
        ensures boundary { IsCharBoundary self.now.text result }
    {
        let text = self.input();
        pos + quoted_name_len(&text.as_bytes()[pos..])
    }

    /// Returns the first lexical error from byte offset `pos` on, or `None` if there is none.
    pub fn first_fault(&self, pos: usize) -> Option<LexFault>
        requires { IsCharBoundary self.now.text pos }
        ensures ends { EndsFrom self.now pos result }
        ensures one { (ending : Option LexFault) → EndsFrom self.now pos ending →
            ending ≡ result }
    {
        let mut at = pos;
        'tokens: loop {
            match self.scan(at) {
                Ok(Some(token)) => at = token.offset + token.len as usize,
                Ok(None) => return None,
                Err(fault) => return Some(fault),
            }
        }
    }

    /// Returns the byte offset at which lexing resumes after the lexical error at `pos`: the end of
    /// what the error covers.
    ///
    /// | error | covers |
    /// |---|---|
    /// | a character with which no token begins | that character |
    /// | an unterminated block comment | its `(;` alone |
    /// | a confusing character in a comment | the comment |
    /// | an error in a string | the run that contains the string, up to the end of the string |
    ///
    /// The string ends after the next unescaped quote in its line. If there is none, it ends before
    /// the line end. A backslash escapes a quote or a backslash directly after it. This rule is
    /// specific to this crate: neither the standard nor `wast` has one.
    ///
    /// The tokens before the error are those that [`Lexer::scan`] returned. From the returned
    /// offset on, the text is lexed as from any other offset.
    pub fn resume(&self, pos: usize, fault: LexFault) -> usize
        requires start { IsCharBoundary self.now.text pos }
        requires fault { FaultAt self.now pos fault }
        ensures place { ResumesAt self.now pos fault result }
        ensures one { (place : ℕ) → ResumesAt self.now pos fault place → place ≡ result }
        ensures progress { pos < result }
        ensures reported { (pos ≤ fault.offset) × (fault.offset ≤ result) }
        ensures boundary { IsCharBoundary self.now.text result }
        ensures tiling { SomeTiling self.now result }
    {
        pos + covered_len(&self.input()[pos..], fault.error, self.settings())
    }

    ghost use Rattle.wat_lex.specs.inside.Outlines.{FoundIn, BeginsWithFault};
    ghost use Rattle.wat_lex.specs.inside.ScannedLexemes.{LexemeFound};

    /// Returns what is at byte offset `pos`: a token, the end of the text, or a lexical error.
    #[inline(always)]
    fn found(&self, pos: usize, stride: Stride) -> Found
        requires { IsCharBoundary self.now.text pos }
        ensures { FoundIn self.now.flags (drop pos self.now.text) result }
    {
        scan_at(self.input, pos, &self.settings, stride)
    }

    /// Creates the token of a lexeme that was found at byte offset `pos`.
    #[inline(always)]
    fn token(&self, pos: usize, lexeme: Lexeme) -> Token
        requires start { IsCharBoundary self.now.text pos }
        requires found { LexemeFound self.now.flags (drop pos self.now.text) lexeme }
        ensures token { TokenAt self.now pos result }
        ensures len { result.len ≡ lexeme.len }
        ensures reader { IsTokenOf self.now.text result }
        ensures some { 0 < result.len }
        ensures boundary { IsCharBoundary self.now.text (pos + result.len) }
        ensures short { result.offset + result.len < 2 ^ 32 }
    {
        // Needed only by the proof: the contract of `input` states that the text is UTF-8.
        let _ = self.input();
        Token {
            kind: lexeme.kind,
            offset: pos,
            len: lexeme.len as u32,
        }
    }

    /// Returns the lexical error at byte offset `pos`.
    #[cold]
    #[inline(never)]
    fn fault(&self, pos: usize) -> LexFault
        requires start { IsCharBoundary self.now.text pos }
        requires refused { BeginsWithFault self.now.flags (drop pos self.now.text) }
        ensures { FaultAt self.now pos result }
    {
        let fault = fault_at_start(&self.input[pos..], self.settings);
        LexFault {
            offset: pos + fault.offset,
            error: fault.error,
        }
    }

    ghost use Rattle.wat_lex.specs.values.Annotations.{AnnotationAt};

    /// Returns the annotation at byte offset `pos`, which may be any offset. Returns `None` if the
    /// byte there is not `@`, or if the token there is not an annotation.
    ///
    /// # Errors
    ///
    /// Returns the lexical error with its source line if the byte is `@` and no token begins there,
    /// or the out-of-memory error if that line cannot be copied.
    #[inline]
    pub fn annotation(&self, alloc: Global, pos: usize) -> Result<Option<Token>, Error>
        ensures found { AnnotationAt self.now pos result }
        ensures reader { IfOk result (λ found. IfSome found (IsTokenOf self.now.text)) }
    {
        if self.input().as_bytes().get(pos) != Some(&b'@') {
            return Ok(None);
        }
        let token = self.parse(alloc, &mut { pos })?;
        Ok(token.filter(|token| token.kind == TokenKind::Annotation))
    }

    /// Returns the lexical error at byte offset `pos` with its source line, or the out-of-memory
    /// error if that line cannot be copied.
    #[cold]
    #[inline(never)]
    fn error_at(&self, alloc: Global, pos: usize) -> Error
        requires start { IsCharBoundary self.now.text pos }
        requires refused { BeginsWithFault self.now.flags (drop pos self.now.text) }
        ensures { ErrorAt self.now pos result }
    {
        let fault = self.fault(pos);
        let span = Span::from_offset(fault.offset);
        Error::lex(alloc, span, self.input(), fault.error)
    }

    ghost use Rattle.std.specs.Iterator.{Drains};
    ghost use Rattle.std.specs.Iterator.Runs.{EachRunFrom};
    ghost use Rattle.wat_lex.specs.tokens.Laws.{Laws};
    ghost use Rattle.wat_lex.specs.tokens.CutsAndMoves.{Cuts, Moves};
    ghost use Rattle.wat_lex.specs.tokens.Raw.{Item, Raw, token_steps};
    ghost use Rattle.wat_lex.specs.tokens.UniqueTilings.{OneTiling};

    /// Returns an iterator over the raw tokens from byte offset `pos` on, up to the end of the text
    /// or the first lexical error.
    pub fn iter<'l>(&'l self, alloc: Global, pos: usize) -> Tokens<'l, 'a>
        requires { IsCharBoundary self.now.text pos }
        ensures start { result ≡ record { setting = self.now; at = pos; done = false } }
        ensures raw { (items : List Item) →
            Drains token_steps result items → Raw self.now pos items }
        ensures laws { (items : List Item) →
            Drains token_steps result items → Laws self.now pos items }
        ensures runs { EachRunFrom token_steps result (λ p.
            p.whole ≡ true → Raw self.now pos p.items) }
        ensures some { SomeTiling self.now pos }
        ensures one { OneTiling self.now pos }
        ensures cuts { Cuts self.now pos }
        ensures moves { Moves self.now pos }
    {
        // Needed only by the proof of the theorems: the contract of `input` states that the text is
        // UTF-8.
        let _ = self.input();
        Tokens {
            lexer: self,
            alloc,
            pos,
            done: false,
        }
    }
}

/// An iterator over the raw tokens of a text. It ends for good after the first lexical error, or at
/// the end of the text.
#[derive(Drop)]
pub struct Tokens<'l, 'a> {
    lexer: &'l Lexer<'a>,
    alloc: Global,
    pos: usize,
    done: bool,
}

impl<'l, 'a> Model for Tokens<'l, 'a> {
    ghost use Rattle.std.specs.Str.{IsCharBoundary};
    ghost use Rattle.wat_lex.specs.tokens.Raw.{Progress};

    ghost Value = { Progress };

    ghost view = { λ t. record { setting = t.lexer.now; at = t.pos; done = t.done } };

    ghost invariant = { λ t. IsCharBoundary t.lexer.now.text t.pos };
}

impl<'l, 'a> Iterator for Tokens<'l, 'a> {
    type Item = Result<Token, Error>;

    ghost use Rattle.std.specs.Iterator.{at_most};
    ghost use Rattle.wat_lex.specs.tokens.Raw.{token_steps, most_left};

    ghost next_gives = { token_steps };

    ghost remaining = { λ s. at_most (most_left s) };

    // Without inlining, a program with two loops calls it, at 2.5 times the instructions for short
    // tokens.
    #[inline(always)]
    fn next(&mut self) -> Option<Result<Token, Error>> {
        if self.done {
            return None;
        }
        let start = self.pos;
        match self.lexer.found(start, Stride::Block) {
            Found::Lexeme(lexeme) => {
                let token = self.lexer.token(start, lexeme);
                self.pos = start + token.len as usize;
                Some(Ok(token))
            }
            Found::End => {
                self.done = true;
                None
            }
            Found::Fault => {
                self.done = true;
                Some(Err(self.lexer.error_at(self.alloc, start)))
            }
        }
    }
}
