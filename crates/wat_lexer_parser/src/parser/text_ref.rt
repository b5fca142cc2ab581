//! Peeking into a source text that is lexed on demand, without a token table.
ghost use Rattle.std.specs.Prelude.{
  ◌≡◌,
  ◌<◌,
  ◌≤◌,
  ◌^◌,
  ◌+◌,
  ℕ,
  length,
  drop,
  slice_index_or,
  None,
  Some,
  slice_get,
};
ghost use Rattle.std.specs.Prelude.{
  IfOk,
  IfErr,
  IfSome,
  IfNone,
  IsTrue,
  Option,
  false,
  slice_index,
  ◌≢◌,
};
ghost use Rattle.std.specs.Str.{IsUtf8};
ghost use Rattle.wat_lex.specs.grammar.Classes.{at_sign, close_paren};
ghost use Rattle.wat_lex.specs.tokens.ReadableTokens.{IsTokenOf};
ghost use Rattle.wat_lex.specs.declared.lexer.kinds.Token.{Token as Lexed};
ghost use Rattle.wat_lexer_parser.specs.declared.parser.fault.FaultKind.TheVariants.{Unclosed};
ghost use Rattle.wat_lexer_parser.specs.declared.parser.fault.Step.TheVariants.{Skip, Take};
ghost use Rattle.wat_lexer_parser.specs.inside.Groups.{
  GroupEnds,
  IsCloseAt,
  IsPassedName,
  found_inside,
};
ghost use Rattle.wat_lexer_parser.specs.inside.FirstTokens.{
  IsMarkedAt,
  IsSight,
  SightOf,
  not_passed,
};
ghost use Rattle.wat_lexer_parser.specs.inside.Next.{IsAfter, IsNext, IsPlace};
ghost use Rattle.wat_lexer_parser.specs.inside.Rows.{IsRow};
ghost use Rattle.wat_lexer_parser.specs.declared.parser.text_ref.Row.{Row as FilledRow};
ghost use Rattle.wat_lexer_parser.specs.inside.ShownIn.{step_next, step_of};
ghost use Rattle.wat_lexer_parser.specs.names.RegisteredNames.{Names as NamesOf};
ghost use Rattle.wat_lexer_parser.specs.places.Places.{comment_at, is_meaningful, past_space};
ghost use Rattle.wat_lexer_parser.specs.places.Source.{IsRead};
ghost use Rattle.wat_lexer_parser.specs.shown.Shown.{unclosed_ending};
ghost use Rattle.wat_lexer_parser.specs.shown.Showing.{shown};

use crate::parser::fault::{Fault, FaultKind, Step};
use crate::parser::names::Names;
use crate::parser::steps::{is_comment, is_skipped_annotation, is_space, lexical, step_annotation};
use std::alloc::Global;
use std::marker::Model;
use wat_lex::lexer::{LexFault, Lexer, Settings, Token, TokenKind};

/// A token that is visible under every set of registered annotation names.
#[derive(Clone, Copy)]
pub struct Row {
    /// Byte offset of the token.
    pub offset: u32,
    /// Length in bytes.
    pub len: u32,
    /// Kind of the token.
    pub kind: TokenKind,
    /// End offset of the preceding visible token, or the offset at which the first row's peek
    /// starts. A peek from any position between `from` and `offset` yields this token.
    pub from: u32,
}

/// Classification of the first token at a position, for a peek.
#[derive(Clone, Copy)]
pub enum Sight {
    /// Visible under every set of names, regardless of the tokens after it.
    Plain,
    /// Whitespace or a comment: skipped.
    Blank,
    /// A `(` followed immediately by `@`: it may open the group of an annotation.
    Marked,
    /// No classification; the peek needs `look`.
    Nothing,
}

/// Placeholder in results without a token.
pub const NO_TOKEN: Token = Token {
    offset: 0,
    len: 0,
    kind: TokenKind::Whitespace,
};

/// A borrowed source text that a parser lexes on demand.
#[derive(Drop)]
pub struct TextRef<'a> {
    lexer: Lexer<'a>,
    track: bool,
    alloc: Global,
}

impl<'a> Model for TextRef<'a> {
    ghost use Rattle.wat_lexer_parser.specs.inside.RawTokens.{raws};
    ghost use Rattle.wat_lexer_parser.specs.inside.Codes.{source_code};
    ghost use Rattle.wat_lexer_parser.specs.places.Source.{Source};

    ghost Value = { Source };

    ghost coded = { source_code };

    ghost view = { λ b. record {
      setting = b.lexer;
      track = b.track;
      tokens = (raws b.lexer).tokens;
      ending = (raws b.lexer).ending;
    } };
}

impl<'a> TextRef<'a> {
    pub fn new(text: &'a str, settings: Settings, track: bool, alloc: Global) -> TextRef<'a>
        requires { length text.now < 2 ^ 32 }
        ensures setting { result.setting ≡ record { text = text.now; flags = settings } }
        ensures track { result.track ≡ track }
        ensures read { IsRead result }
    {
        let lexer = Lexer::with_settings(text, settings);
        let _text = lexer.input();
        TextRef {
            lexer,
            track,
            alloc,
        }
    }

    /// Lemma (no effect): the view's tokens are the raw tokens of the text, fewer than 2^32.
    pub fn lemma_read(&self)
        ensures read { IsRead self.now }
        ensures utf8 { IsUtf8 self.now.setting.text }
        ensures short { length self.now.setting.text < 2 ^ 32 }
        ensures small { length self.now.tokens < 2 ^ 32 }
    {
        let _text = self.lexer.input();
    }

    /// Returns the flag set by `track_instr_spans` of the buffer.
    pub fn tracks(&self) -> bool
        ensures { result ≡ self.now.track }
    {
        self.track
    }

    pub fn text(&self) -> &'a str
        ensures text { result.now ≡ self.now.setting.text }
        ensures utf8 { IsUtf8 self.now.setting.text }
        ensures short { length self.now.setting.text < 2 ^ 32 }
    {
        self.lexer.input()
    }

    pub fn alloc(&self) -> Global {
        self.alloc
    }

    /// Lexes the raw token at a position. Returns `None` at the end of the text, or an error if
    /// there is a lexical error.
    #[inline(always)]
    fn token_at(&self, place: usize, byte: usize) -> Result<Option<Token>, LexFault>
        requires { IsPlace self.now place byte }
        ensures token { IfOk result (λ found. found ≡ slice_get self.now.tokens place) }
        ensures end { IfOk result (λ found. IfNone found (self.now.ending ≡ None)) }
        ensures fault { IfErr result (λ f. (slice_get self.now.tokens place ≡ None)
            × (self.now.ending ≡ Some f)) }
        ensures next { IfOk result (λ found. IfSome found (λ t.
            IsPlace self.now (place + 1) (t.offset + t.len))) }
        ensures reader { IfOk result (λ found. IfSome found (IsTokenOf self.now.setting.text)) }
        ensures short { IfOk result (λ found. IfSome found (λ t. t.offset + t.len < 2 ^ 32)) }
    {
        self.lemma_read();
        self.lexer.scan(byte)
    }

    /// Returns the effect on a peek of a `(` that is followed immediately by `@`, by the token
    /// after it, at `place`.
    // `inline(never)` keeps the common path of `look` small.
    #[inline(never)]
    fn step_marked(&self, place: usize, byte: usize, names: &Names) -> Step
        requires { IsPlace self.now place byte }
        ensures { result ≡ step_next self.now.setting.text names.now
            (slice_get self.now.tokens place) }
    {
        match self.token_at(place, byte) {
            Ok(Some(token)) => match token.kind {
                TokenKind::Annotation => step_annotation(self.alloc, self.text(), token, names),
                _ => Step::Take,
            },
            Ok(None) => Step::Finish,
            Err(_) => Step::Finish,
        }
    }

    /// Returns the effect of the token at a position on a peek.
    #[inline(always)]
    fn step(&self, place: usize, token: Token, names: &Names) -> Step
        requires next { IsPlace self.now (place + 1) (token.offset + token.len) }
        requires short { token.offset + token.len < 2 ^ 32 }
        requires few { place < 2 ^ 63 }
        ensures { result ≡ step_of self.now.setting.text names.now token
            (slice_get self.now.tokens (place + 1)) }
    {
        match token.kind {
            TokenKind::Whitespace | TokenKind::LineComment | TokenKind::BlockComment => Step::Pass,
            TokenKind::LParen => {
                if token.is_marked(self.text()) {
                    self.step_marked(place + 1, token.offset + token.len as usize, names)
                } else {
                    Step::Take
                }
            }
            _ => Step::Take,
        }
    }

    /// Returns the token visible at a position, and the position after it. Allocates only if more
    /// than 16 names are registered and an annotation's name has an escape. The group of an
    /// unregistered annotation is lexed again by every call.
    pub fn look(
        &self,
        place: usize,
        byte: usize,
        names: &Names,
    ) -> Result<Option<(Token, usize)>, Fault>
        requires { IsPlace self.now place byte }
        ensures value { result ≡ shown self.now place names.now }
        ensures on { IfOk result (λ found. IfSome found (λ v. place < v.1)) }
        ensures after { IfOk result (λ found. IfSome found (IsAfter self.now)) }
    {
        let mut i = place;
        let mut pos = byte;
        self.lemma_read();
        'tokens: loop {
            let token = match self.token_at(i, pos) {
                Ok(Some(token)) => token,
                Ok(None) => return Ok(None),
                Err(fault) => return Err(lexical(fault)),
            };
            let end = token.offset + token.len as usize;
            match self.step(i, token, names) {
                Step::Pass | Step::Finish => {
                    i += 1;
                    pos = end;
                }
                Step::Take => return Ok(Some((token, i + 1))),
                Step::Refuse(fault) => return Err(fault),
                Step::Skip => match self.past_group(i + 1, end) {
                    Ok(Some(after)) => (i, pos) = after,
                    Ok(None) => return Err(unclosed(token)),
                    Err(fault) => return Err(lexical(fault)),
                },
            }
        }
    }

    /// Lexes the raw token at a position. Returns `None` at the end of the text or at a lexical
    /// error.
    #[inline(always)]
    fn some_token_at(&self, place: usize, byte: usize) -> Option<Token>
        requires { IsPlace self.now place byte }
        ensures token { IfSome result (λ t. slice_get self.now.tokens place ≡ Some t) }
        ensures none { IfNone result (slice_get self.now.tokens place ≡ None) }
        ensures at { IfSome result (λ t. t.offset ≡ byte) }
        ensures next { IfSome result (λ t. IsPlace self.now (place + 1) (t.offset + t.len)) }
        ensures reader { IfSome result (IsTokenOf self.now.setting.text) }
        ensures short { IfSome result (λ t. t.offset + t.len < 2 ^ 32) }
    {
        self.lemma_read();
        self.lexer.token_at(byte)
    }

    /// Skips whitespace at a position, if there is any.
    #[inline(always)]
    fn past_whitespace(&self, place: usize, byte: usize) -> (usize, usize)
        requires { IsPlace self.now place byte }
        ensures place { IsPlace self.now result.0 result.1 }
        ensures on { place ≤ result.0 }
        ensures same { (names : NamesOf) →
            shown self.now place names ≡ shown self.now result.0 names }
        ensures inside { (names : NamesOf) (paren : Lexed) (depth : ℕ) →
            found_inside self.now place depth names paren
            ≡ found_inside self.now result.0 depth names paren }
    {
        self.lemma_read();
        let end = self.lexer.past_whitespace(byte);
        if end == byte {
            return (place, byte);
        }
        (place + 1, end)
    }

    /// Skips a word of idchars inside a group without classifying it, if there is one at the
    /// position.
    #[inline(always)]
    fn past_bare_word(&self, place: usize, byte: usize) -> (usize, usize)
        requires { IsPlace self.now place byte }
        ensures place { IsPlace self.now result.0 result.1 }
        ensures on { place ≤ result.0 }
        ensures inside { (names : NamesOf) (paren : Lexed) (depth : ℕ) →
            found_inside self.now place depth names paren
            ≡ found_inside self.now result.0 depth names paren }
    {
        self.lemma_read();
        let end = self.lexer.past_bare_word(byte);
        if end == byte {
            return (place, byte);
        }
        (place + 1, end)
    }

    /// Returns `true` if the byte at the position is `)`.
    #[inline(always)]
    fn is_close(&self, place: usize, byte: usize) -> bool
        requires { IsPlace self.now place byte }
        ensures yes { IsTrue result → IsCloseAt self.now place byte }
        ensures no { result ≡ false → slice_index self.now.setting.text byte ≢ close_paren }
    {
        self.lemma_read();
        self.lexer.is_close(byte)
    }

    /// Classifies a token for a peek.
    #[inline(always)]
    fn sight(&self, token: Token) -> Sight
        requires { token.offset < 2 ^ 32 }
        ensures { SightOf self.now token result }
    {
        match token.kind {
            TokenKind::Whitespace | TokenKind::LineComment | TokenKind::BlockComment =>
                Sight::Blank,
            TokenKind::LParen if token.is_marked(self.text()) => Sight::Marked,
            _ => Sight::Plain,
        }
    }

    /// Returns the token visible at a position, the position after it, and `true`, if it is visible
    /// under every set of names. Otherwise returns a placeholder and `false`.
    // A separate flag: an `Option<Token>` would be tested by the token's kind once more.
    #[inline(always)]
    pub fn plain_at(&self, place: usize, byte: usize) -> (Token, usize, bool)
        requires { IsPlace self.now place byte }
        ensures { IsTrue result.2 → (names : NamesOf) →
            IsNext self.now place names (result.0, result.1) }
    {
        let mut i = place;
        let mut pos = byte;
        self.lemma_read();
        'tokens: loop {
            let (at, from) = self.past_whitespace(i, pos);
            let Some(token) = self.some_token_at(at, from) else {
                return (NO_TOKEN, 0, false);
            };
            match self.sight(token) {
                Sight::Blank => {
                    i = at + 1;
                    pos = token.offset + token.len as usize;
                }
                Sight::Plain => return (token, at + 1, true),
                _ => return (NO_TOKEN, 0, false),
            }
        }
    }

    /// Returns the first raw token at or after a position that is not whitespace, its position, and
    /// its classification: `Sight::Nothing` at the end of the text or at a lexical error.
    #[inline(always)]
    pub fn first_at(&self, place: usize, byte: usize) -> (Token, usize, Sight)
        requires { IsPlace self.now place byte }
        ensures { IsSight self.now place result.2 result.0 result.1 }
    {
        self.lemma_read();
        let (at, from) = self.past_whitespace(place, byte);
        match self.some_token_at(at, from) {
            Some(token) => (token, at, self.sight(token)),
            None => (NO_TOKEN, 0, Sight::Nothing),
        }
    }

    /// Skips to the position after the group that contains the given position. Returns `None` if
    /// the text ends, or has a lexical error, first.
    #[inline(always)]
    fn past_close(&self, place: usize, byte: usize) -> Option<(usize, usize)>
        requires { IsPlace self.now place byte }
        ensures ends { IfSome result (λ v. GroupEnds self.now place (Ok (Some v))) }
        ensures none { IfNone result ((names : NamesOf) (paren : Lexed) →
            found_inside self.now place 0 names paren ≡ unclosed_ending self.now.ending paren) }
        ensures on { IfSome result (λ v. place < v.0) }
    {
        let mut i = place;
        let mut pos = byte;
        let mut depth = 0usize;
        self.lemma_read();
        'tokens: loop {
            if self.is_close(i, pos) {
                i += 1;
                pos += 1;
                if depth == 0 {
                    return Some((i, pos));
                }
                depth -= 1;
                continue 'tokens;
            }
            let (word, start) = self.past_whitespace(i, pos);
            let (at, from) = self.past_bare_word(word, start);
            if at > i {
                i = at;
                pos = from;
                continue 'tokens;
            }
            let Some(token) = self.some_token_at(i, pos) else {
                return None;
            };
            i += 1;
            pos = token.offset + token.len as usize;
            match token.kind {
                TokenKind::LParen => depth += 1,
                _ => {}
            }
        }
    }

    /// Skips to the position after the group that contains the given position. Returns `Ok(None)`
    /// if the text ends first, or the lexical error that comes first.
    fn past_group(&self, place: usize, byte: usize) -> Result<Option<(usize, usize)>, LexFault>
        requires { IsPlace self.now place byte }
        ensures ends { GroupEnds self.now place result }
        ensures on { IfOk result (λ found. IfSome found (λ v. place < v.0)) }
    {
        if let Some(after) = self.past_close(place, byte) {
            return Ok(Some(after));
        }
        self.lemma_read();
        match self.lexer.first_fault(byte) {
            Some(fault) => Err(fault),
            None => Ok(None),
        }
    }

    /// Skips an annotation token at a position if its name is unquoted and no names are registered;
    /// the byte at the position must be `@`. Otherwise returns `None`.
    #[inline(always)]
    fn past_bare_name(&self, place: usize, byte: usize, names: &Names) -> Option<(usize, usize)>
        requires place { IsPlace self.now place byte }
        requires marked { slice_get self.now.setting.text byte ≡ Some at_sign }
        ensures { IfSome result (IsPassedName self.now place names.now) }
    {
        self.lemma_read();
        wat_lex::laws::names();
        wat_lex::laws::tokens();
        if !names.are_none() {
            return None;
        }
        let end = self.lexer.past_bare_word(byte);
        if end - byte < 2 {
            return None;
        }
        Some((place + 1, end))
    }

    /// Skips an annotation token at a position if its name is quoted without escapes and no names
    /// are registered. Otherwise returns `None`.
    #[inline(always)]
    fn past_quoted_name(&self, place: usize, byte: usize, names: &Names) -> Option<(usize, usize)>
        requires { IsPlace self.now place byte }
        ensures { IfSome result (IsPassedName self.now place names.now) }
    {
        self.lemma_read();
        if !names.are_none() {
            return None;
        }
        let end = self.lexer.past_quoted_name(byte);
        if end == byte {
            return None;
        }
        Some((place + 1, end))
    }

    /// Skips an annotation token at a position if its name is valid and not registered. Otherwise
    /// returns `None`.
    // `inline(never)` keeps the path for unquoted names small.
    #[inline(never)]
    fn past_read_name(&self, place: usize, byte: usize, names: &Names) -> Option<(usize, usize)>
        requires { IsPlace self.now place byte }
        ensures { IfSome result (IsPassedName self.now place names.now) }
    {
        if let Some(after) = self.past_quoted_name(place, byte, names) {
            return Some(after);
        }
        self.lemma_read();
        let Some(name) = self.some_token_at(place, byte) else {
            return None;
        };
        let text = self.text();
        match name.kind {
            TokenKind::Annotation if is_skipped_annotation(self.alloc, text, name, names) => {
                Some((place + 1, name.offset + name.len as usize))
            }
            _ => None,
        }
    }

    /// Skips an annotation token at a position if its name is valid and not registered; the byte at
    /// the position must be `@`. Otherwise returns `None`.
    #[inline(always)]
    fn past_name(&self, place: usize, byte: usize, names: &Names) -> Option<(usize, usize)>
        requires place { IsPlace self.now place byte }
        requires marked { slice_get self.now.setting.text byte ≡ Some at_sign }
        ensures { IfSome result (IsPassedName self.now place names.now) }
    {
        match self.past_bare_name(place, byte, names) {
            Some(after) => Some(after),
            None => self.past_read_name(place, byte, names),
        }
    }

    /// Skips the rest of an unregistered annotation's group. `place` is the position after its `(`,
    /// and the byte there must be `@`. Returns `None` if the name is registered, or at an error.
    #[inline(always)]
    fn past_annotation(&self, place: usize, byte: usize, names: &Names) -> Option<(usize, usize)>
        requires place { IsPlace self.now place byte }
        requires marked { slice_get self.now.setting.text byte ≡ Some at_sign }
        ensures skip { IfSome result (λ v. step_next self.now.setting.text names.now
            (slice_get self.now.tokens place) ≡ Skip) }
        ensures ends { IfSome result (λ v. GroupEnds self.now place (Ok (Some v))) }
        ensures on { IfSome result (λ v. place < v.0) }
    {
        match self.past_name(place, byte, names) {
            Some((after, end)) => self.past_close(after, end),
            None => None,
        }
    }

    /// Skips the group of an unregistered annotation if `is_marked`, that is, if `(` and `@` are at
    /// the position. Returns the position itself if not `is_marked`, or `None` if the group cannot
    /// be skipped.
    #[inline(always)]
    fn past_mark(
        &self,
        place: usize,
        byte: usize,
        is_marked: bool,
        names: &Names,
    ) -> Option<(usize, usize)>
        requires place { IsPlace self.now place byte }
        requires marked { IsTrue is_marked → IsMarkedAt self.now place byte }
        ensures place { IfSome result (λ v. IsPlace self.now v.0 v.1) }
        ensures on { IfSome result (λ v. place < v.0 + not_passed is_marked) }
        ensures same { IfSome result (λ v. shown self.now place names.now
            ≡ shown self.now v.0 names.now) }
    {
        if !is_marked {
            return Some((place, byte));
        }
        self.lemma_read();
        self.past_annotation(place + 1, byte + 1, names)
    }

    /// Returns the token visible at a position, and the position after it, skipping trivia and
    /// groups of unregistered annotations. Returns `None` at a registered annotation, an error or
    /// the end of the text, which are left to `look`. `is_marked` means that `(` and `@` are at the
    /// position.
    pub fn next_past(
        &self,
        place: usize,
        byte: usize,
        is_marked: bool,
        names: &Names,
    ) -> Option<(Token, usize)>
        requires place { IsPlace self.now place byte }
        requires marked { IsTrue is_marked → IsMarkedAt self.now place byte }
        ensures { IfSome result (IsNext self.now place names.now) }
    {
        let mut i = place;
        let mut pos = byte;
        let mut marked = is_marked;
        self.lemma_read();
        'tokens: loop {
            let Some((next, from)) = self.past_mark(i, pos, marked, names) else {
                return None;
            };
            let (token, at, sight) = self.first_at(next, from);
            match sight {
                Sight::Plain => return Some((token, at + 1)),
                Sight::Blank => {
                    i = at + 1;
                    pos = token.offset + token.len as usize;
                    marked = false;
                }
                Sight::Marked => {
                    i = at;
                    pos = token.offset;
                    marked = true;
                }
                Sight::Nothing => return None,
            }
        }
    }

    /// Fills `rows` with the tokens from a position on that are visible under every set of names,
    /// and returns their number. Stops before the first token whose visibility depends on names,
    /// before an error, or at the end.
    #[inline(never)]
    pub fn fill(&self, place: usize, byte: usize, rows: &mut [Row]) -> usize
        requires { IsPlace self.now place byte }
        ensures within { result ≤ length rows.new }
        ensures long { length rows.new ≡ length rows.old }
        ensures rows { (k : ℕ) (none : FilledRow) → k < result →
            IsRow self.now (slice_index_or rows.new k none) }
        ensures first { (none : FilledRow) → 0 < result →
            (slice_index_or rows.new 0 none).from ≡ byte }
    {
        let mut i = place;
        let mut pos = byte;
        self.lemma_read();
        let mut filled = 0usize;
        while filled < rows.len() {
            let (token, after, is_plain) = self.plain_at(i, pos);
            if !is_plain {
                return filled;
            }
            rows[filled] = Row {
                offset: token.offset as u32,
                len: token.len,
                kind: token.kind,
                from: pos as u32,
            };
            i = after;
            pos = token.offset + token.len as usize;
            filled += 1;
        }
        filled
    }

    /// Skips the whitespace token at a position, if there is one.
    #[tactic(auto, using(crate::proofs::places::Comments::spaces))]
    fn past_space(&self, place: usize, byte: usize) -> (usize, usize)
        requires { IsPlace self.now place byte }
        ensures past { past_space (drop place self.now.tokens) ≡ drop result.0 self.now.tokens }
        ensures place { IsPlace self.now result.0 result.1 }
        ensures on { place ≤ result.0 }
    {
        self.lemma_read();
        match self.token_at(place, byte) {
            Ok(Some(token)) if is_space(token.kind) => {
                (place + 1, token.offset + token.len as usize)
            }
            Ok(_) => (place, byte),
            Err(_) => (place, byte),
        }
    }

    /// Returns the comment at a position, after optional whitespace, and the position after it.
    /// Returns `None` if another token or the end of the text comes first. Does not allocate.
    #[tactic(auto, using(crate::proofs::places::Comments::comments))]
    pub fn comment_at(&self, place: usize, byte: usize) -> Result<Option<(Token, usize)>, Fault>
        requires { IsPlace self.now place byte }
        ensures value { result ≡ comment_at self.now place }
        ensures on { IfOk result (λ found. IfSome found (λ v. place < v.1)) }
        ensures after { IfOk result (λ found. IfSome found (IsAfter self.now)) }
    {
        let (at, from) = self.past_space(place, byte);
        self.lemma_read();
        match self.token_at(at, from) {
            Ok(Some(token)) if is_comment(token.kind) => Ok(Some((token, at + 1))),
            Ok(_) => Ok(None),
            Err(fault) => Err(lexical(fault)),
        }
    }

    /// Returns `true` if the text has a significant token or a lexical error; lexes no further than
    /// the first.
    pub fn is_meaningful(&self) -> bool
        ensures { result ≡ is_meaningful self.now }
    {
        let mut i = 0;
        let mut pos = 0;
        self.lemma_read();
        'tokens: loop {
            let token = match self.token_at(i, pos) {
                Ok(Some(token)) => token,
                Ok(None) => return false,
                Err(_) => return true,
            };
            if !token.kind.is_blank() {
                return true;
            }
            i += 1;
            pos = token.offset + token.len as usize;
        }
    }
}

/// Returns the error for a group that is still open at the end of the text, at the byte after its
/// `(`.
fn unclosed(token: Token) -> Fault
    requires { token.offset < 2 ^ 32 }
    ensures { result ≡ record { offset = token.offset + 1; kind = Unclosed } }
{
    Fault {
        offset: token.offset + 1,
        kind: FaultKind::Unclosed,
    }
}
