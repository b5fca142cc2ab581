//! Cursors over the visible tokens.
ghost use Rattle.std.specs.Prelude.{
  ◌≡◌,
  ◌⊎◌,
  ◌↔◌,
  ◌≤◌,
  ◌<◌,
  ◌^◌,
  ◌++◌,
  ℕ,
  IfOk,
  IfSome,
  length,
  false,
  Option,
};
ghost use Rattle.std.specs.Prelude.{Some, Ok};
ghost use Rattle.std.specs.Cow.{cow_str_bytes, cow_slice_items, IsBorrowedSlice, IsBorrowedStr};
ghost use Rattle.std.specs.Option.{option_map};
ghost use Rattle.std.specs.Str.Parse.{IsNumeral, without_leading_sign};
ghost use Rattle.wat_lex.specs.errors.Errors.{IsUnlessMemory};
ghost use Rattle.wat_lex.specs.grammar.Classes.{backslash};
ghost use Rattle.wat_lex.specs.identifiers.Identifiers.{is_owned_str};
ghost use Rattle.wat_lex.specs.tokens.ReadableTokens.{IsTokenOf, word_of};
ghost use Rattle.wat_lex.specs.values.Names.{HasNone, HasNoEscape};
ghost use Rattle.wat_lex.specs.values.NumberValues.{IsFloatOf, IsIntegerOf, IsNumeralOf};
ghost use Rattle.wat_lex.specs.values.NumberValues.{integer_base, integer_digits};
ghost use Rattle.wat_lex.specs.values.WordValues.{empty_name, name_value};
ghost use Rattle.wat_lex.specs.declared.lexer.kinds.FloatKind.{FloatKind};
ghost use Rattle.wat_lex.specs.declared.lexer.kinds.IntegerKind.{IntegerKind};
ghost use Rattle.wat_lex.specs.declared.lexer.kinds.Token.{Token};
ghost use Rattle.wat_lex.specs.declared.lexer.kinds.TokenKind.TheVariants as variant;
ghost use Rattle.wat_lexer_parser.specs.inside.Next.{IsAfter, IsPlace};
ghost use Rattle.wat_lexer_parser.specs.parser.State.{Answers, IsSound, at_place};
ghost use Rattle.wat_lexer_parser.specs.parser.State.{report_here, peek_at};
ghost use Rattle.wat_lexer_parser.specs.parser.Takers.{token_value_at, sees_at, token_of};
ghost use Rattle.wat_lexer_parser.specs.parser.Takers.{comment_taken, allocates_at, name_or_report};
ghost use Rattle.wat_lexer_parser.specs.parser.Takers.{as_open, as_close, as_keyword, as_reserved};
ghost use Rattle.wat_lexer_parser.specs.parser.Takers.{as_id, as_annotation, as_string};
ghost use Rattle.wat_lexer_parser.specs.parser.Takers.{as_integer, as_float, number_of};
ghost use Rattle.wat_lexer_parser.specs.parser.Takers.{name_is_decoded};
ghost use Rattle.wat_lexer_parser.specs.places.Places.{current_span, empty_of, offset_at};
ghost use Rattle.wat_lexer_parser.specs.shown.Showing.{shown};

use crate::parser::Parser;
use std::alloc::Global;
use std::borrow::{CowSlice, CowStr};
use wat_lex::error::Error;
use wat_lex::lexer::{Float, Integer, Token, TokenKind};
use wat_lex::token::Span;

/// A position in a parser's text, from which tokens are consumed without moving the parser.
///
/// At the end of the text, or before a token of another kind, the `peek_` methods return `false`,
/// and the methods that consume a token return `None`. Otherwise the latter return the value of the
/// token, unless it is a parenthesis, and the cursor after it.
///
/// # Errors
///
/// The methods return an error if lexing fails before or at the next visible token; if they reach
/// an annotation with an invalid name, or one with an unregistered name and no `)`; if the name to
/// be returned is invalid; or if an allocation for a value or an error fails. `comment` fails only
/// if lexing fails before or at the comment.
///
/// With more than 16 registered names, a method also allocates to look up the name of an annotation
/// that has escapes. If this allocation fails, the method is slower, and returns no error.
#[derive(Clone, Copy)]
pub struct Cursor<'p, 'a> {
    parser: &'p Parser<'a>,
    /// Number of raw tokens before the position.
    at: usize,
    /// Byte offset of the position.
    byte: usize,
    ghost in_text: { at ≤ length parser.now.source.tokens },
    ghost at_byte: { byte ≡ offset_at parser.now.source.tokens at },
}

impl<'p, 'a> Cursor<'p, 'a> {
    /// Creates a cursor at a parser's position.
    pub(crate) fn new(parser: &'p Parser<'a>) -> Cursor<'p, 'a>
        ensures parser { result.parser.now ≡ parser.now }
        ensures at { result.at ≡ parser.now.place }
        ensures here { at_place result.parser.now result.at ≡ parser.now }
    {
        Cursor {
            parser,
            at: parser.place(),
            byte: parser.byte(),
        }
    }

    /// Returns the number of raw tokens before the position.
    pub(crate) fn place(self) -> usize
        ensures { result ≡ self.entry.at }
    {
        self.at
    }

    /// Returns the byte offset of the position.
    pub(crate) fn byte(self) -> usize
        ensures { IsPlace self.entry.parser.now.source self.entry.at result }
    {
        self.byte
    }

    /// Returns the next visible token, and the position after it.
    // A cached token is returned in registers, and the result of `look_again` in memory. The
    // `match` on that result seems redundant, but if the result were returned as it is, the cached
    // token would be returned in memory too.
    #[inline(always)]
    #[tactic(auto, unfolding(crate::specs::parser::State::seen))]
    fn look(self) -> Result<Option<(Token, usize)>, Error>
        ensures value { Answers false (λ found. found)
            (peek_at (at_place self.entry.parser.now self.entry.at)) result }
        ensures on { IfOk result (λ found. IfSome found (λ v. self.entry.at < v.1)) }
        ensures after { IfOk result (λ found. IfSome found
            (IsAfter self.entry.parser.now.source)) }
    {
        let parser = self.parser;
        match parser.kept(self.at) {
            Some(found) => Ok(Some(found)),
            None => match self.look_again() {
                Ok(found) => Ok(found),
                Err(error) => Err(error),
            },
        }
    }

    /// Returns the next visible token, and the position after it: from the table of raw tokens if
    /// the source has one, otherwise by lexing the text.
    #[inline(never)]
    #[tactic(auto, unfolding(crate::specs::parser::State::seen))]
    fn look_again(self) -> Result<Option<(Token, usize)>, Error>
        ensures value { Answers false (λ found. found)
            (peek_at (at_place self.entry.parser.now self.entry.at)) result }
        ensures on { IfOk result (λ found. IfSome found (λ v. self.entry.at < v.1)) }
        ensures after { IfOk result (λ found. IfSome found
            (IsAfter self.entry.parser.now.source)) }
    {
        let parser = self.parser;
        match parser.look(self.at, self.byte) {
            Ok(found) => Ok(found),
            Err(fault) => Err(parser.source().error_of(fault)),
        }
    }

    /// Lemma, without effect at run time: the cursor's parser satisfies `IsSound`, and the number
    /// of raw tokens before the cursor is at most the number of all raw tokens.
    pub fn lemma_sound(&self)
        ensures sound { IsSound self.now.parser.now }
        ensures within { self.now.at ≤ length self.now.parser.now.source.tokens }
    {
        let parser = self.parser;
        parser.lemma_sound();
    }

    /// Returns the offset of the next visible token as a span. If no token is left, this is the
    /// length of the text; if the peek for the token fails, it is the offset of the cursor.
    pub fn cur_span(&self) -> Span
        ensures value { result ≡ current_span self.now.parser.now.source self.now.at
            self.now.parser.now.names }
        ensures sound { IsSound self.now.parser.now }
    {
        self.lemma_sound();
        let parser = self.parser;
        parser.span_from(self.at, self.byte)
    }

    /// Returns `true` if `)` or the end of the text is next; `false` at an error.
    pub(crate) fn is_empty(self) -> bool
        ensures { result ≡ empty_of (shown self.entry.parser.now.source self.entry.at
            self.entry.parser.now.names) }
    {
        let parser = self.parser;
        parser.is_empty_from(self.at, self.byte)
    }

    /// Returns the whole source text, including the part before the position.
    pub(crate) fn text(self) -> &'a str
        ensures { result.now ≡ self.entry.parser.now.source.setting.text }
    {
        let parser = self.parser;
        parser.text()
    }

    /// Returns the current span, given the next visible token.
    #[tactic(auto, using(crate::proofs::places::TakenSpans::taken_span))]
    pub(crate) fn span_of(self, token: Token) -> Span
        requires { (q : ℕ) × (peek_at (at_place self.parser.now self.at) ≡ Ok (Some (token, q))) }
        ensures { result ≡ current_span self.entry.parser.now.source self.entry.at
            self.entry.parser.now.names }
    {
        Span::from_offset(token.offset)
    }

    /// Creates an error with this message at the current span, or one that says that an allocation
    /// failed.
    pub fn error(&self, message: &str) -> Error
        ensures { IsUnlessMemory result (report_here self.now.parser.now.source self.now.at
            self.now.parser.now.names message.now) }
    {
        let parser = self.parser;
        parser.source().error_at(self.cur_span(), message)
    }

    /// Creates an error at the current span whose message is `what` followed by `word`, or one that
    /// says that an allocation failed.
    pub(crate) fn error_of(&self, what: &str, word: &str) -> Error
        ensures { IsUnlessMemory result (report_here self.now.parser.now.source self.now.at
            self.now.parser.now.names (what.now ++ word.now)) }
    {
        let parser = self.parser;
        match format!(in parser.alloc(); "{what}{word}") {
            Ok(message) => self.error(message.as_str()),
            Err(refused) => Error::from(refused),
        }
    }

    /// Returns the next visible token, or `None` at the end of the text.
    pub fn token(&self) -> Result<Option<Token>, Error>
        ensures value { Answers false (λ t. t)
            (token_of (peek_at (at_place self.now.parser.now self.now.at))) result }
        ensures reader { IfOk result (λ found. IfSome found (
            IsTokenOf self.now.parser.now.source.setting.text)) }
    {
        let cursor = *self;
        match cursor.look()? {
            Some((token, _)) => Ok(Some(token)),
            None => Ok(None),
        }
    }

    /// Consumes the next visible token of any kind. Returns `None` at the end of the text.
    pub fn any(self) -> Result<Option<(Token, Self)>, Error>
        ensures value { Answers false (option_map (λ v. (v.0, v.1.at)))
            (peek_at (at_place self.entry.parser.now self.entry.at)) result }
        ensures parser { IfOk result (λ found. IfSome found (λ v. v.1.parser ≡ self.entry.parser)) }
        ensures on { IfOk result (λ found. IfSome found (λ v. self.entry.at < v.1.at)) }
        ensures reader { IfOk result (λ found. IfSome found (λ v.
            IsTokenOf self.entry.parser.now.source.setting.text v.0)) }
    {
        match self.look()? {
            Some((token, at)) => Ok(Some((token, self.moved(token, at)))),
            None => Ok(None),
        }
    }

    /// Returns the cursor after a token.
    #[inline(always)]
    fn moved(self, token: Token, at: usize) -> Self
        requires { IsAfter self.parser.now.source (token, at) }
        ensures parser { result.parser ≡ self.entry.parser }
        ensures at { result.at ≡ at }
    {
        Cursor {
            parser: self.parser,
            at,
            byte: token.offset + token.len as usize,
        }
    }

    /// Returns `true` if the next visible token is `(`.
    pub fn peek_lparen(self) -> Result<bool, Error>
        ensures { Answers false (λ b. b)
            (sees_at as_open (at_place self.entry.parser.now self.entry.at)) result }
    {
        match self.look()? {
            Some((token, _)) => Ok(matches!(token.kind, TokenKind::LParen)),
            None => Ok(false),
        }
    }

    /// Returns `true` if the next visible token is `)`.
    pub fn peek_rparen(self) -> Result<bool, Error>
        ensures { Answers false (λ b. b)
            (sees_at as_close (at_place self.entry.parser.now self.entry.at)) result }
    {
        match self.look()? {
            Some((token, _)) => Ok(matches!(token.kind, TokenKind::RParen)),
            None => Ok(false),
        }
    }

    /// Returns `true` if the next visible token is an identifier. Its name is not checked.
    pub fn peek_id(self) -> Result<bool, Error>
        ensures { Answers false (λ b. b)
            (sees_at as_id (at_place self.entry.parser.now self.entry.at)) result }
    {
        match self.look()? {
            Some((token, _)) => Ok(matches!(token.kind, TokenKind::Id)),
            None => Ok(false),
        }
    }

    /// Returns `true` if the next visible token is a reserved token.
    pub fn peek_reserved(self) -> Result<bool, Error>
        ensures { Answers false (λ b. b)
            (sees_at as_reserved (at_place self.entry.parser.now self.entry.at)) result }
    {
        match self.look()? {
            Some((token, _)) => Ok(matches!(token.kind, TokenKind::Reserved)),
            None => Ok(false),
        }
    }

    /// Returns `true` if the next visible token is a keyword.
    pub fn peek_keyword(self) -> Result<bool, Error>
        ensures { Answers false (λ b. b)
            (sees_at as_keyword (at_place self.entry.parser.now self.entry.at)) result }
    {
        match self.look()? {
            Some((token, _)) => Ok(matches!(token.kind, TokenKind::Keyword)),
            None => Ok(false),
        }
    }

    /// Returns `true` if the next visible token is an integer.
    pub fn peek_integer(self) -> Result<bool, Error>
        ensures { Answers false (λ b. b)
            (sees_at as_integer (at_place self.entry.parser.now self.entry.at)) result }
    {
        match self.look()? {
            Some((token, _)) => Ok(matches!(token.kind, TokenKind::Integer(_))),
            None => Ok(false),
        }
    }

    /// Returns `true` if the next visible token is a floating-point number.
    pub fn peek_float(self) -> Result<bool, Error>
        ensures { Answers false (λ b. b)
            (sees_at as_float (at_place self.entry.parser.now self.entry.at)) result }
    {
        match self.look()? {
            Some((token, _)) => Ok(matches!(token.kind, TokenKind::Float(_))),
            None => Ok(false),
        }
    }

    /// Returns `true` if the next visible token is a string.
    pub fn peek_string(self) -> Result<bool, Error>
        ensures { Answers false (λ b. b)
            (sees_at as_string (at_place self.entry.parser.now self.entry.at)) result }
    {
        match self.look()? {
            Some((token, _)) => Ok(matches!(token.kind, TokenKind::String)),
            None => Ok(false),
        }
    }

    /// Consumes `(` and returns the cursor after it. Returns `None` if it is not next.
    pub fn lparen(self) -> Result<Option<Self>, Error>
        ensures value { Answers false (option_map (λ next. (tt, next.at)))
            (token_value_at as_open (at_place self.entry.parser.now self.entry.at)) result }
        ensures parser { IfOk result (λ found. IfSome found (λ next.
            next.parser ≡ self.entry.parser)) }
        ensures on { IfOk result (λ found. IfSome found (λ next. self.entry.at < next.at)) }
    {
        match self.look()? {
            Some((token, at)) => match token.kind {
                TokenKind::LParen => Ok(Some(self.moved(token, at))),
                _ => Ok(None),
            },
            None => Ok(None),
        }
    }

    /// Consumes `)` and returns the cursor after it. Returns `None` if it is not next.
    pub fn rparen(self) -> Result<Option<Self>, Error>
        ensures value { Answers false (option_map (λ next. (tt, next.at)))
            (token_value_at as_close (at_place self.entry.parser.now self.entry.at)) result }
        ensures parser { IfOk result (λ found. IfSome found (λ next.
            next.parser ≡ self.entry.parser)) }
        ensures on { IfOk result (λ found. IfSome found (λ next. self.entry.at < next.at)) }
    {
        match self.look()? {
            Some((token, at)) => match token.kind {
                TokenKind::RParen => Ok(Some(self.moved(token, at))),
                _ => Ok(None),
            },
            None => Ok(None),
        }
    }

    /// Consumes an identifier and returns its name, without the `$`. Returns `None` if the next
    /// token is of another kind. Fails if the name is not valid.
    pub fn id(self) -> Result<Option<(CowStr<'a>, Self)>, Error>
        ensures value { Answers (allocates_at as_id (at_place self.entry.parser.now self.entry.at))
            (option_map (λ v. (cow_str_bytes v.0, v.1.at)))
            (token_value_at as_id (at_place self.entry.parser.now self.entry.at)) result }
        ensures borrowed { (t : Token) (q : ℕ) →
            peek_at (at_place self.entry.parser.now self.entry.at) ≡ Ok (Some (t, q)) →
            IfOk result (λ found. IfSome found (λ v. IsBorrowedStr v.0 ↔
            HasNoEscape (word_of self.entry.parser.now.source.setting.text t))) }
        ensures owned { (t : Token) (q : ℕ) →
            peek_at (at_place self.entry.parser.now self.entry.at) ≡ Ok (Some (t, q)) →
            IfOk result (λ found. IfSome found (λ v. is_owned_str v.0 ≡
            name_is_decoded self.entry.parser.now.source.setting.text t)) }
        ensures parser { IfOk result (λ found. IfSome found (λ v.
            v.1.parser ≡ self.entry.parser)) }
        ensures on { IfOk result (λ found. IfSome found (λ v. self.entry.at < v.1.at)) }
    {
        match self.look()? {
            Some((token, at)) => match token.kind {
                TokenKind::Id => {
                    let parser = self.parser;
                    let name = name_of(parser.alloc(), parser.text(), &token)?;
                    Ok(Some((name, self.moved(token, at))))
                }
                _ => Ok(None),
            },
            None => Ok(None),
        }
    }

    /// Consumes a keyword and returns its text. Returns `None` if the next token is of another
    /// kind.
    pub fn keyword(self) -> Result<Option<(&'a str, Self)>, Error>
        ensures value { Answers false (option_map (λ v. (v.0.now, v.1.at)))
            (token_value_at as_keyword (at_place self.entry.parser.now self.entry.at)) result }
        ensures parser { IfOk result (λ found. IfSome found (λ v.
            v.1.parser ≡ self.entry.parser)) }
        ensures on { IfOk result (λ found. IfSome found (λ v. self.entry.at < v.1.at)) }
    {
        match self.look()? {
            Some((token, at)) => match token.kind {
                TokenKind::Keyword => {
                    let parser = self.parser;
                    Ok(Some((token.keyword(parser.text()), self.moved(token, at))))
                }
                _ => Ok(None),
            },
            None => Ok(None),
        }
    }

    /// Consumes an annotation token `@name` and returns its name, without the `@`. Returns `None`
    /// if the next token is of another kind. Fails if the name is not valid.
    pub fn annotation(self) -> Result<Option<(CowStr<'a>, Self)>, Error>
        ensures value { Answers
            (allocates_at as_annotation (at_place self.entry.parser.now self.entry.at))
            (option_map (λ v. (cow_str_bytes v.0, v.1.at)))
            (token_value_at as_annotation (at_place self.entry.parser.now self.entry.at)) result }
        ensures borrowed { (t : Token) (q : ℕ) →
            peek_at (at_place self.entry.parser.now self.entry.at) ≡ Ok (Some (t, q)) →
            IfOk result (λ found. IfSome found (λ v. IsBorrowedStr v.0 ↔
            HasNoEscape (word_of self.entry.parser.now.source.setting.text t))) }
        ensures parser { IfOk result (λ found. IfSome found (λ v.
            v.1.parser ≡ self.entry.parser)) }
        ensures on { IfOk result (λ found. IfSome found (λ v. self.entry.at < v.1.at)) }
    {
        match self.look()? {
            Some((token, at)) => match token.kind {
                TokenKind::Annotation => {
                    let parser = self.parser;
                    let name = name_of(parser.alloc(), parser.text(), &token)?;
                    Ok(Some((name, self.moved(token, at))))
                }
                _ => Ok(None),
            },
            None => Ok(None),
        }
    }

    /// Consumes a reserved token and returns its text. Returns `None` if the next token is of
    /// another kind.
    pub fn reserved(self) -> Result<Option<(&'a str, Self)>, Error>
        ensures value { Answers false (option_map (λ v. (v.0.now, v.1.at)))
            (token_value_at as_reserved (at_place self.entry.parser.now self.entry.at)) result }
        ensures parser { IfOk result (λ found. IfSome found (λ v.
            v.1.parser ≡ self.entry.parser)) }
        ensures on { IfOk result (λ found. IfSome found (λ v. self.entry.at < v.1.at)) }
    {
        match self.look()? {
            Some((token, at)) => match token.kind {
                TokenKind::Reserved => {
                    let parser = self.parser;
                    Ok(Some((token.reserved(parser.text()), self.moved(token, at))))
                }
                _ => Ok(None),
            },
            None => Ok(None),
        }
    }

    /// Consumes an integer and returns its sign, base and digits. Returns `None` if the next token
    /// is of another kind.
    pub fn integer(self) -> Result<Option<(Integer<'a>, Self)>, Error>
        ensures value { Answers
            (allocates_at as_integer (at_place self.entry.parser.now self.entry.at))
            (option_map (λ v. (number_of v.0, v.1.at)))
            (token_value_at as_integer (at_place self.entry.parser.now self.entry.at)) result }
        ensures word { (t : Token) (q : ℕ) (k : IntegerKind) →
            peek_at (at_place self.entry.parser.now self.entry.at) ≡ Ok (Some (t, q)) →
            t.kind ≡ variant.Integer k → IfOk result (λ found. IfSome found (λ v.
            IsIntegerOf k (word_of self.entry.parser.now.source.setting.text t) v.0
            × IsNumeralOf k (word_of self.entry.parser.now.source.setting.text t) v.0)) }
        ensures numeral { IfOk result (λ found. IfSome found (λ v.
            IsNumeral (integer_base v.0) (without_leading_sign (integer_digits v.0)))) }
        ensures parser { IfOk result (λ found. IfSome found (λ v.
            v.1.parser ≡ self.entry.parser)) }
        ensures on { IfOk result (λ found. IfSome found (λ v. self.entry.at < v.1.at)) }
        ensures taken { IfOk result (λ found. IfSome found (λ v. (t : Token)
            × (peek_at (at_place self.entry.parser.now self.entry.at) ≡ Ok (Some (t, v.1.at))))) }
    {
        match self.look()? {
            Some((token, at)) => match token.kind {
                TokenKind::Integer(kind) => {
                    let parser = self.parser;
                    let integer = token.integer(parser.alloc(), parser.text(), kind)?;
                    Ok(Some((integer, self.moved(token, at))))
                }
                _ => Ok(None),
            },
            None => Ok(None),
        }
    }

    /// Consumes a floating-point number and returns its parts. Returns `None` if the next token is
    /// of another kind.
    pub fn float(self) -> Result<Option<(Float<'a>, Self)>, Error>
        ensures value { Answers
            (allocates_at as_float (at_place self.entry.parser.now self.entry.at))
            (option_map (λ v. (tt, v.1.at)))
            (token_value_at as_float (at_place self.entry.parser.now self.entry.at)) result }
        ensures word { (t : Token) (q : ℕ) (k : FloatKind) →
            peek_at (at_place self.entry.parser.now self.entry.at) ≡ Ok (Some (t, q)) →
            t.kind ≡ variant.Float k → IfOk result (λ found. IfSome found (λ v.
            IsFloatOf k (word_of self.entry.parser.now.source.setting.text t) v.0)) }
        ensures parser { IfOk result (λ found. IfSome found (λ v.
            v.1.parser ≡ self.entry.parser)) }
        ensures on { IfOk result (λ found. IfSome found (λ v. self.entry.at < v.1.at)) }
    {
        match self.look()? {
            Some((token, at)) => match token.kind {
                TokenKind::Float(kind) => {
                    let parser = self.parser;
                    let float = token.float(parser.alloc(), parser.text(), kind)?;
                    Ok(Some((float, self.moved(token, at))))
                }
                _ => Ok(None),
            },
            None => Ok(None),
        }
    }

    /// Consumes a string and returns its value. Returns `None` if the next token is of another
    /// kind.
    pub fn string(self) -> Result<Option<(CowSlice<'a, u8>, Self)>, Error>
        ensures value { Answers
            (allocates_at as_string (at_place self.entry.parser.now self.entry.at))
            (option_map (λ v. (cow_slice_items v.0, v.1.at)))
            (token_value_at as_string (at_place self.entry.parser.now self.entry.at)) result }
        ensures borrowed { (t : Token) (q : ℕ) →
            peek_at (at_place self.entry.parser.now self.entry.at) ≡ Ok (Some (t, q)) →
            IfOk result (λ found. IfSome found (λ v. IsBorrowedSlice v.0 ↔
            HasNone backslash (word_of self.entry.parser.now.source.setting.text t))) }
        ensures parser { IfOk result (λ found. IfSome found (λ v.
            v.1.parser ≡ self.entry.parser)) }
        ensures on { IfOk result (λ found. IfSome found (λ v. self.entry.at < v.1.at)) }
    {
        match self.look()? {
            Some((token, at)) => match token.kind {
                TokenKind::String => {
                    let parser = self.parser;
                    let value = token.string(parser.alloc(), parser.text())?;
                    Ok(Some((value, self.moved(token, at))))
                }
                _ => Ok(None),
            },
            None => Ok(None),
        }
    }

    /// Consumes a comment, and whitespace before it, and returns its text. Returns `None` if
    /// another token comes first, or at the end of the text.
    pub fn comment(self) -> Result<Option<(&'a str, Self)>, Error>
        ensures value { Answers false (option_map (λ v. (v.0.now, v.1.at)))
            (comment_taken (at_place self.entry.parser.now self.entry.at)) result }
        ensures parser { IfOk result (λ found. IfSome found (λ v.
            v.1.parser ≡ self.entry.parser)) }
        ensures on { IfOk result (λ found. IfSome found (λ v. self.entry.at < v.1.at)) }
    {
        let parser = self.parser;
        match parser.source().comment_at(self.at, self.byte) {
            Ok(Some((token, at))) => Ok(Some((token.src(parser.text()), self.moved(token, at)))),
            Ok(None) => Ok(None),
            Err(fault) => Err(parser.source().error_of(fault)),
        }
    }
}

/// Returns the name of an identifier or an annotation, or an error at the token if it is not valid.
fn name_of<'a>(alloc: Global, text: &'a str, token: &Token) -> Result<CowStr<'a>, Error>
    requires token { IsTokenOf text.now token.now }
    requires kind { (token.now.kind ≡ variant.Id) ⊎ (token.now.kind ≡ variant.Annotation) }
    ensures value { Answers (name_is_decoded text.now token.now) (λ name. cow_str_bytes name)
        (name_or_report text.now token.now
        (name_value (empty_name token.now.kind) (word_of text.now token.now))) result }
    ensures borrowed { IfOk result (λ name.
        IsBorrowedStr name ↔ HasNoEscape (word_of text.now token.now)) }
    ensures owned { IfOk result (λ name. is_owned_str name ≡ name_is_decoded text.now token.now) }
{
    match token.name(alloc, text)? {
        Ok(name) => Ok(name),
        Err(error) => {
            let span = Span::from_offset(token.offset);
            Err(Error::lex(alloc, span, text, error))
        }
    }
}
