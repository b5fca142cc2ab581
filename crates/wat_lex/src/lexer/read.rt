//! The values of tokens: texts, strings, names and numbers.
ghost use Rattle.std.specs.Prelude.{◌≡◌, ◌≢◌, ◌≤◌, ◌^◌, ◌⊎◌, ◌↔◌, [], Ok, false, IfOk, IfErr};
ghost use Rattle.std.specs.Prelude.{IsOk, MatchOption};
ghost use Rattle.std.specs.Bool.{Decides};
ghost use Rattle.std.specs.Result.{result_err};
ghost use Rattle.std.specs.Cow.{cow_str_bytes, cow_slice_items, IsBorrowedSlice, IsBorrowedStr};
ghost use Rattle.std.specs.Str.{chars, IsUtf8};
ghost use Rattle.wat_lex.specs.grammar.Classes.{backslash};
ghost use Rattle.wat_lex.specs.values.Names.{Name, NameFault, NameError, HasNone, HasNoEscape};
ghost use Rattle.wat_lex.specs.values.NumberValues.{integer_value, is_integer_rewritten};
ghost use Rattle.wat_lex.specs.values.NumberValues.{is_float_rewritten};
ghost use Rattle.wat_lex.specs.values.NumberValues.{IsFloatOf, IsIntegerOf, IsNumeralOf};
ghost use Rattle.wat_lex.specs.values.UniqueValues.{SomeValue, OneValue, SomeName, OneName};
ghost use Rattle.wat_lex.specs.values.UniqueValues.{SomeCut, OneCut};
ghost use Rattle.wat_lex.specs.tokens.ReadableTokens.{IsTokenOf, token_text, word_of};
ghost use Rattle.wat_lex.specs.tokens.Setting.{lenient};
ghost use Rattle.wat_lex.specs.grammar.Strings.{StringWord};
ghost use Rattle.wat_lex.specs.values.WordValues.{string_value, name_value, name_answer};
ghost use Rattle.wat_lex.specs.values.WordValues.{empty_name};
ghost use Rattle.wat_lex.specs.grammar.Words.{Word};
ghost use Rattle.wat_lex.specs.declared.lexer.faults.LexError.TheVariants.{EmptyId};
ghost use Rattle.wat_lex.specs.declared.lexer.faults.LexError.TheVariants.{EmptyAnnotation};
ghost use Rattle.wat_lex.specs.declared.lexer.kinds.TokenKind.TheVariants.{String, Id, Keyword};
ghost use Rattle.wat_lex.specs.declared.lexer.kinds.TokenKind.TheVariants.{Annotation, Reserved};
ghost use Rattle.wat_lex.specs.declared.lexer.kinds.TokenKind.TheVariants as token_kind;

use crate::error::Error;
use crate::lexer::read::names::{is_named, is_plain_name, is_utf8_name};
use crate::lexer::read::numbers::magnitude_of;
use crate::lexer::read::strings::{name, plain, unescaped};
use crate::lexer::{Float, FloatKind, Integer, IntegerKind, LexError, Token, TokenKind};
use crate::token::Span;
use std::alloc::{AllocError, Global};
use std::borrow::{CowSlice, CowStr};

mod names;
pub(super) mod numbers;
mod strings;

/// Returns the error for an empty name, by the kind of its token.
fn empty_name(kind: TokenKind) -> LexError
    ensures { result ≡ empty_name kind }
{
    match kind {
        TokenKind::Annotation => LexError::EmptyAnnotation,
        _ => LexError::EmptyId,
    }
}

impl Token {
    /// Returns the token's text, a lexeme of its kind.
    #[inline]
    pub fn src<'a>(&self, s: &'a str) -> &'a str
        requires { IsTokenOf s.now self.now }
        ensures text { result.now ≡ token_text s.now self.now }
        ensures word { Word self.now.kind (chars result.now) lenient }
    {
        let rest = &s[self.offset..];
        &rest[..self.len as usize]
    }

    /// Returns the text of a keyword.
    #[inline]
    pub fn keyword<'a>(&self, s: &'a str) -> &'a str
        requires token { IsTokenOf s.now self.now }
        requires kind { self.now.kind ≡ Keyword }
        ensures { result.now ≡ token_text s.now self.now }
    {
        self.src(s)
    }

    /// Returns the text of a reserved token.
    #[inline]
    pub fn reserved<'a>(&self, s: &'a str) -> &'a str
        requires token { IsTokenOf s.now self.now }
        requires kind { self.now.kind ≡ Reserved }
        ensures { result.now ≡ token_text s.now self.now }
    {
        self.src(s)
    }

    /// Returns the value of a string. It is borrowed, without an allocation, if the string has no
    /// escape.
    ///
    /// # Errors
    ///
    /// Returns the allocation failure, which only a string with an escape can have.
    #[tactic(auto, using(crate::proofs::values::TokenValues::string_values))]
    #[inline]
    pub fn string<'a>(&self, alloc: Global, s: &'a str) -> Result<CowSlice<'a, u8>, AllocError>
        requires token { IsTokenOf s.now self.now }
        requires kind { self.now.kind ≡ String }
        ensures elements { IfOk result (λ v.
            StringWord lenient (word_of s.now self.now) (cow_slice_items v)) }
        ensures value { IfOk result (λ v.
            cow_slice_items v ≡ string_value (word_of s.now self.now)) }
        ensures some { SomeValue (word_of s.now self.now) }
        ensures one { OneValue (word_of s.now self.now) }
        ensures borrowed { IfOk result (λ v.
            IsBorrowedSlice v ↔ HasNone backslash (word_of s.now self.now)) }
        ensures free { HasNone backslash (word_of s.now self.now) → IsOk result }
    {
        let elements = &self.src(s)[1..];
        if let Some(value) = plain(elements) {
            return Ok(CowSlice::Borrowed(value.as_bytes()));
        }
        let value = unescaped(alloc, elements)?;
        Ok(CowSlice::Owned(value))
    }

    /// Returns the name of an identifier. It is borrowed, without an allocation, if it has no
    /// escape.
    ///
    /// # Errors
    ///
    /// Returns the error at the token if its name is empty or not UTF-8, or the out-of-memory
    /// error.
    #[tactic(auto, using(crate::proofs::values::TokenValues::name_values))]
    #[inline]
    pub fn id<'a>(&self, alloc: Global, s: &'a str) -> Result<CowStr<'a>, Error>
        requires token { IsTokenOf s.now self.now }
        requires kind { self.now.kind ≡ Id }
        ensures name { IfOk result (λ name. Name (word_of s.now self.now) (cow_str_bytes name)) }
        ensures utf8 { IfOk result (λ name. IsUtf8 (cow_str_bytes name)) }
        ensures some { IfOk result (λ name. cow_str_bytes name ≢ []) }
        ensures value { IfOk result (λ name.
            name_value EmptyId (word_of s.now self.now) ≡ Ok (cow_str_bytes name)) }
        ensures error { IfErr result (
            NameError s.now EmptyId self.now.offset (word_of s.now self.now)) }
        ensures either { SomeName EmptyId (word_of s.now self.now) }
        ensures one { OneName EmptyId (word_of s.now self.now) }
        ensures borrowed { IfOk result (λ name.
            IsBorrowedStr name ↔ HasNoEscape (word_of s.now self.now)) }
    {
        self.name_or_error(alloc, s)
    }

    /// Returns the name of an annotation. It is borrowed, without an allocation, if it has no
    /// escape.
    ///
    /// # Errors
    ///
    /// Returns the error at the token if its name is empty or not UTF-8, or the out-of-memory
    /// error.
    #[tactic(auto, using(crate::proofs::values::TokenValues::name_values))]
    #[inline]
    pub fn annotation<'a>(&self, alloc: Global, s: &'a str) -> Result<CowStr<'a>, Error>
        requires token { IsTokenOf s.now self.now }
        requires kind { self.now.kind ≡ Annotation }
        ensures name { IfOk result (λ name. Name (word_of s.now self.now) (cow_str_bytes name)) }
        ensures utf8 { IfOk result (λ name. IsUtf8 (cow_str_bytes name)) }
        ensures some { IfOk result (λ name. cow_str_bytes name ≢ []) }
        ensures value { IfOk result (λ name.
            name_value EmptyAnnotation (word_of s.now self.now) ≡ Ok (cow_str_bytes name)) }
        ensures error { IfErr result (
            NameError s.now EmptyAnnotation self.now.offset (word_of s.now self.now)) }
        ensures either { SomeName EmptyAnnotation (word_of s.now self.now) }
        ensures one { OneName EmptyAnnotation (word_of s.now self.now) }
        ensures borrowed { IfOk result (λ name.
            IsBorrowedStr name ↔ HasNoEscape (word_of s.now self.now)) }
    {
        self.name_or_error(alloc, s)
    }

    /// Returns the name of an identifier or an annotation, or the error about it: `EmptyId` or
    /// `EmptyAnnotation` if it is empty, `InvalidUtf8Id` if it is not UTF-8. The name is borrowed,
    /// without an allocation, if it has no escape.
    ///
    /// # Errors
    ///
    /// Returns the allocation failure, which only a name with an escape can have.
    #[tactic(auto, using(crate::proofs::values::TokenValues::name_values))]
    #[inline]
    pub fn name<'a>(
        &self,
        alloc: Global,
        s: &'a str,
    ) -> Result<Result<CowStr<'a>, LexError>, AllocError>
        requires token { IsTokenOf s.now self.now }
        requires kind { (self.now.kind ≡ Id) ⊎ (self.now.kind ≡ Annotation) }
        ensures name { IfOk result (λ found. IfOk found (λ name.
            Name (word_of s.now self.now) (cow_str_bytes name))) }
        ensures utf8 { IfOk result (λ found. IfOk found (λ name. IsUtf8 (cow_str_bytes name))) }
        ensures some { IfOk result (λ found. IfOk found (λ name. cow_str_bytes name ≢ [])) }
        ensures fault { IfOk result (λ found. IfErr found (
            NameFault (empty_name self.now.kind) (word_of s.now self.now))) }
        ensures value { IfOk result (λ found.
            name_answer found ≡ name_value (empty_name self.now.kind) (word_of s.now self.now)) }
        ensures either { SomeName (empty_name self.now.kind) (word_of s.now self.now) }
        ensures one { OneName (empty_name self.now.kind) (word_of s.now self.now) }
        ensures borrowed { IfOk result (λ found. IfOk found (λ name.
            IsBorrowedStr name ↔ HasNoEscape (word_of s.now self.now))) }
        ensures free { HasNoEscape (word_of s.now self.now) → IsOk result }
    {
        let Some(name) = name(alloc, &self.src(s)[1..])? else {
            return Ok(Err(LexError::InvalidUtf8Id));
        };
        if name.as_str().is_empty() {
            return Ok(Err(empty_name(self.kind)));
        }
        Ok(Ok(name))
    }

    /// Returns `true` if the identifier or annotation has this name, like a comparison with
    /// [`Token::name`]. Returns `false` if the name of the token is invalid. Does not allocate.
    #[inline]
    pub fn has_name(&self, s: &str, name: &str) -> bool
        requires token { IsTokenOf s.now self.now }
        requires kind { (self.now.kind ≡ Id) ⊎ (self.now.kind ≡ Annotation) }
        ensures { Decides result
            (name_value (empty_name self.now.kind) (word_of s.now self.now) ≡ Ok name.now) }
    {
        !name.is_empty() && is_named(&self.src(s)[1..], name.as_bytes())
    }

    /// Returns the error about the name of an identifier or an annotation, like [`Token::name`], or
    /// `None` if the name is valid. Does not allocate.
    pub fn name_fault(&self, s: &str) -> Option<LexError>
        requires token { IsTokenOf s.now self.now }
        requires kind { (self.now.kind ≡ Id) ⊎ (self.now.kind ≡ Annotation) }
        ensures { result
            ≡ result_err (name_value (empty_name self.now.kind) (word_of s.now self.now)) }
    {
        let name = &self.src(s)[1..];
        if is_plain_name(name) {
            return None;
        }
        if is_named(name, &[]) {
            return Some(empty_name(self.kind));
        }
        if !is_utf8_name(name) {
            return Some(LexError::InvalidUtf8Id);
        }
        None
    }

    /// Returns the sign and the digits of an integer token. Allocates only if the digits have
    /// underscores or follow `0x`.
    ///
    /// # Errors
    ///
    /// Returns the allocation failure.
    #[inline]
    pub fn integer<'a>(
        &self,
        alloc: Global,
        s: &'a str,
        kind: IntegerKind,
    ) -> Result<Integer<'a>, AllocError>
        requires token { IsTokenOf s.now self.now }
        requires kind { self.now.kind ≡ token_kind.Integer kind }
        ensures value { IfOk result (IsIntegerOf kind (word_of s.now self.now)) }
        ensures numeral { IfOk result (IsNumeralOf kind (word_of s.now self.now)) }
        ensures free { is_integer_rewritten kind ≡ false → IsOk result }
    {
        Integer::from_word(alloc, self.src(s), kind)
    }

    /// Returns the absolute value of an integer token, or `None` if it is 2^64 or more. Does not
    /// allocate.
    pub fn magnitude(&self, s: &str, kind: IntegerKind) -> Option<u64>
        requires token { IsTokenOf s.now self.now }
        requires kind { self.now.kind ≡ token_kind.Integer kind }
        ensures { MatchOption result (2 ^ 64 ≤ integer_value kind.hex (word_of s.now self.now))
            (λ n. n ≡ integer_value kind.hex (word_of s.now self.now)) }
    {
        magnitude_of(self.src(s), kind)
    }

    /// Returns the parts of a floating-point token. Allocates only if it has underscores, or if its
    /// digits are hexadecimal and not those of a payload.
    ///
    /// # Errors
    ///
    /// Returns the allocation failure.
    #[tactic(auto, using(crate::proofs::values::TokenValues::float_values))]
    #[inline]
    pub fn float<'a>(
        &self,
        alloc: Global,
        s: &'a str,
        kind: FloatKind,
    ) -> Result<Float<'a>, AllocError>
        requires token { IsTokenOf s.now self.now }
        requires kind { self.now.kind ≡ token_kind.Float kind }
        ensures value { IfOk result (IsFloatOf kind (word_of s.now self.now)) }
        ensures some { SomeCut kind (word_of s.now self.now) }
        ensures one { OneCut (word_of s.now self.now) }
        ensures free { is_float_rewritten kind ≡ false → IsOk result }
    {
        Float::from_word(alloc, self.src(s), kind)
    }

    /// Returns the name of an identifier or an annotation, or the error about it at the token.
    fn name_or_error<'a>(&self, alloc: Global, s: &'a str) -> Result<CowStr<'a>, Error>
        requires token { IsTokenOf s.now self.now }
        requires kind { (self.now.kind ≡ Id) ⊎ (self.now.kind ≡ Annotation) }
        ensures name { IfOk result (λ name. Name (word_of s.now self.now) (cow_str_bytes name)) }
        ensures utf8 { IfOk result (λ name. IsUtf8 (cow_str_bytes name)) }
        ensures some { IfOk result (λ name. cow_str_bytes name ≢ []) }
        ensures value { IfOk result (λ name.
            name_value (empty_name self.now.kind) (word_of s.now self.now)
            ≡ Ok (cow_str_bytes name)) }
        ensures error { IfErr result (
            NameError s.now (empty_name self.now.kind) self.now.offset (word_of s.now self.now)) }
        ensures borrowed { IfOk result (λ name.
            IsBorrowedStr name ↔ HasNoEscape (word_of s.now self.now)) }
    {
        match self.name(alloc, s)? {
            Ok(name) => Ok(name),
            Err(error) => {
                let span = Span::from_offset(self.offset);
                Err(Error::lex(alloc, span, s, error))
            }
        }
    }
}
