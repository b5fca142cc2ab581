//! Integers of 8 to 64 bits. Signed types also accept unsigned literals of all their bits, like
//! `0xff` for -1 as `i8`.
ghost use Rattle.std.specs.Prelude.{◌≡◌, ◌≤◌, ◌<◌, ◌+◌, ◌^◌, ◌≤ℤ◌, ◌<ℤ◌, ℕ, ℤ};
ghost use Rattle.std.specs.Prelude.{IfOk, IfSome, Some, Ok, codes, pos, neg_ℤ, true, false};
ghost use Rattle.wat_lex.specs.grammar.Numbers.{sign_token};
ghost use Rattle.wat_lex.specs.tokens.ReadableTokens.{IsTokenOf, word_of};
ghost use Rattle.wat_lex.specs.values.NumberValues.{integer_value};
ghost use Rattle.wat_lex.specs.declared.lexer.kinds.TokenKind.TheVariants as variant;
ghost use Rattle.wat_lexer_parser.specs.inside.IntegerReadings.{an_integer_word, signed_integer};
ghost use Rattle.wat_lexer_parser.specs.inside.IntegerReadings.{number_known, unsigned_integer};
ghost use Rattle.wat_lexer_parser.specs.parser.State.{at_place, peek_at};
ghost use Rattle.wat_lexer_parser.specs.parser.Takers.{is_minus};
ghost use Rattle.wat_lexer_parser.specs.readings.Reads.{CursorReads, IsKept, Reads};
ghost use Rattle.wat_lexer_parser.specs.readings.Readings.{spanned};
ghost use Rattle.wat_lexer_parser.specs.readings.Types.{integer, signed_number};
ghost use Rattle.wat_lexer_parser.specs.readings.Types.{signed_within, unsigned_below};

use crate::parser::{Cursor, Parse, Parser, Peek};
use wat_lex::error::Error;
use wat_lex::lexer::{IntegerKind, SignToken, Token, TokenKind};
use wat_lex::token::Span;

/// Returns `true` if an integer begins with `-`.
fn is_negative(kind: IntegerKind) -> bool
    ensures { result ≡ is_minus (sign_token kind.sign) }
{
    kind.sign() == Some(SignToken::Minus)
}

/// Returns the value of an integer token as an unsigned type with the maximum `most`, or `None` if
/// it has a minus sign or is out of range.
pub(crate) fn unsigned_value(text: &str, token: &Token, kind: IntegerKind, most: u64) -> Option<u64>
    requires token { IsTokenOf text.now token.now }
    requires kind { token.now.kind ≡ variant.Integer kind }
    ensures value { result ≡ unsigned_below (most + 1)
        (is_minus (sign_token kind.sign), integer_value kind.hex (word_of text.now token.now)) }
    ensures fits { IfSome result (λ n. n ≤ most) }
{
    if is_negative(kind) {
        return None;
    }
    match token.magnitude(text, kind) {
        Some(n) if n <= most => Some(n),
        _ => None,
    }
}

/// Consumes an integer, and returns its token and kind. Returns an error with the message
/// `expected` if another token or the end of the text is next.
#[inline(always)]
#[tactic(auto, unfolding(crate::specs::inside::IntegerReadings::an_integer_word))]
fn consume_integer<'p, 'a>(
    cursor: Cursor<'p, 'a>,
    expected: &str,
) -> Result<((Token, IntegerKind), Cursor<'p, 'a>), Error>
    ensures value { CursorReads (number_known cursor.entry.parser.now.source.setting.text)
        (an_integer_word expected.now)
        (at_place cursor.entry.parser.now cursor.entry.at) (λ next. next.at) result }
    ensures seen { IfOk result (λ v. peek_at (at_place cursor.entry.parser.now cursor.entry.at)
        ≡ Ok (Some (v.0.0, v.1.at))) }
    ensures token { IfOk result (λ v.
        IsTokenOf cursor.entry.parser.now.source.setting.text v.0.0) }
    ensures kind { IfOk result (λ v. v.0.0.kind ≡ variant.Integer v.0.1) }
    ensures parser { IfOk result (λ v. v.1.parser ≡ cursor.entry.parser) }
    ensures on { IfOk result (λ v. cursor.entry.at < v.1.at) }
{
    let Some((token, next)) = cursor.any()? else {
        return Err(cursor.error(expected));
    };
    match token.kind {
        TokenKind::Integer(kind) => Ok(((token, kind), next)),
        _ => Err(cursor.error(expected)),
    }
}

/// Consumes an unsigned integer of at most `most`, and returns its value and offset. Returns an
/// error with the message `expected` if no integer is next, or `out_of_range` if it does not fit.
#[tactic(auto, unfolding(crate::specs::inside::IntegerReadings::unsigned_integer))]
fn unsigned<'p, 'a>(
    cursor: Cursor<'p, 'a>,
    most: u64,
    expected: &str,
    out_of_range: &str,
) -> Result<((u64, Span), Cursor<'p, 'a>), Error>
    ensures value { CursorReads (λ v. v)
        (unsigned_integer (most + 1) expected.now out_of_range.now)
        (at_place cursor.entry.parser.now cursor.entry.at) (λ next. next.at) result }
    ensures fits { IfOk result (λ v. v.0.0 ≤ most) }
    ensures parser { IfOk result (λ v. v.1.parser ≡ cursor.entry.parser) }
    ensures on { IfOk result (λ v. cursor.entry.at < v.1.at) }
{
    let ((token, kind), next) = consume_integer(cursor, expected)?;
    match unsigned_value(cursor.text(), &token, kind, most) {
        Some(value) => Ok(((value, cursor.span_of(token)), next)),
        None => Err(cursor.error(out_of_range)),
    }
}

/// Parses an unsigned integer of at most `most`, with its offset. `expected` and `out_of_range` are
/// the error messages.
fn parse_unsigned(
    parser: &mut Parser<'_>,
    most: u64,
    expected: &str,
    out_of_range: &str,
) -> Result<(u64, Span), Error>
    ensures kept { IsKept parser.old parser.new }
    ensures on { parser.old.place ≤ parser.new.place }
    ensures reads { Reads (λ v. v) (unsigned_integer (most + 1) expected.now out_of_range.now)
        parser.old result parser.new.place }
    ensures fits { IfOk result (λ v. v.0 ≤ most) }
{
    parser.step(|c| unsigned(c, most, expected, out_of_range))
}

/// Returns the value of an integer token as a signed type from `-half` to `half - 1`, or `None` if
/// it is out of range.
#[tactic(auto, unfolding(crate::specs::readings::Types::signed_number))]
pub(crate) fn signed_value(text: &str, token: &Token, kind: IntegerKind, half: u64) -> Option<i64>
    requires token { IsTokenOf text.now token.now }
    requires kind { token.now.kind ≡ variant.Integer kind }
    requires least { 0 < half }
    requires most { half ≤ 2 ^ 63 }
    ensures value { result ≡ signed_number half
        (is_minus (sign_token kind.sign), integer_value kind.hex (word_of text.now token.now)) }
    ensures low { IfSome result (λ n. neg_ℤ (pos half) ≤ℤ n) }
    ensures high { IfSome result (λ n. n <ℤ pos half) }
{
    let magnitude = token.magnitude(text, kind)?;
    if is_negative(kind) {
        return negative(magnitude, half);
    }
    plain(magnitude, half)
}

/// Returns the signed value of a literal without a minus sign, or `None` if it is out of range. A
/// magnitude from `half` to `2 * half - 1` represents a negative value in two's complement.
fn plain(magnitude: u64, half: u64) -> Option<i64>
    requires least { 0 < half }
    requires most { half ≤ 2 ^ 63 }
    ensures value { result ≡ signed_within half (false, magnitude) }
    ensures low { IfSome result (λ n. neg_ℤ (pos half) ≤ℤ n) }
    ensures high { IfSome result (λ n. n <ℤ pos half) }
{
    if magnitude < half {
        return Some(magnitude as i64);
    }
    let rest = magnitude - half;
    if rest < half {
        return Some(rest as i64 - (half - 1) as i64 - 1);
    }
    None
}

/// Returns the signed value of a literal with a minus sign, or `None` if it is out of range.
fn negative(magnitude: u64, half: u64) -> Option<i64>
    requires least { 0 < half }
    requires most { half ≤ 2 ^ 63 }
    ensures value { result ≡ signed_within half (true, magnitude) }
    ensures low { IfSome result (λ n. neg_ℤ (pos half) ≤ℤ n) }
    ensures high { IfSome result (λ n. n <ℤ pos half) }
{
    if magnitude == 0 {
        return Some(0);
    }
    let less = magnitude - 1;
    if less < half {
        return Some(-(less as i64) - 1);
    }
    None
}

/// Consumes a signed integer from `-half` to `half - 1`, and returns its value and offset. Returns
/// an error with the message `expected` if no integer is next, or `out_of_range` if it does not
/// fit.
#[tactic(auto, unfolding(crate::specs::inside::IntegerReadings::signed_integer))]
fn signed<'p, 'a>(
    cursor: Cursor<'p, 'a>,
    half: u64,
    expected: &str,
    out_of_range: &str,
) -> Result<((i64, Span), Cursor<'p, 'a>), Error>
    requires least { 0 < half }
    requires most { half ≤ 2 ^ 63 }
    ensures value { CursorReads (λ v. v)
        (signed_integer half expected.now out_of_range.now)
        (at_place cursor.entry.parser.now cursor.entry.at) (λ next. next.at) result }
    ensures low { IfOk result (λ v. neg_ℤ (pos half) ≤ℤ v.0.0) }
    ensures high { IfOk result (λ v. v.0.0 <ℤ pos half) }
    ensures parser { IfOk result (λ v. v.1.parser ≡ cursor.entry.parser) }
    ensures on { IfOk result (λ v. cursor.entry.at < v.1.at) }
{
    let ((token, kind), next) = consume_integer(cursor, expected)?;
    match signed_value(cursor.text(), &token, kind, half) {
        Some(value) => Ok(((value, cursor.span_of(token)), next)),
        None => Err(cursor.error(out_of_range)),
    }
}

/// Parses a signed integer from `-half` to `half - 1`, with its offset. `expected` and
/// `out_of_range` are the error messages.
fn parse_signed(
    parser: &mut Parser<'_>,
    half: u64,
    expected: &str,
    out_of_range: &str,
) -> Result<(i64, Span), Error>
    requires least { 0 < half }
    requires most { half ≤ 2 ^ 63 }
    ensures kept { IsKept parser.old parser.new }
    ensures on { parser.old.place ≤ parser.new.place }
    ensures reads { Reads (λ v. v) (signed_integer half expected.now out_of_range.now)
        parser.old result parser.new.place }
    ensures low { IfOk result (λ v. neg_ℤ (pos half) ≤ℤ v.0) }
    ensures high { IfOk result (λ v. v.0 <ℤ pos half) }
{
    parser.step(|c| signed(c, half, expected, out_of_range))
}

impl<'a> Parse<'a> for (u8, Span) {
    ghost Value = { ℕ × ℕ };

    ghost value = { λ v. v };

    ghost meaning = { spanned (integer (codes "u8") (unsigned_below (2 ^ 8))) };

    #[rattlefmt::skip]
    #[tactic(auto, unfolding(
        crate::specs::inside::IntegerReadings::unsigned_integer,
        crate::specs::inside::IntegerReadings::an_integer_word,
    ))]
    fn parse(parser: &mut Parser<'a>) -> Result<(u8, Span), Error> {
        let (value, span) = parse_unsigned(
            parser,
            u8::MAX as u64,
            "expected a u8",
            "invalid u8 number: constant out of range",
        )?;
        Ok((value as u8, span))
    }
}

impl<'a> Parse<'a> for u8 {
    ghost Value = { ℕ };

    ghost value = { λ v. v };

    ghost meaning = { integer (codes "u8") (unsigned_below (2 ^ 8)) };

    fn parse(parser: &mut Parser<'a>) -> Result<u8, Error> {
        Ok(parser.parse::<(u8, Span)>()?.0)
    }
}

impl Peek for u8 {
    ghost use Rattle.wat_lexer_parser.specs.readings.Types.{an_integer};

    ghost sight = { an_integer };

    ghost shows = { codes "u8" };

    fn peek(cursor: Cursor<'_, '_>) -> Result<bool, Error> {
        cursor.peek_integer()
    }

    fn display() -> &'static str {
        "u8"
    }
}

impl<'a> Parse<'a> for (u16, Span) {
    ghost Value = { ℕ × ℕ };

    ghost value = { λ v. v };

    ghost meaning = { spanned (integer (codes "u16") (unsigned_below (2 ^ 16))) };

    #[rattlefmt::skip]
    #[tactic(auto, unfolding(
        crate::specs::inside::IntegerReadings::unsigned_integer,
        crate::specs::inside::IntegerReadings::an_integer_word,
    ))]
    fn parse(parser: &mut Parser<'a>) -> Result<(u16, Span), Error> {
        let (value, span) = parse_unsigned(
            parser,
            u16::MAX as u64,
            "expected a u16",
            "invalid u16 number: constant out of range",
        )?;
        Ok((value as u16, span))
    }
}

impl<'a> Parse<'a> for u16 {
    ghost Value = { ℕ };

    ghost value = { λ v. v };

    ghost meaning = { integer (codes "u16") (unsigned_below (2 ^ 16)) };

    fn parse(parser: &mut Parser<'a>) -> Result<u16, Error> {
        Ok(parser.parse::<(u16, Span)>()?.0)
    }
}

impl Peek for u16 {
    ghost use Rattle.wat_lexer_parser.specs.readings.Types.{an_integer};

    ghost sight = { an_integer };

    ghost shows = { codes "u16" };

    fn peek(cursor: Cursor<'_, '_>) -> Result<bool, Error> {
        cursor.peek_integer()
    }

    fn display() -> &'static str {
        "u16"
    }
}

impl<'a> Parse<'a> for (u32, Span) {
    ghost Value = { ℕ × ℕ };

    ghost value = { λ v. v };

    ghost meaning = { spanned (integer (codes "u32") (unsigned_below (2 ^ 32))) };

    #[rattlefmt::skip]
    #[tactic(auto, unfolding(
        crate::specs::inside::IntegerReadings::unsigned_integer,
        crate::specs::inside::IntegerReadings::an_integer_word,
    ))]
    fn parse(parser: &mut Parser<'a>) -> Result<(u32, Span), Error> {
        let (value, span) = parse_unsigned(
            parser,
            u32::MAX as u64,
            "expected a u32",
            "invalid u32 number: constant out of range",
        )?;
        Ok((value as u32, span))
    }
}

impl<'a> Parse<'a> for u32 {
    ghost Value = { ℕ };

    ghost value = { λ v. v };

    ghost meaning = { integer (codes "u32") (unsigned_below (2 ^ 32)) };

    fn parse(parser: &mut Parser<'a>) -> Result<u32, Error> {
        Ok(parser.parse::<(u32, Span)>()?.0)
    }
}

impl Peek for u32 {
    ghost use Rattle.wat_lexer_parser.specs.readings.Types.{an_integer};

    ghost sight = { an_integer };

    ghost shows = { codes "u32" };

    fn peek(cursor: Cursor<'_, '_>) -> Result<bool, Error> {
        cursor.peek_integer()
    }

    fn display() -> &'static str {
        "u32"
    }
}

impl<'a> Parse<'a> for (u64, Span) {
    ghost Value = { ℕ × ℕ };

    ghost value = { λ v. v };

    ghost meaning = { spanned (integer (codes "u64") (unsigned_below (2 ^ 64))) };

    #[rattlefmt::skip]
    #[tactic(auto, unfolding(
        crate::specs::inside::IntegerReadings::unsigned_integer,
        crate::specs::inside::IntegerReadings::an_integer_word,
    ))]
    fn parse(parser: &mut Parser<'a>) -> Result<(u64, Span), Error> {
        parse_unsigned(
            parser,
            u64::MAX,
            "expected a u64",
            "invalid u64 number: constant out of range",
        )
    }
}

impl<'a> Parse<'a> for u64 {
    ghost Value = { ℕ };

    ghost value = { λ v. v };

    ghost meaning = { integer (codes "u64") (unsigned_below (2 ^ 64)) };

    fn parse(parser: &mut Parser<'a>) -> Result<u64, Error> {
        Ok(parser.parse::<(u64, Span)>()?.0)
    }
}

impl Peek for u64 {
    ghost use Rattle.wat_lexer_parser.specs.readings.Types.{an_integer};

    ghost sight = { an_integer };

    ghost shows = { codes "u64" };

    fn peek(cursor: Cursor<'_, '_>) -> Result<bool, Error> {
        cursor.peek_integer()
    }

    fn display() -> &'static str {
        "u64"
    }
}

impl<'a> Parse<'a> for (i8, Span) {
    ghost Value = { ℤ × ℕ };

    ghost value = { λ v. v };

    ghost meaning = { spanned (integer (codes "i8") (signed_within (2 ^ 7))) };

    #[rattlefmt::skip]
    #[tactic(auto, unfolding(
        crate::specs::readings::Types::signed_number,
        crate::specs::inside::IntegerReadings::signed_integer,
        crate::specs::inside::IntegerReadings::an_integer_word,
    ))]
    fn parse(parser: &mut Parser<'a>) -> Result<(i8, Span), Error> {
        let (value, span) = parse_signed(
            parser,
            0x80,
            "expected a i8",
            "invalid i8 number: constant out of range",
        )?;
        Ok((value as i8, span))
    }
}

impl<'a> Parse<'a> for i8 {
    ghost Value = { ℤ };

    ghost value = { λ v. v };

    ghost meaning = { integer (codes "i8") (signed_within (2 ^ 7)) };

    fn parse(parser: &mut Parser<'a>) -> Result<i8, Error> {
        Ok(parser.parse::<(i8, Span)>()?.0)
    }
}

impl Peek for i8 {
    ghost use Rattle.wat_lexer_parser.specs.readings.Types.{an_integer};

    ghost sight = { an_integer };

    ghost shows = { codes "i8" };

    fn peek(cursor: Cursor<'_, '_>) -> Result<bool, Error> {
        cursor.peek_integer()
    }

    fn display() -> &'static str {
        "i8"
    }
}

impl<'a> Parse<'a> for (i16, Span) {
    ghost Value = { ℤ × ℕ };

    ghost value = { λ v. v };

    ghost meaning = { spanned (integer (codes "i16") (signed_within (2 ^ 15))) };

    #[rattlefmt::skip]
    #[tactic(auto, unfolding(
        crate::specs::readings::Types::signed_number,
        crate::specs::inside::IntegerReadings::signed_integer,
        crate::specs::inside::IntegerReadings::an_integer_word,
    ))]
    fn parse(parser: &mut Parser<'a>) -> Result<(i16, Span), Error> {
        let (value, span) = parse_signed(
            parser,
            0x8000,
            "expected a i16",
            "invalid i16 number: constant out of range",
        )?;
        Ok((value as i16, span))
    }
}

impl<'a> Parse<'a> for i16 {
    ghost Value = { ℤ };

    ghost value = { λ v. v };

    ghost meaning = { integer (codes "i16") (signed_within (2 ^ 15)) };

    fn parse(parser: &mut Parser<'a>) -> Result<i16, Error> {
        Ok(parser.parse::<(i16, Span)>()?.0)
    }
}

impl Peek for i16 {
    ghost use Rattle.wat_lexer_parser.specs.readings.Types.{an_integer};

    ghost sight = { an_integer };

    ghost shows = { codes "i16" };

    fn peek(cursor: Cursor<'_, '_>) -> Result<bool, Error> {
        cursor.peek_integer()
    }

    fn display() -> &'static str {
        "i16"
    }
}

impl<'a> Parse<'a> for (i32, Span) {
    ghost Value = { ℤ × ℕ };

    ghost value = { λ v. v };

    ghost meaning = { spanned (integer (codes "i32") (signed_within (2 ^ 31))) };

    #[rattlefmt::skip]
    #[tactic(auto, unfolding(
        crate::specs::readings::Types::signed_number,
        crate::specs::inside::IntegerReadings::signed_integer,
        crate::specs::inside::IntegerReadings::an_integer_word,
    ))]
    fn parse(parser: &mut Parser<'a>) -> Result<(i32, Span), Error> {
        let (value, span) = parse_signed(
            parser,
            0x8000_0000,
            "expected a i32",
            "invalid i32 number: constant out of range",
        )?;
        Ok((value as i32, span))
    }
}

impl<'a> Parse<'a> for i32 {
    ghost Value = { ℤ };

    ghost value = { λ v. v };

    ghost meaning = { integer (codes "i32") (signed_within (2 ^ 31)) };

    fn parse(parser: &mut Parser<'a>) -> Result<i32, Error> {
        Ok(parser.parse::<(i32, Span)>()?.0)
    }
}

impl Peek for i32 {
    ghost use Rattle.wat_lexer_parser.specs.readings.Types.{an_integer};

    ghost sight = { an_integer };

    ghost shows = { codes "i32" };

    fn peek(cursor: Cursor<'_, '_>) -> Result<bool, Error> {
        cursor.peek_integer()
    }

    fn display() -> &'static str {
        "i32"
    }
}

impl<'a> Parse<'a> for (i64, Span) {
    ghost Value = { ℤ × ℕ };

    ghost value = { λ v. v };

    ghost meaning = { spanned (integer (codes "i64") (signed_within (2 ^ 63))) };

    #[rattlefmt::skip]
    #[tactic(auto, unfolding(
        crate::specs::readings::Types::signed_number,
        crate::specs::inside::IntegerReadings::signed_integer,
        crate::specs::inside::IntegerReadings::an_integer_word,
    ))]
    fn parse(parser: &mut Parser<'a>) -> Result<(i64, Span), Error> {
        parse_signed(
            parser,
            0x8000_0000_0000_0000,
            "expected a i64",
            "invalid i64 number: constant out of range",
        )
    }
}

impl<'a> Parse<'a> for i64 {
    ghost Value = { ℤ };

    ghost value = { λ v. v };

    ghost meaning = { integer (codes "i64") (signed_within (2 ^ 63)) };

    fn parse(parser: &mut Parser<'a>) -> Result<i64, Error> {
        Ok(parser.parse::<(i64, Span)>()?.0)
    }
}

impl Peek for i64 {
    ghost use Rattle.wat_lexer_parser.specs.readings.Types.{an_integer};

    ghost sight = { an_integer };

    ghost shows = { codes "i64" };

    fn peek(cursor: Cursor<'_, '_>) -> Result<bool, Error> {
        cursor.peek_integer()
    }

    fn display() -> &'static str {
        "i64"
    }
}
