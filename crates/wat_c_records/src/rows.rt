//! Rows of integers for a token, the end of the text, and a lexical error.
ghost use Rattle.std.specs.Prelude.{◌≡◌, ◌<◌, ◌≤◌, ◌+◌};
ghost use Rattle.std.specs.Str.{IsCharBoundary};
ghost use Rattle.wat_c_records.specs.Rows.{float_row, kind_row, sign_code, minus_code, plain};
ghost use Rattle.wat_c_records.specs.Rows.{token_row};
ghost use Rattle.wat_c_records.specs.Rows.{offset_row, fault_code, fault_found, fault_wanted};
ghost use Rattle.wat_c_records.specs.Rows.{found_row};

use wat_lex::lexer::{FloatKind, LexError, LexFault, SignToken, Token, TokenKind};

/// Kind of a token. The fields after `code` describe number tokens, and are 0 or `false` in all
/// others.
#[repr(C)]
#[derive(Clone, Copy, Debug, PartialEq)]
pub struct KindRow {
    /// 1 to 15 for the kinds of tokens, 0 without a token.
    pub code: u8,
    /// 1 for `+`, 2 for `-`, otherwise 0. Among floating-point numbers, only `inf` and `nan`, with
    /// or without a payload, have a sign here, and only `-`.
    pub sign: u8,
    /// `true` if there are underscores between the digits.
    pub has_underscores: bool,
    /// `true` in integers and normal floating-point numbers that are hexadecimal.
    pub hex: bool,
}

/// Row of a token.
#[repr(C)]
#[derive(Clone, Copy, Debug, PartialEq)]
pub struct TokenRow {
    /// Byte offset of the token in the text.
    pub offset: usize,
    /// Length in bytes.
    pub len: u32,
    /// Kind of the token.
    pub kind: KindRow,
}

/// A token, the end of the text, or a lexical error.
#[repr(C)]
#[derive(Clone, Copy, Debug, PartialEq)]
pub struct Found {
    /// The token. If there is none, its kind and its length are 0, and its offset is that of the
    /// end or of the error.
    pub token: TokenRow,
    /// Code of the error, 101 to 115, or 0 if there is a token or the end of the text.
    pub fault: u32,
    /// Character that caused the error, or the integer that is not a Unicode scalar value,
    /// otherwise 0.
    pub found: u32,
    /// Required character if the error names one, otherwise 0.
    pub wanted: u32,
}

/// Result of filling a buffer with rows.
#[repr(C)]
#[derive(Clone, Copy, Debug, PartialEq)]
pub struct Filled {
    /// Number of rows written.
    pub count: usize,
    /// Offset at which lexing stopped: the end of the last token lexed, or the offset of the call
    /// if there is none.
    pub at: usize,
    /// 0 if the text ends at `at`, 1 if the buffer is full, otherwise the code of the lexical error
    /// at `at`.
    pub why: u32,
}

/// Returns the kind with this code and without the facts of numbers.
pub fn plain(code: u8) -> KindRow
    ensures { result ≡ plain code }
{
    KindRow {
        code,
        sign: 0,
        has_underscores: false,
        hex: false,
    }
}

/// Returns the code of a sign: 0 without a sign, 1 for `+`, 2 for `-`.
fn sign_code(sign: Option<SignToken>) -> u8
    ensures { result ≡ sign_code sign }
{
    match sign {
        None => 0,
        Some(SignToken::Plus) => 1,
        Some(SignToken::Minus) => 2,
    }
}

/// Returns the code of `-` if `negative` is `true`, otherwise 0.
fn minus_code(negative: bool) -> u8
    ensures { result ≡ minus_code negative }
{
    if negative { 2 } else { 0 }
}

/// Returns the row of the kind of a floating-point number.
fn float_row(kind: FloatKind) -> KindRow
    ensures { result ≡ float_row kind }
{
    match kind {
        FloatKind::Inf { negative } => KindRow {
            sign: minus_code(negative),
            ..plain(12)
        },
        FloatKind::Nan { negative } => KindRow {
            sign: minus_code(negative),
            ..plain(13)
        },
        FloatKind::NanVal {
            negative,
            has_underscores,
        } => KindRow {
            sign: minus_code(negative),
            has_underscores,
            ..plain(14)
        },
        FloatKind::Normal {
            has_underscores,
            hex,
        } => KindRow {
            has_underscores,
            hex,
            ..plain(15)
        },
    }
}

/// Returns the index of a kind in their order. It equals the tag of the enum, so that a compiler
/// needs no table.
fn kind_tag(kind: TokenKind) -> u8
    ensures plain { result < 10 → kind_row kind ≡ plain (1 + result) }
    ensures number { 10 ≤ result → 10 < (kind_row kind).code }
{
    match kind {
        TokenKind::LineComment => 0,
        TokenKind::BlockComment => 1,
        TokenKind::Whitespace => 2,
        TokenKind::LParen => 3,
        TokenKind::RParen => 4,
        TokenKind::String => 5,
        TokenKind::Id => 6,
        TokenKind::Keyword => 7,
        TokenKind::Annotation => 8,
        TokenKind::Reserved => 9,
        TokenKind::Integer(_) => 10,
        TokenKind::Float(_) => 11,
    }
}

/// Returns the row of the kind of a number token.
fn number_row(kind: TokenKind) -> KindRow
    requires { 10 < (kind_row kind).code }
    ensures { result ≡ kind_row kind }
{
    match kind {
        TokenKind::Integer(kind) => KindRow {
            code: 11,
            sign: sign_code(kind.sign()),
            has_underscores: kind.has_underscores(),
            hex: kind.hex(),
        },
        TokenKind::Float(kind) => float_row(kind),
        _ => unreachable!(),
    }
}

/// Returns the row of a token kind: its code, and the facts of a number token.
pub fn kind_row(kind: TokenKind) -> KindRow
    ensures { result ≡ kind_row kind }
{
    let tag = kind_tag(kind);
    if tag < 10 {
        plain(1 + tag)
    } else {
        number_row(kind)
    }
}

/// Returns the row of a token.
pub fn token_row(token: Token) -> TokenRow
    ensures { result ≡ token_row token }
{
    TokenRow {
        offset: token.offset,
        len: token.len,
        kind: kind_row(token.kind),
    }
}

/// Returns the row of an offset without a token: the length and the kind are 0.
fn offset_row(offset: usize) -> TokenRow
    ensures { result ≡ offset_row offset }
{
    TokenRow {
        offset,
        len: 0,
        kind: plain(0),
    }
}

/// Returns the code of a lexical error, 101 to 115.
pub fn fault_code(error: LexError) -> u32
    ensures { result ≡ fault_code error }
{
    match error {
        LexError::DanglingBlockComment => 101,
        LexError::Unexpected(_) => 102,
        LexError::InvalidStringElement(_) => 103,
        LexError::InvalidStringEscape(_) => 104,
        LexError::InvalidHexDigit(_) => 105,
        LexError::InvalidDigit(_) => 106,
        LexError::Expected { .. } => 107,
        LexError::UnexpectedEof => 108,
        LexError::NumberTooBig => 109,
        LexError::InvalidUnicodeValue(_) => 110,
        LexError::LoneUnderscore => 111,
        LexError::ConfusingUnicode(_) => 112,
        LexError::InvalidUtf8Id => 113,
        LexError::EmptyId => 114,
        LexError::EmptyAnnotation => 115,
    }
}

/// Returns the character that caused an error, or the integer that is not a Unicode scalar value,
/// otherwise 0.
fn fault_found(error: LexError) -> u32
    ensures { result ≡ fault_found error }
{
    match error {
        LexError::Unexpected(c)
        | LexError::InvalidStringElement(c)
        | LexError::InvalidStringEscape(c)
        | LexError::InvalidHexDigit(c)
        | LexError::InvalidDigit(c)
        | LexError::ConfusingUnicode(c) => u32::from(c),
        LexError::Expected { found, .. } => u32::from(found),
        LexError::InvalidUnicodeValue(n) => n,
        _ => 0,
    }
}

/// Returns the character that was required, or 0 if the error does not name one.
fn fault_wanted(error: LexError) -> u32
    ensures { result ≡ fault_wanted error }
{
    match error {
        LexError::Expected { wanted, .. } => u32::from(wanted),
        _ => 0,
    }
}

/// Converts the result of a scan at `pos` to integers.
#[inline]
pub fn found_row(pos: usize, answer: Result<Option<Token>, LexFault>) -> Found
    ensures { result ≡ found_row pos answer }
{
    let (token, fault) = match answer {
        Ok(Some(token)) => (token_row(token), None),
        Ok(None) => (offset_row(pos), None),
        Err(fault) => (offset_row(fault.offset), Some(fault.error)),
    };
    match fault {
        Some(error) => Found {
            token,
            fault: fault_code(error),
            found: fault_found(error),
            wanted: fault_wanted(error),
        },
        None => Found {
            token,
            fault: 0,
            found: 0,
            wanted: 0,
        },
    }
}
