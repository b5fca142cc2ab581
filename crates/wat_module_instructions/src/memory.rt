//! Memory arguments: `offset=` and `align=`.
ghost use Rattle.std.specs.Prelude.{◌≡◌, MatchOption, None, Some};
ghost use Rattle.wat_module_ast.specs.Grammar.{align_of, memory_of, offset_of};
ghost use Rattle.wat_module_tokens.specs.TokenCursor.{terminals_of};
ghost use Rattle.wat_module_ast.specs.Memory as memory;
ghost use Rattle.wat_lex.specs.grammar.Numbers.{is_digit};

use wat_lex::lexer::magnitude;
use wat_module_ast::instruction::Argument;
use wat_module_tokens::stream::TokenCursor;
use wat_module_tokens::token::DecodedToken;

/// Parses a memory argument. The default offset is 0, and the default alignment has the exponent
/// `natural`.
pub(crate) fn argument<'p, 'a>(
    natural: u8,
    cursor: TokenCursor<'p, 'a>,
) -> (Argument, TokenCursor<'p, 'a>)
    ensures argument { result.0 ≡ (memory_of natural (terminals_of cursor.entry)).0 }
    ensures rest { terminals_of result.1 ≡ (memory_of natural (terminals_of cursor.entry)).1 }
{
    let (offset, rest) = offset_at(cursor);
    let (align, rest) = align_at(natural, rest);
    (Argument::Memory(align, offset), rest)
}

/// Parses an optional `offset=` keyword. Returns the offset, which is 0 by default, and the
/// remaining tokens.
pub(crate) fn offset_at<'p, 'a>(cursor: TokenCursor<'p, 'a>) -> (u32, TokenCursor<'p, 'a>)
    ensures offset { result.0 ≡ (offset_of (terminals_of cursor.entry)).0 }
    ensures rest { terminals_of result.1 ≡ (offset_of (terminals_of cursor.entry)).1 }
{
    match cursor.first() {
        Some((DecodedToken::Word(word), rest)) => match offset(word.as_bytes()) {
            Some(n) => (n, rest),
            None => (0, cursor),
        },
        _ => (0, cursor),
    }
}

/// Parses an optional `align=` keyword. Returns the exponent of the alignment, which is `natural`
/// by default, and the remaining tokens.
pub(crate) fn align_at<'p, 'a>(
    natural: u8,
    cursor: TokenCursor<'p, 'a>,
) -> (u8, TokenCursor<'p, 'a>)
    ensures align { result.0 ≡ (align_of natural (terminals_of cursor.entry)).0 }
    ensures rest { terminals_of result.1 ≡ (align_of natural (terminals_of cursor.entry)).1 }
{
    match cursor.first() {
        Some((DecodedToken::Word(word), rest)) => match align(word.as_bytes()) {
            Some(n) => (n, rest),
            None => (natural, cursor),
        },
        _ => (natural, cursor),
    }
}

/// Returns the offset of an `offset=` keyword. Returns `None` for any other keyword, and if the
/// offset is not a 32-bit integer.
fn offset(word: &[u8]) -> Option<u32>
    ensures { result ≡ memory.offset word.now }
{
    match after(b"offset=", word) {
        Some(digits) => number(digits),
        None => None,
    }
}

/// Returns the exponent of the alignment of an `align=` keyword. Returns `None` for any other
/// keyword, and if the alignment is not a power of two below 2^32.
fn align(word: &[u8]) -> Option<u8>
    ensures { result ≡ memory.align word.now }
{
    match after(b"align=", word) {
        Some(digits) => match number(digits) {
            Some(of) => exponent(of),
            None => None,
        },
        None => None,
    }
}

/// Returns the bytes after a prefix, or `None` if the keyword does not begin with it.
fn after<'w>(prefix: &[u8], word: &'w [u8]) -> Option<&'w [u8]>
    ensures { MatchOption result
        (memory.after prefix.now word.now ≡ None)
        (λ r. memory.after prefix.now word.now ≡ Some r.now) }
{
    word.strip_prefix(prefix)
}

/// Parses an unsigned 32-bit integer, decimal or, after `0x`, hexadecimal. Returns `None` if the
/// bytes are not such an integer.
fn number(digits: &[u8]) -> Option<u32>
    ensures { result ≡ memory.u32 digits.now }
{
    match after(b"0x", digits) {
        Some(rest) => number_of(true, rest),
        None => number_of(false, digits),
    }
}

/// Parses an unsigned 32-bit integer without a prefix, hexadecimal if `hex` is `true`. Returns
/// `None` if the bytes are not such an integer.
fn number_of(hex: bool, digits: &[u8]) -> Option<u32>
    ensures { result ≡ memory.number hex digits.now }
{
    if !are_digits(hex, digits) {
        return None;
    }
    match magnitude(digits, hex) {
        Some(n) if n < 0x1_0000_0000 => Some(n as u32),
        Some(_) => None,
        None => None,
    }
}

/// Returns `true` if the bytes are one or more digits, with at most one underscore between two of
/// them.
#[tactic(auto, using(crate::proofs::Digits::from_first))]
fn are_digits(hex: bool, digits: &[u8]) -> bool
    ensures { result ≡ memory.are_digits hex digits.now }
{
    let mut after_digit = false;
    for byte in digits {
        if after_digit && *byte == b'_' {
            after_digit = false;
        } else if is_digit(hex, *byte) {
            after_digit = true;
        } else {
            return false;
        }
    }
    after_digit
}

/// Returns `true` if the byte is a decimal digit or, if `hex` is `true`, a hexadecimal digit.
fn is_digit(hex: bool, byte: u8) -> bool
    ensures { result ≡ is_digit hex byte }
{
    if hex {
        byte.is_ascii_hexdigit()
    } else {
        byte.is_ascii_digit()
    }
}

/// Returns the exponent of a power of two, or `None` for any other integer.
fn exponent(of: u32) -> Option<u8>
    ensures { result ≡ memory.exponent_below 32 of }
{
    let mut n = 32;
    let mut power: u64 = 0x1_0000_0000;
    while n > 0 {
        n -= 1;
        power /= 2;
        if power == u64::from(of) {
            return Some(n);
        }
    }
    None
}
