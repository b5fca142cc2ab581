//! Formats the members of a token's JSON object before and after its text, from chunks of constant
//! length.
ghost use Rattle.std.specs.Prelude.{◌≡◌, ◌++◌, ◌+◌, ◌<◌, ◌≤◌, ◌^◌, length, take, codes};
ghost use Rattle.wat_tokens_io.specs.JsonRows.{json_tail, json_head};
ghost use Rattle.wat_tokens_io.specs.Lines.{kind_name};

use crate::line::{Place, put_number, put_piece};
use wat_lex::lexer::{Token, TokenKind};

/// Buffer size for the members before the text or after it, in bytes.
pub(crate) const ROOM: usize = 96;

/// Size of the chunk of a kind, in bytes.
const KIND_PIECE: usize = 32;

/// Returns a text of 32 bytes that begins with the member `kind` and the start of the member
/// `text`, and the length of that beginning.
fn padded_kind(kind: TokenKind) -> (&'static str, usize)
    ensures text { take result.1 result.0.now
        ≡ codes ",\"kind\":\"" ++ kind_name kind ++ codes "\",\"text\":\"" }
    ensures piece { length result.0.now ≡ 32 }
    ensures short { result.1 ≤ 32 }
{
    match kind {
        TokenKind::LineComment => (",\"kind\":\"LineComment\",\"text\":\"  ", 30),
        TokenKind::BlockComment => (",\"kind\":\"BlockComment\",\"text\":\" ", 31),
        TokenKind::Whitespace => (",\"kind\":\"Whitespace\",\"text\":\"   ", 29),
        TokenKind::LParen => (",\"kind\":\"LParen\",\"text\":\"       ", 25),
        TokenKind::RParen => (",\"kind\":\"RParen\",\"text\":\"       ", 25),
        TokenKind::String => (",\"kind\":\"String\",\"text\":\"       ", 25),
        TokenKind::Id => (",\"kind\":\"Id\",\"text\":\"           ", 21),
        TokenKind::Keyword => (",\"kind\":\"Keyword\",\"text\":\"      ", 26),
        TokenKind::Annotation => (",\"kind\":\"Annotation\",\"text\":\"   ", 29),
        TokenKind::Reserved => (",\"kind\":\"Reserved\",\"text\":\"     ", 27),
        TokenKind::Integer(_) => (",\"kind\":\"Integer\",\"text\":\"      ", 26),
        TokenKind::Float(_) => (",\"kind\":\"Float\",\"text\":\"        ", 24),
    }
}

/// Writes the member `kind` and the start of the member `text` at index `at` of `room`, and returns
/// the index after them. Overwrites the 32 bytes from `at`.
#[inline(always)]
fn put_kind(room: &mut [u8], at: usize, kind: TokenKind) -> usize
    requires wide { at + 32 ≤ length room.old }
    ensures put { take result room.new
        ≡ take at room.old ++ (codes ",\"kind\":\"" ++ kind_name kind ++ codes "\",\"text\":\"") }
    ensures end { result ≤ at + 32 }
    ensures room { length room.new ≡ length room.old }
{
    let (padded, count) = padded_kind(kind);
    room[at..at + KIND_PIECE].copy_from_slice(padded.as_bytes());
    at + count
}

/// Writes the members before a token's text, without the start of the line, and the quotation mark
/// that opens the text, at the start of `room`. Returns their length in bytes.
#[inline(always)]
pub(crate) fn put_head(room: &mut [u8], place: &mut Place, token: &Token) -> usize
    requires wide { 96 ≤ length room.old }
    requires short { token.now.offset + token.now.len < 2 ^ 32 }
    ensures head { take result room.new ≡ json_head token.now ++ codes "\"" }
    ensures end { result ≤ length room.new }
    ensures room { length room.new ≡ length room.old }
{
    place.move_to(token.offset);
    let offset = put_piece(room, 0, b"\"offset\":       ", 9);
    let name = place.put_in(room, offset);
    let length = put_piece(room, name, b",\"length\":      ", 10);
    let kind = put_number(room, length, token.len as usize);
    put_kind(room, kind, token.kind)
}

/// Writes the quotation mark that closes a token's text, and the members `line` and `column`, at
/// the start of `room`. Returns their length in bytes. The arguments count from 0, the members from
/// 1.
#[inline(always)]
pub(crate) fn put_tail(room: &mut [u8], place: &mut Place, line: usize, column: usize) -> usize
    requires wide { 96 ≤ length room.old }
    requires line { line < 2 ^ 32 }
    requires column { column < 2 ^ 32 }
    ensures after { take result room.new ≡ codes "\"" ++ json_tail (line, column) }
    ensures end { result ≤ length room.new }
    ensures room { length room.new ≡ length room.old }
{
    place.move_to(line + 1);
    let first = put_piece(room, 0, b"\",\"line\":       ", 9);
    let name = place.put_in(room, first);
    let second = put_piece(room, name, b",\"column\":      ", 10);
    let end = put_number(room, second, column + 1);
    put_piece(room, end, b"}\n              ", 2)
}
