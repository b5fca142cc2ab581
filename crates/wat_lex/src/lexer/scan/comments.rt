//! Scanning of comments.
ghost use Rattle.std.specs.Prelude.{
  ◌≡◌,
  ◌<◌,
  ◌≤◌,
  ◌+◌,
  ℕ,
  List,
  false,
  not,
  length,
  drop,
  slice_index,
  IfSome,
};
ghost use Rattle.std.specs.Prelude.{IfNone, MatchOption, IfOk, IfErr, IsTrue};
ghost use Rattle.std.specs.List.{prefix_len};
ghost use Rattle.std.specs.Str.{chars, NonePass};
ghost use Rattle.wat_lex.specs.grammar.Classes.{is_line_end, is_confusing};
ghost use Rattle.wat_lex.specs.grammar.Comments.{Closes};
ghost use Rattle.wat_lex.specs.tokens.Faults.{IsComment};
ghost use Rattle.wat_lex.specs.inside.ScannedLexemes.{LexemeFound, Refused, FirstConfusing};
ghost use Rattle.wat_lex.specs.inside.ScannedLexemes.{ClosesPlainly};
ghost use Rattle.wat_lex.specs.declared.lexer.kinds.TokenKind.TheVariants.{LineComment};
ghost use Rattle.wat_lex.specs.declared.lexer.kinds.TokenKind.TheVariants.{BlockComment};
ghost use Rattle.wat_lex.specs.inside.Blocks.{GoesOn, is_plain_in_line};
ghost use Rattle.wat_lex.specs.inside.Blocks.{leads_at, IsLeadless, IsFirstLead};
ghost use Rattle.wat_lex.specs.inside.Nesting.{Reaches, opens_at, closes_at, delimits, passing};
ghost use Rattle.wat_lex.specs.inside.Outlines.{BeginsWithFault};
ghost use Rattle.wat_lex.specs.tokens.Setting.{allowing};

use crate::lexer::faults::{LexError, LexFault};
use crate::lexer::kinds::{Lexeme, TokenKind};
use crate::lexer::scan::blocks::{
    block_at, confusing_ends, equal_to, other_than_plain_in_block, other_than_plain_in_line,
    other_than_surely_plain,
};
use crate::lexer::scan::classes::is_confusing;
use crate::lexer::settings::Settings;
use memchr::{memchr, memchr2, memchr3};

/// Returns the number of bytes before the line end.
fn line_len(text: &[u8]) -> usize
    ensures { result ≡ prefix_len (λ c. not (is_line_end c)) text.now }
{
    memchr2(b'\n', b'\r', text).unwrap_or(text.len())
}

/// Returns a bit mask of the 16 bytes from index `i` on: those that are 0xE2 and are followed by
/// 0x80 or 0x81 and then a byte from 0xA6 to 0xAE. The lowest bit is the first byte's.
#[inline(always)]
fn confusing_leads(text: &[u8], i: usize) -> u64
    requires { i + 18 ≤ length text.now }
    ensures { result ≡ passing (leads_at text.now) i 16 }
{
    let leads = equal_to(block_at(text, i), 0xe2);
    let next = block_at(text, i + 1);
    let pairs = (leads & equal_to(next, 0x80)) | (leads & equal_to(next, 0x81));
    pairs & confusing_ends(block_at(text, i + 2))
}

/// Returns the index of a byte 0xE2 before which no confusing character begins, or `None` if none
/// begins at all. The last block overlaps the one before it.
fn first_lead(text: &[u8]) -> Option<usize>
    ensures { MatchOption result (IsLeadless text.now (length text.now)) (IsFirstLead text.now) }
{
    if text.len() < 18 {
        return memchr(0xe2, text);
    }
    let mut i = 0;
    while text.len() - i > 17 {
        let found = confusing_leads(text, i);
        if found != 0 {
            return Some(i + found.trailing_zeros() as usize);
        }
        i += 16;
    }
    let last = text.len() - 18;
    let found = confusing_leads(text, last);
    if found == 0 {
        return None;
    }
    Some(last + found.trailing_zeros() as usize)
}

/// Returns the first confusing character and its offset. Searches for the byte 0xE2, with which
/// each of them begins, and which is not a later byte of any character.
pub fn first_confusing(text: &str) -> Option<(usize, char)>
    ensures { MatchOption result (NonePass is_confusing (chars text.now))
        (λ f. FirstConfusing text.now f.0 f.1) }
{
    let mut at = memchr(0xe2, text.as_bytes())?;
    'places: while let Some(skipped) = first_lead(text[at..].as_bytes()) {
        at += skipped;
        match text[at..].chars().next() {
            None => return None,
            Some(c) => {
                if is_confusing(c) {
                    return Some((at, c));
                }
                at += c.len_utf8();
            }
        }
    }
    None
}

/// Returns the number of bytes before the first line end or byte 0xE2, by a search.
fn plain_by_search(text: &[u8]) -> usize
    ensures { result ≡ prefix_len is_plain_in_line text.now }
{
    memchr3(b'\n', b'\r', 0xe2, text).unwrap_or(text.len())
}

/// Returns the number of bytes before the first line end or byte 0xE2, a block at a time.
fn plain_by_block(text: &[u8]) -> usize
    ensures { result ≡ prefix_len is_plain_in_line text.now }
{
    let mut i = 0;
    while text.len() - i >= 16 {
        let others = other_than_plain_in_line(block_at(text, i));
        if others != 0 {
            return i + others.trailing_zeros() as usize;
        }
        i += 16;
    }
    i + plain_by_search(&text[i..])
}

/// Returns `true` if the 64 bytes from index `i` on contain neither a line end nor a byte 0xE2.
#[inline(always)]
fn four_are_plain(text: &[u8], i: usize) -> bool
    requires { i + 64 ≤ length text.now }
    ensures { IsTrue result → GoesOn is_plain_in_line text.now i 64 }
{
    let first = other_than_plain_in_line(block_at(text, i));
    let second = other_than_plain_in_line(block_at(text, i + 16));
    let third = other_than_plain_in_line(block_at(text, i + 32));
    let fourth = other_than_plain_in_line(block_at(text, i + 48));
    first | second | third | fourth == 0
}

/// Returns `true` if the 64 bytes from index `i` on are ASCII and not below 14, so that they
/// contain neither a line end nor a byte 0xE2. It costs half as much as [`four_are_plain`], but
/// also fails at TABs and beyond ASCII.
#[inline(always)]
fn four_are_surely_plain(text: &[u8], i: usize) -> bool
    requires { i + 64 ≤ length text.now }
    ensures { IsTrue result → GoesOn is_plain_in_line text.now i 64 }
{
    let first = other_than_surely_plain(block_at(text, i));
    let second = other_than_surely_plain(block_at(text, i + 16));
    let third = other_than_surely_plain(block_at(text, i + 32));
    let fourth = other_than_surely_plain(block_at(text, i + 48));
    first | second | third | fourth == 0
}

/// Returns the number of bytes before the first line end or byte 0xE2, four blocks at a time.
fn plain_by_four_blocks(text: &[u8]) -> usize
    ensures { result ≡ prefix_len is_plain_in_line text.now }
{
    let mut i = 0;
    while text.len() - i >= 64 && (four_are_surely_plain(text, i) || four_are_plain(text, i)) {
        i += 64;
    }
    i + plain_by_block(&text[i..])
}

/// Returns the number of bytes before the first line end or byte 0xE2, with which every confusing
/// character begins. Most comments end in the first 64 bytes, which are examined by single blocks.
fn plain_len_in_line(text: &[u8]) -> usize
    ensures { result ≡ prefix_len is_plain_in_line text.now }
{
    let near = text.len().min(64);
    let plain = plain_by_block(&text[..near]);
    if plain < near {
        return plain;
    }
    near + plain_by_four_blocks(&text[near..])
}

/// Returns a bit mask of the 16 bytes from index `i` on at which `(;` or `;)` begins. The lowest
/// bit is the first byte's.
#[inline(always)]
fn delimiters(text: &[u8], i: usize) -> u64
    requires { i + 17 ≤ length text.now }
    ensures { result ≡ passing (delimits text.now) i 16 }
{
    let here = block_at(text, i);
    let next = block_at(text, i + 1);
    let opens = equal_to(here, b'(') & equal_to(next, b';');
    let closes = equal_to(here, b';') & equal_to(next, b')');
    opens | closes
}

/// Reads the delimiters that begin in the 16 bytes from index `from` on, whose mask is `mask`.
/// `opened` comments are open before them. Returns the number of comments that are open after them,
/// and an index after these bytes. If all are closed, returns 0 and the index after the last one.
#[inline(always)]
fn past_delimiters(text: &[u8], from: usize, opened: usize, mask: u64) -> (usize, usize)
    requires some { 0 < opened }
    requires few { opened ≤ from + 1 }
    requires range { from + 17 ≤ length text.now }
    requires mask { mask ≡ passing (delimits text.now) from 16 }
    requires reaches { Reaches text.now opened (drop from text.now) }
    ensures few { result.0 ≤ result.1 + 1 }
    ensures on { from < result.1 }
    ensures range { result.1 ≤ length text.now }
    ensures reaches { Reaches text.now result.0 (drop result.1 text.now) }
{
    let mut level = opened;
    let mut i = from;
    let mut found = mask;
    while found != 0 {
        let skipped = found.trailing_zeros();
        i += skipped as usize;
        if text[i] == b'(' {
            level += 1;
        } else {
            level -= 1;
        }
        i += 2;
        if level == 0 {
            return (0, i);
        }
        found = found >> skipped >> 2;
    }
    (level, i.max(from + 16))
}

/// Returns the length in bytes of a block comment after its `(;`, including its `;)`, or `None` if
/// it is unterminated. The number of comments that are open at index `from` is `opened`.
fn closing_len_by_byte(text: &[u8], from: usize, opened: usize) -> Option<usize>
    requires some { 0 < opened }
    requires few { opened ≤ from + 1 }
    requires range { from ≤ length text.now }
    requires reaches { Reaches text.now opened (drop from text.now) }
    ensures range { IfSome result (λ n. n ≤ length text.now) }
    ensures found { IfSome result (λ n. Closes text.now (drop n text.now)) }
    ensures none { IfNone result ((r : List ℕ) → Closes text.now r → ⊥) }
{
    let mut level = opened;
    let mut i = from;
    while i < text.len() {
        if i + 1 < text.len() && text[i] == b'(' && text[i + 1] == b';' {
            level += 1;
            i += 2;
        } else if i + 1 < text.len() && text[i] == b';' && text[i + 1] == b')' {
            level -= 1;
            i += 2;
            if level == 0 {
                return Some(i);
            }
        } else {
            i += 1;
        }
    }
    None
}

/// Returns the length in bytes of a block comment after its `(;`, including its `;)`, or `None` if
/// it is unterminated.
fn closing_len(text: &[u8]) -> Option<usize>
    ensures range { IfSome result (λ n. n ≤ length text.now) }
    ensures found { IfSome result (λ n. Closes text.now (drop n text.now)) }
    ensures none { IfNone result ((r : List ℕ) → Closes text.now r → ⊥) }
{
    let mut level = 1usize;
    let mut i = 0usize;
    while text.len() - i > 16 {
        let found = delimiters(text, i);
        if found == 0 {
            i += 16;
        } else {
            (level, i) = past_delimiters(text, i, level, found);
            if level == 0 {
                return Some(i);
            }
        }
    }
    closing_len_by_byte(text, i, level)
}

/// Returns the length in bytes of the comment at the start, or an error if it has a confusing
/// character that is not allowed.
fn checked(text: &str, comment: Lexeme, flags: Settings) -> Result<usize, LexFault>
    requires comment { IsComment comment.kind }
    requires found { LexemeFound (allowing flags) text.now comment }
    ensures ok { IfOk result (λ len.
        LexemeFound flags text.now (record { kind = comment.kind; len = len })) }
    ensures err { IfErr result (Refused flags text.now) }
{
    if flags.allow {
        return Ok(comment.len);
    }
    match first_confusing(&text[..comment.len]) {
        None => Ok(comment.len),
        Some((offset, c)) => Err(LexFault {
            offset,
            error: LexError::ConfusingUnicode(c),
        }),
    }
}

/// Returns the length in bytes of the block comment at the start, or the lexical error. The text
/// must begin with `(;`.
pub fn block_comment(text: &str, flags: Settings) -> Result<usize, LexFault>
    requires opened { (slice_index text.now 0 ≡ 40) × (slice_index text.now 1 ≡ 59) }
    ensures ok { IfOk result (λ len.
        LexemeFound flags text.now (record { kind = BlockComment; len = len })) }
    ensures err { IfErr result (Refused flags text.now) }
{
    match closing_len(&text.as_bytes()[2..]) {
        Some(len) => {
            let comment = Lexeme {
                kind: TokenKind::BlockComment,
                len: len + 2,
            };
            checked(text, comment, flags)
        }
        None => Err(LexFault {
            offset: 0,
            error: LexError::DanglingBlockComment,
        }),
    }
}

/// Returns the length in bytes of the line comment at the start, or the lexical error. The text
/// must begin with `;;`.
pub fn line_comment(text: &str, flags: Settings) -> Result<usize, LexFault>
    requires begun { (slice_index text.now 0 ≡ 59) × (slice_index text.now 1 ≡ 59) }
    ensures ok { IfOk result (λ len.
        LexemeFound flags text.now (record { kind = LineComment; len = len })) }
    ensures err { IfErr result (Refused flags text.now) }
{
    let line = &text.as_bytes()[2..];
    let plain = plain_len_in_line(line);
    if plain == line.len() || line[plain] != 0xe2 {
        return Ok(plain + 2);
    }
    let len = line_len(line);
    let comment = Lexeme {
        kind: TokenKind::LineComment,
        len: len + 2,
    };
    checked(text, comment, flags)
}

/// Returns the length in bytes of the block comment at the start if neither `(`, `;` nor 0xE2 is
/// between its `(;`, which is not examined, and its `;)`, which begins in the next 16 bytes.
/// Otherwise, and for a text of fewer than 19 bytes, returns `None`.
#[inline(always)]
pub fn short_block_comment_len(text: &[u8]) -> Option<usize>
    ensures { IfSome result (ClosesPlainly text.now) }
{
    if text.len() < 19 {
        return None;
    }
    let others = other_than_plain_in_block(block_at(text, 2));
    if others == 0 {
        return None;
    }
    let end = 2 + others.trailing_zeros() as usize;
    if text[end] == b';' && text[end + 1] == b')' {
        Some(end + 2)
    } else {
        None
    }
}

/// Returns the length in bytes of the block comment at the start, or `None` at a lexical error. The
/// text must begin with `(;`.
#[inline(never)]
pub fn block_comment_len(text: &str, flags: Settings) -> Option<usize>
    requires opened { (slice_index text.now 0 ≡ 40) × (slice_index text.now 1 ≡ 59) }
    ensures some { IfSome result (λ len.
        LexemeFound flags text.now (record { kind = BlockComment; len = len })) }
    ensures none { IfNone result (BeginsWithFault flags text.now) }
{
    match block_comment(text, flags) {
        Ok(len) => Some(len),
        Err(_) => None,
    }
}

/// Returns the length in bytes of the line comment at the start, or `None` at a lexical error. The
/// text must begin with `;;`.
#[inline(never)]
pub fn line_comment_len(text: &str, flags: Settings) -> Option<usize>
    requires begun { (slice_index text.now 0 ≡ 59) × (slice_index text.now 1 ≡ 59) }
    ensures some { IfSome result (λ len.
        LexemeFound flags text.now (record { kind = LineComment; len = len })) }
    ensures none { IfNone result (BeginsWithFault flags text.now) }
{
    match line_comment(text, flags) {
        Ok(len) => Some(len),
        Err(_) => None,
    }
}
