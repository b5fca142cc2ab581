//! Formats the line of a token, `{offset}..{end} {kind}`.
//!
//! A line is assembled from chunks of 16 bytes, of which only the first bytes are kept: a copy of
//! constant length is cheaper than one of exactly the bytes that are needed.
ghost use Rattle.std.specs.Prelude.{◌≡◌, ◌++◌, ◌∷◌, ◌+◌, ◌-◌, ◌/◌, ◌%◌, ◌<◌, ◌≤◌, ℕ, List, []};
ghost use Rattle.std.specs.Prelude.{codes};
ghost use Rattle.std.specs.Prelude.{drop, length, take, ◌^◌};
ghost use Rattle.std.specs.Fmt.{decimal};
ghost use Rattle.std.specs.Str.{IsCharBoundary};
ghost use Rattle.wat_tokens_io.specs.Lines.{kind_name, line};

use std::marker::Model;
use wat_lex::lexer::{Token, TokenKind};

/// Size of a chunk, in bytes.
const PIECE: usize = 16;

/// Buffer size for a line, in bytes: two integers of 10 digits, two dots, and a chunk.
pub const ROOM: usize = 38;

/// Number of digits of the longest integer: integers are below 2^33.
const MOST_DIGITS: usize = 10;

/// Size of the buffer of `Digits`, in bytes: 10 digits and a chunk.
const LONGEST: usize = 26;

/// The integers below 100, in two decimal digits each.
static PAIRS: [[u8; 2]; 100] = [
    *b"00", *b"01", *b"02", *b"03", *b"04", *b"05", *b"06", *b"07", *b"08", *b"09", *b"10", *b"11",
    *b"12", *b"13", *b"14", *b"15", *b"16", *b"17", *b"18", *b"19", *b"20", *b"21", *b"22", *b"23",
    *b"24", *b"25", *b"26", *b"27", *b"28", *b"29", *b"30", *b"31", *b"32", *b"33", *b"34", *b"35",
    *b"36", *b"37", *b"38", *b"39", *b"40", *b"41", *b"42", *b"43", *b"44", *b"45", *b"46", *b"47",
    *b"48", *b"49", *b"50", *b"51", *b"52", *b"53", *b"54", *b"55", *b"56", *b"57", *b"58", *b"59",
    *b"60", *b"61", *b"62", *b"63", *b"64", *b"65", *b"66", *b"67", *b"68", *b"69", *b"70", *b"71",
    *b"72", *b"73", *b"74", *b"75", *b"76", *b"77", *b"78", *b"79", *b"80", *b"81", *b"82", *b"83",
    *b"84", *b"85", *b"86", *b"87", *b"88", *b"89", *b"90", *b"91", *b"92", *b"93", *b"94", *b"95",
    *b"96", *b"97", *b"98", *b"99",
];

/// Returns the two decimal digits of an integer below 100.
fn two_digits(number: usize) -> [u8; 2]
    requires { number < 100 }
    ensures { result ≡ (48 + number / 10) ∷ (48 + number % 10) ∷ [] }
{
    PAIRS[number]
}

/// The decimal digits of an integer, right-aligned in a buffer, with two dots and padding after
/// them.
#[derive(Drop)]
pub(crate) struct Digits {
    /// The buffer: 10 bytes for digits, two dots, and 14 bytes of padding.
    bytes: [u8; LONGEST],
    /// Index of the first digit in `bytes`.
    start: usize,
}

impl Model for Digits {
    ghost Value = { List ℕ };

    ghost view = { λ d. drop d.start d.bytes };

    ghost invariant = { λ d. d.start ≤ 10 };
}

impl Digits {
    /// Creates a buffer that has the two dots and the padding, but no digit.
    fn none() -> Digits
        ensures { result ≡ codes "..00000000000000" }
    {
        Digits {
            bytes: *b"0000000000..00000000000000",
            start: MOST_DIGITS,
        }
    }

    /// Returns the number of digits.
    fn count(&self) -> usize
        ensures digits { result + 16 ≡ length self.now }
        ensures few { result ≤ 10 }
    {
        MOST_DIGITS - self.start
    }

    /// Returns the first 16 bytes: the digits, the two dots, and padding.
    fn first_16_bytes(&self) -> &[u8]
        ensures piece { result.now ≡ take 16 self.now }
        ensures len { length result.now ≡ 16 }
    {
        &self.bytes[self.start..self.start + PIECE]
    }

    /// Prepends bytes.
    fn put(&mut self, bytes: &[u8])
        requires { length self.old + length bytes.now ≤ 26 }
        ensures bytes { self.new ≡ bytes.now ++ self.old }
        ensures len { length self.new ≡ length bytes.now + length self.old }
    {
        let start = self.start - bytes.len();
        self.bytes[start..self.start].copy_from_slice(bytes);
        self.start = start;
    }

    /// Prepends the decimal digits of an integer, two digits at a time.
    fn put_number(&mut self, number: usize)
        requires short { number < 2 ^ 33 }
        requires room { length self.old + 10 ≤ 26 }
        ensures digits { self.new ≡ decimal number ++ self.old }
        ensures len { length self.new ≤ 10 + length self.old }
    {
        let mut rest = number;
        while rest >= 100 {
            self.put(&two_digits(rest % 100));
            rest /= 100;
        }
        if rest >= 10 {
            self.put(&two_digits(rest));
        } else {
            self.put(&[b'0' + rest as u8]);
        }
    }

    /// Overwrites the last two digits.
    fn put_last_two(&mut self, pair: [u8; 2])
        requires { 18 ≤ length self.old }
        ensures { self.new ≡ take (length self.old - 18) self.old
            ++ pair ++ drop (length self.old - 16) self.old }
    {
        self.bytes[MOST_DIGITS - 2..MOST_DIGITS].copy_from_slice(&pair);
    }

    /// Replaces the digits of `from` by those of `to`. Usually only the last two digits differ, and
    /// only these are overwritten.
    #[inline(always)]
    fn change(&mut self, from: usize, to: usize)
        requires short { to < 2 ^ 33 }
        requires from { self.old ≡ decimal from ++ codes "..00000000000000" }
        ensures { self.new ≡ decimal to ++ codes "..00000000000000" }
    {
        if to < 100 || to / 100 != from / 100 {
            *self = digits_of(to);
            return;
        }
        self.put_last_two(two_digits(to % 100));
    }

    /// Writes the digits at index `at` of `room`, and returns the index after them. Overwrites the
    /// 16 bytes from `at`.
    #[inline(always)]
    fn put_in(&self, room: &mut [u8], at: usize) -> usize
        requires wide { at + 16 ≤ length room.old }
        ensures put { take result room.new
            ≡ take at room.old ++ take (length self.now - 16) self.now }
        ensures end { result + 16 ≡ at + length self.now }
        ensures few { result ≤ at + 10 }
        ensures room { length room.new ≡ length room.old }
    {
        put_piece(room, at, self.first_16_bytes(), self.count())
    }
}

/// Returns the decimal digits of an integer.
fn digits_of(number: usize) -> Digits
    requires { number < 2 ^ 33 }
    ensures { result ≡ decimal number ++ codes "..00000000000000" }
{
    let mut digits = Digits::none();
    digits.put_number(number);
    digits
}

/// Writes the decimal digits of an integer at index `at` of `room`, and returns the index after
/// them. May overwrite the 16 bytes from `at`.
#[inline(always)]
pub(crate) fn put_number(room: &mut [u8], at: usize, number: usize) -> usize
    requires short { number < 2 ^ 33 }
    requires wide { at + 16 ≤ length room.old }
    ensures put { take result room.new ≡ take at room.old ++ decimal number }
    ensures end { result ≤ at + 10 }
    ensures room { length room.new ≡ length room.old }
{
    if number < 10 {
        room[at] = b'0' + number as u8;
        return at + 1;
    }
    if number < 100 {
        room[at..at + 2].copy_from_slice(&two_digits(number));
        return at + 2;
    }
    digits_of(number).put_in(room, at)
}

/// An integer, below 2^33, with its decimal digits cached: the offset or the line number that was
/// written last.
#[derive(Drop)]
pub struct Place {
    /// The integer.
    offset: usize,
    /// The digits of the integer.
    digits: Digits,
}

impl Model for Place {
    ghost Value = { ℕ };

    ghost view = { λ p. p.offset };

    ghost invariant = { λ p. p.digits ≡ decimal p.offset ++ codes "..00000000000000" };
}

impl Place {
    /// Creates a cache of the integer 0, the offset of a text's first byte.
    pub fn start() -> Place
        ensures { result ≡ 0 }
    {
        Place {
            offset: 0,
            digits: digits_of(0),
        }
    }

    /// Changes the integer to `offset`. Does nothing if they are equal, as they usually are if the
    /// next token begins at the end of the last one.
    pub(crate) fn move_to(&mut self, offset: usize)
        requires { offset < 2 ^ 33 }
        ensures { self.new ≡ offset }
    {
        if offset != self.offset {
            self.digits.change(self.offset, offset);
            self.offset = offset;
        }
    }

    /// Writes the digits at index `at` of `room`, and returns the index after them. Overwrites the
    /// 16 bytes from `at`.
    #[inline(always)]
    pub(crate) fn put_in(&self, room: &mut [u8], at: usize) -> usize
        requires wide { at + 16 ≤ length room.old }
        ensures put { take result room.new ≡ take at room.old ++ decimal self.now }
        ensures end { result ≤ at + 10 }
        ensures room { length room.new ≡ length room.old }
    {
        self.digits.put_in(room, at)
    }

    /// Returns 16 bytes: the digits, two dots, and padding.
    fn first_16_bytes(&self) -> &[u8]
        ensures piece { result.now ≡ take 16 (decimal self.now ++ codes "..00000000000000") }
        ensures len { length result.now ≡ 16 }
    {
        self.digits.first_16_bytes()
    }

    /// Returns the number of digits.
    fn count(&self) -> usize
        ensures digits { result ≡ length (decimal self.now) }
        ensures few { result ≤ 10 }
    {
        self.digits.count()
    }
}

/// Returns a text of 16 bytes that begins with the end of the line of a token of this kind, and the
/// length of that end.
fn padded_end(kind: TokenKind) -> (&'static str, usize)
    ensures text { take result.1 result.0.now ≡ codes " " ++ kind_name kind ++ codes "\n" }
    ensures piece { length result.0.now ≡ 16 }
    ensures cut { IsCharBoundary result.0.now result.1 }
    ensures short { result.1 ≤ 14 }
{
    match kind {
        TokenKind::LineComment => (" LineComment\n   ", 13),
        TokenKind::BlockComment => (" BlockComment\n  ", 14),
        TokenKind::Whitespace => (" Whitespace\n    ", 12),
        TokenKind::LParen => (" LParen\n        ", 8),
        TokenKind::RParen => (" RParen\n        ", 8),
        TokenKind::String => (" String\n        ", 8),
        TokenKind::Id => (" Id\n            ", 4),
        TokenKind::Keyword => (" Keyword\n       ", 9),
        TokenKind::Annotation => (" Annotation\n    ", 12),
        TokenKind::Reserved => (" Reserved\n      ", 10),
        TokenKind::Integer(_) => (" Integer\n       ", 9),
        TokenKind::Float(_) => (" Float\n         ", 7),
    }
}

/// Returns the end of the line of a token of this kind: a space, the name of the kind, and a line
/// feed.
pub fn line_end(kind: TokenKind) -> &'static str
    ensures text { result.now ≡ codes " " ++ kind_name kind ++ codes "\n" }
{
    let (padded, count) = padded_end(kind);
    &padded[..count]
}

/// Copies `piece`, a chunk of 16 bytes, to index `at` of `room`, and returns the index after its
/// first `count` bytes.
#[inline(always)]
pub(crate) fn put_piece(room: &mut [u8], at: usize, piece: &[u8], count: usize) -> usize
    requires piece { length piece.now ≡ 16 }
    requires count { count ≤ 16 }
    requires wide { at + 16 ≤ length room.old }
    ensures put { take result room.new ≡ take at room.old ++ take count piece.now }
    ensures end { result ≡ at + count }
    ensures room { length room.new ≡ length room.old }
{
    room[at..at + PIECE].copy_from_slice(piece);
    at + count
}

/// Writes a token's line at the start of `room`, and returns the line's length in bytes. `place`
/// caches the digits of the offset that was written last.
#[inline(always)]
pub fn put_line(room: &mut [u8], place: &mut Place, token: &Token) -> usize
    requires wide { 38 ≤ length room.old }
    requires short { token.now.offset + token.now.len < 2 ^ 32 }
    ensures line { take result room.new ≡ line token.now }
    ensures end { result ≤ length room.new }
    ensures room { length room.new ≡ length room.old }
{
    place.move_to(token.offset);
    let dots = put_piece(room, 0, place.first_16_bytes(), place.count() + 2);
    place.move_to(token.offset + token.len as usize);
    let name = put_piece(room, dots, place.first_16_bytes(), place.count());
    let (padded, count) = padded_end(token.kind);
    put_piece(room, name, padded.as_bytes(), count)
}
