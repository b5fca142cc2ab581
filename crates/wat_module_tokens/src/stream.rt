//! The significant tokens of a source text, packed into 6 bytes each. The value of a token is read
//! from the text, or from a side table, whenever a parser peeks at the token.
ghost use Rattle.std.specs.Prelude.{◌≡◌, ◌≢◌, ◌≤◌, ◌+◌, ◌∷◌, [], List};
ghost use Rattle.std.specs.Prelude.{length, map, slice_get, MatchOption};
ghost use Rattle.wat_module_tokens.specs.TokenCursor.{terminals_of};
ghost use Rattle.wat_module_tokens.specs.Terminals.{past, Open, Terminal, terminal};
ghost use Rattle.wat_module_tokens.specs.Tokens.{AreCharacters, AreLinked, AreReadable, IsReadable};
ghost use Rattle.wat_module_tokens.specs.Tokens.{bytes_at, from_position, joined, kept_or, number_of};
ghost use Rattle.wat_module_tokens.specs.Tokens.{step_of, terminal_in, terminals_in};
ghost use Rattle.wat_module_tokens.specs.Parts.{IsPart};

use crate::token::{DecodedToken, Sign};
use std::borrow::{CowSlice, CowStr};
use std::marker::Model;

/// A 32-bit integer in two halves. Its alignment is 2 bytes, so that a packed token has 6 bytes.
#[derive(Clone, Copy)]
pub struct PackedU32 {
    low: u16,
    high: u16,
}

impl PackedU32 {
    /// Splits an integer into its halves.
    #[inline(always)]
    pub fn new(number: u32) -> PackedU32
        ensures { number_of result ≡ number }
    {
        PackedU32 {
            low: (number % 65536) as u16,
            high: (number / 65536) as u16,
        }
    }

    /// Returns the integer.
    #[inline(always)]
    pub fn number(self) -> u32
        ensures { result ≡ number_of self }
    {
        u32::from(self.high) * 65536 + u32::from(self.low)
    }
}

/// A packed token. A value that the text has verbatim is stored as its offset and its length, both
/// in bytes.
#[derive(Clone, Copy)]
pub enum PackedToken {
    /// `(`, with the index of the token after its group's `)`, or `u32::MAX` if the group is not
    /// closed.
    Open(PackedU32),
    /// `)`.
    Close,
    /// A keyword.
    Word(PackedU32, u8),
    /// An identifier, by its name without `$`.
    Id(PackedU32, u8),
    /// An integer whose magnitude is below 2^32.
    Integer(Sign, PackedU32),
    /// Any number that is not an integer below 2^64 in magnitude, by its source text.
    Float(PackedU32, u8),
    /// A string, by its value.
    Text(PackedU32, u8),
    /// A token whose value is in the side table, by its index there.
    SideValue(PackedU32),
    /// `(`, a keyword, another keyword and `)`, as in `(local i32)`, by the offset of the first
    /// keyword. One byte separates the keywords. The other field has both lengths, each below 16:
    /// 16 times the first, plus the second.
    KeywordGroup(PackedU32, u8),
    /// Any other token.
    Other,
}

/// An entry of the side table, which has the values that do not fit into a packed token: a string
/// with escapes, the name of a quoted identifier, a value of more than 255 bytes, or an integer
/// whose magnitude is 2^32 or more.
#[derive(Drop)]
pub enum SideValue<'a> {
    /// A keyword.
    Word(&'a str),
    /// An identifier, by its name without `$`.
    Id(CowStr<'a>),
    /// An integer: its sign and its magnitude.
    Integer(Sign, u64),
    /// Any number that is not an integer below 2^64 in magnitude, by its source text.
    Float(&'a str),
    /// A string, by its value.
    Text(CowSlice<'a, u8>),
}

/// The significant tokens of a source text, with the text and the side table.
#[derive(Drop)]
pub struct TokenStream<'a> {
    text: &'a str,
    tokens: Vec<PackedToken>,
    kept: &'a [SideValue<'a>],
}

impl<'a> Model for TokenStream<'a> {
    ghost use Rattle.std.specs.Prelude.{length, map};
    ghost use Rattle.wat_module_tokens.specs.Tokens.{AreLinked, AreReadable, Stream, terminals_in};

    ghost Value = { Stream };

    ghost view = { λ s. record {
      text = s.text.now;
      terminals = map (terminals_in s.text.now s.kept.now) s.tokens.items;
    } };

    ghost invariant = { λ s. AreReadable s.text.now (length s.kept.now) s.tokens.items
        × AreLinked (map (terminals_in s.text.now s.kept.now) s.tokens.items) s.tokens.items };
}

/// The remaining tokens of a parser: those of a source text from a position on.
#[derive(Clone, Copy)]
pub struct TokenCursor<'p, 'a> {
    source: &'p TokenStream<'a>,
    /// The index of a packed token, plus `PART` for each of its tokens that are consumed.
    at: usize,
}

/// The distance of two positions in the same packed token. It is greater than all indices of packed
/// tokens.
const PART: usize = usize::MAX / 4 + 1;

/// A token of a keyword group after its `(`.
#[derive(Clone, Copy)]
enum Part {
    /// A keyword, by its offset and its length, both in bytes.
    Word(PackedU32, u8),
    /// `)`.
    Close,
    /// No token: the position is not in a keyword group.
    Outside,
}

impl<'a> TokenStream<'a> {
    /// Combines the packed tokens of a text with the text and the side table.
    pub fn new(
        text: &'a str,
        tokens: Vec<PackedToken>,
        kept: &'a [SideValue<'a>],
    ) -> TokenStream<'a>
        requires readable { AreReadable text.now (length kept.now) tokens.items }
        requires linked { AreLinked (map (terminals_in text.now kept.now) tokens.items)
            tokens.items }
        ensures { result.terminals ≡ map (terminals_in text.now kept.now) tokens.items }
    {
        TokenStream { text, tokens, kept }
    }

    /// Returns all tokens.
    pub fn cursor(&self) -> TokenCursor<'_, 'a>
        ensures { terminals_of result ≡ joined self.now.terminals }
    {
        let _ = &self.text;
        TokenCursor {
            source: self,
            at: 0,
        }
    }

    /// Returns the token at a position with its value, and the position after it. Returns `None` if
    /// no token is left.
    #[inline(always)]
    fn token(&self, at: usize) -> Option<(DecodedToken<'a>, usize)>
        ensures { MatchOption result
            (from_position at self.now.terminals ≡ [])
            (λ r. from_position at self.now.terminals ≡
            terminal r.0 ∷ from_position r.1 self.now.terminals) }
    {
        match self.tokens.get(at) {
            Some(token) => {
                let (token, step) = read(self.text, self.kept, *token);
                Some((token, at + step))
            }
            None => match self.part(at) {
                Part::Word(offset, len) => {
                    Some((
                        DecodedToken::Word(characters(self.text, offset, len)),
                        at + PART,
                    ))
                }
                Part::Close => Some((DecodedToken::Close, at % PART + 1)),
                Part::Outside => None,
            },
        }
    }

    /// Returns the token at a position that is not the index of a packed token.
    #[cold]
    #[inline(never)]
    fn part(&self, at: usize) -> Part
        requires { length self.now.terminals ≤ at }
        ensures { IsPart self.now at result }
    {
        let Some(PackedToken::KeywordGroup(offset, lens)) = self.tokens.get(at % PART) else {
            return Part::Outside;
        };
        match at / PART {
            1 => Part::Word(*offset, *lens / 16),
            2 => {
                let second = offset.number() + u32::from(*lens / 16) + 1;
                Part::Word(PackedU32::new(second), *lens % 16)
            }
            _ => Part::Close,
        }
    }

    /// Returns the position after the `(` at a position, and the position after its group. Returns
    /// `None` if the token is not `(`.
    fn group(&self, at: usize) -> Option<(usize, usize)>
        ensures { MatchOption result
            ((ts : List Terminal) → from_position at self.now.terminals ≢ Open ∷ ts)
            (λ r. (from_position at self.now.terminals ≡
            Open ∷ from_position r.0 self.now.terminals) ×
            (from_position r.1 self.now.terminals ≡
            past 0 (from_position r.0 self.now.terminals))) }
    {
        match self.tokens.get(at) {
            Some(PackedToken::Open(end)) => Some((at + 1, end.number() as usize)),
            Some(PackedToken::KeywordGroup(_, _)) => Some((at + PART, at + 1)),
            _ => None,
        }
    }

    /// Returns an upper bound of the number of tokens from a position on.
    fn most_from(&self, at: usize) -> usize
        ensures { length (from_position at self.now.terminals) ≤ result }
    {
        self.tokens.len().saturating_sub(at % PART) * 4
    }
}

/// Returns the first token of a packed token with its value, and the distance to the position after
/// it.
#[inline(always)]
fn read<'a>(
    text: &'a str,
    kept: &'a [SideValue<'a>],
    token: PackedToken,
) -> (DecodedToken<'a>, usize)
    requires { IsReadable text.now (length kept.now) token }
    ensures token { terminal result.0 ≡ terminal_in text.now kept.now token }
    ensures step { result.1 ≡ step_of token }
{
    match token {
        PackedToken::Open(_) => (DecodedToken::Open, 1),
        PackedToken::Close => (DecodedToken::Close, 1),
        PackedToken::Word(offset, len) => (DecodedToken::Word(characters(text, offset, len)), 1),
        PackedToken::Id(offset, len) => (DecodedToken::Id(characters(text, offset, len)), 1),
        PackedToken::Integer(sign, size) => {
            (DecodedToken::Integer(sign, u64::from(size.number())), 1)
        }
        PackedToken::Float(offset, len) => (DecodedToken::Float(characters(text, offset, len)), 1),
        PackedToken::Text(offset, len) => (DecodedToken::Text(bytes(text, offset, len)), 1),
        PackedToken::SideValue(index) => (at_index(kept, index.number() as usize), 1),
        PackedToken::KeywordGroup(_, _) => (DecodedToken::Open, PART),
        PackedToken::Other => (DecodedToken::Other, 1),
    }
}

/// Returns the `len` bytes of a text at an offset as a string. Uses `get`, so that the compiler
/// removes the call if the result is unused.
#[inline(always)]
fn characters(text: &str, offset: PackedU32, len: u8) -> &str
    requires { AreCharacters text.now (number_of offset) len }
    ensures { result.now ≡ bytes_at text.now (number_of offset) len }
{
    let start = offset.number() as usize;
    text.get(start..start + usize::from(len)).unwrap_or("")
}

/// Returns the `len` bytes of a text at an offset. Uses `get`, so that the compiler removes the
/// call if the result is unused.
#[inline(always)]
fn bytes(text: &str, offset: PackedU32, len: u8) -> &[u8]
    requires { number_of offset + len ≤ length text.now }
    ensures { result.now ≡ bytes_at text.now (number_of offset) len }
{
    let start = offset.number() as usize;
    match text.as_bytes().get(start..start + usize::from(len)) {
        Some(bytes) => bytes,
        None => &[],
    }
}

/// Returns the token whose value is at an index of the side table, or `DecodedToken::Other` if the
/// index is out of range.
fn at_index<'a>(kept: &'a [SideValue<'a>], index: usize) -> DecodedToken<'a>
    ensures { terminal result ≡ kept_or (slice_get kept.now index) }
{
    match kept.get(index) {
        Some(SideValue::Word(word)) => DecodedToken::Word(word),
        Some(SideValue::Id(CowStr::Borrowed(name))) => DecodedToken::Id(name),
        Some(SideValue::Id(CowStr::Owned(name))) => DecodedToken::Id(name.as_str()),
        Some(SideValue::Integer(sign, size)) => DecodedToken::Integer(*sign, *size),
        Some(SideValue::Float(word)) => DecodedToken::Float(word),
        Some(SideValue::Text(CowSlice::Borrowed(value))) => DecodedToken::Text(value),
        Some(SideValue::Text(CowSlice::Owned(value))) => DecodedToken::Text(value.as_slice()),
        None => DecodedToken::Other,
    }
}

impl<'p, 'a> TokenCursor<'p, 'a> {
    /// Returns the first token and the tokens after it, or `None` if all tokens are consumed.
    #[inline(always)]
    pub fn first(self) -> Option<(DecodedToken<'a>, TokenCursor<'p, 'a>)>
        ensures { MatchOption result
            (terminals_of self.entry ≡ [])
            (λ r. terminals_of self.entry ≡ terminal r.0 ∷ terminals_of r.1) }
    {
        let source = self.source;
        match source.token(self.at) {
            Some((token, at)) => Some((token, TokenCursor { source, at })),
            None => None,
        }
    }

    /// Returns the tokens after an initial `(`, and the tokens after its group. Returns `None` if
    /// the first token is not `(`.
    pub fn group(self) -> Option<(TokenCursor<'p, 'a>, TokenCursor<'p, 'a>)>
        ensures { MatchOption result
            ((ts : List Terminal) → terminals_of self.entry ≢ Open ∷ ts)
            (λ r. (terminals_of self.entry ≡ Open ∷ terminals_of r.0) ×
            (terminals_of r.1 ≡ past 0 (terminals_of r.0))) }
    {
        let source = self.source;
        match source.group(self.at) {
            Some((inside, at)) => {
                let inside = TokenCursor { source, at: inside };
                Some((inside, TokenCursor { source, at }))
            }
            None => None,
        }
    }

    /// Returns an upper bound of the number of tokens.
    pub fn most(self) -> usize
        ensures { length (terminals_of self.entry) ≤ result }
    {
        self.source.most_from(self.at)
    }

    /// Returns the number of tokens. Reads each of them.
    pub fn len(self) -> usize
        ensures { result ≡ length (terminals_of self.entry) }
    {
        let mut left = self;
        let most = self.most();
        for count in 0..most {
            match left.first() {
                Some((_, rest)) => left = rest,
                None => return count,
            }
        }
        most
    }
}
