//! Sorts of tokens, on which the gaps and levels of a formatted text depend.
ghost use Rattle.std.specs.Prelude.{◌≡◌, Option};
ghost use Rattle.wat_format.specs.Layout.{is_white};
ghost use Rattle.wat_format.specs.Sorts.{begins_block, ends_block, parts_block, is_mark_byte};
ghost use Rattle.wat_format.specs.Sorts.{sort_by_first, sort_of, sort_of_keyword};
ghost use Rattle.wat_format.specs.inside.Tests.{is_open, is_close, is_comment, is_mark};
ghost use Rattle.wat_format.specs.inside.Tests.{keeps_space_after_open};

use wat_lex::lexer::TokenKind;

/// Sort of a token that is not whitespace.
#[derive(Clone, Copy)]
pub enum Sort {
    /// The token `(`.
    Open,
    /// The token `)`.
    Close,
    /// A line comment.
    Comment,
    /// One of `,` `;` `[` `]` `{` `}`.
    Mark,
    /// A token that begins with `@`.
    At,
    /// A keyword that begins a flat block, which ends with `end` or `delegate`. It is not directly
    /// after a `(`.
    Begins,
    /// A keyword that ends a flat block. It is not directly after a `(`.
    Ends,
    /// A keyword that begins another part of a flat block, such as `else`. It is not directly after
    /// a `(`.
    Parts,
    /// Any other token, including block comments.
    Other,
}

impl Sort {
    /// Returns `true` for a `(`.
    pub fn is_open(self) -> bool
        ensures { result ≡ is_open self }
    {
        matches!(self, Sort::Open)
    }

    /// Returns `true` for a `)`.
    pub fn is_close(self) -> bool
        ensures { result ≡ is_close self }
    {
        matches!(self, Sort::Close)
    }

    /// Returns `true` for a line comment.
    pub fn is_comment(self) -> bool
        ensures { result ≡ is_comment self }
    {
        matches!(self, Sort::Comment)
    }

    /// Returns `true` for one of `,` `;` `[` `]` `{` `}`.
    pub fn is_mark(self) -> bool
        ensures { result ≡ is_mark self }
    {
        matches!(self, Sort::Mark)
    }

    /// Returns `true` if the formatter keeps whitespace between a `(` and a token of this sort.
    pub fn keeps_space_after_open(self) -> bool
        ensures { result ≡ keeps_space_after_open self }
    {
        matches!(self, Sort::Mark | Sort::At)
    }
}

/// Returns `true` if a token of this kind is whitespace.
pub fn is_white(kind: TokenKind) -> bool
    ensures { result ≡ is_white kind }
{
    matches!(kind, TokenKind::Whitespace)
}

/// Returns the sort of a token of this kind with the lexeme `word`. `before` is the sort of the
/// preceding token that is not whitespace, if there is one.
pub fn sort_of(before: Option<Sort>, kind: TokenKind, word: &str) -> Sort
    ensures { result ≡ sort_of before kind word.now }
{
    match kind {
        TokenKind::LParen => Sort::Open,
        TokenKind::RParen => Sort::Close,
        TokenKind::LineComment => Sort::Comment,
        TokenKind::Keyword => sort_of_keyword(before, word),
        _ => sort_by_first(word),
    }
}

/// Returns the sort of a keyword. After a `(`, it is `Other`.
fn sort_of_keyword(before: Option<Sort>, word: &str) -> Sort
    ensures { result ≡ sort_of_keyword before word.now }
{
    if let Some(Sort::Open) = before {
        return Sort::Other;
    }
    if begins_block(word) {
        Sort::Begins
    } else if ends_block(word) {
        Sort::Ends
    } else if parts_block(word) {
        Sort::Parts
    } else {
        Sort::Other
    }
}

/// Returns `true` for a keyword that begins a flat block.
fn begins_block(word: &str) -> bool
    ensures { result ≡ begins_block word.now }
{
    word == "block" || word == "loop" || word == "if" || word == "try" || word == "try_table"
}

/// Returns `true` for a keyword that ends a flat block.
fn ends_block(word: &str) -> bool
    ensures { result ≡ ends_block word.now }
{
    word == "end" || word == "delegate"
}

/// Returns `true` for a keyword that begins another part of a flat block.
fn parts_block(word: &str) -> bool
    ensures { result ≡ parts_block word.now }
{
    word == "else" || word == "catch" || word == "catch_all"
}

/// Returns the sort of a token by the first byte of its lexeme.
fn sort_by_first(word: &str) -> Sort
    ensures { result ≡ sort_by_first word.now }
{
    match word.as_bytes() {
        [b'@', ..] => Sort::At,
        [first, ..] if is_mark_byte(*first) => Sort::Mark,
        _ => Sort::Other,
    }
}

/// Returns `true` for a byte that is a token of the sort `Mark`.
fn is_mark_byte(byte: u8) -> bool
    ensures { result ≡ is_mark_byte byte }
{
    matches!(byte, b',' | b';' | b'[' | b']' | b'{' | b'}')
}
