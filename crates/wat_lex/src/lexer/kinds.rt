//! Tokens and their kinds.
ghost use Rattle.std.specs.Prelude.{◌≡◌, ◌<◌, ◌^◌};
ghost use Rattle.wat_lex.specs.grammar.Numbers.{sign_token};
ghost use Rattle.wat_lex.specs.tokens.Blanks.{is_blank, is_marked};
ghost use Rattle.wat_lex.specs.values.IntegerFacts.{kind_sign, kind_has_underscores, kind_hex};
ghost use Rattle.wat_lex.specs.values.KindNumbers.{kind_number};

/// A token of a text.
// The largest field is first, so that a token has 16 bytes.
#[derive(Clone, Copy, Debug, PartialEq)]
pub struct Token {
    /// Byte offset of the token in the text.
    pub offset: usize,
    /// Length in bytes.
    pub len: u32,
    /// Kind of the token.
    pub kind: TokenKind,
}

impl Token {
    /// Returns `true` if the byte after the first byte of the token is `@`, as in `(@`.
    #[inline]
    pub fn is_marked(&self, s: &str) -> bool
        requires { self.now.offset < 2 ^ 32 }
        ensures { result ≡ is_marked s.now self.now }
    {
        match s.as_bytes().get(self.offset + 1) {
            Some(byte) => *byte == b'@',
            None => false,
        }
    }
}

/// Kind of a token. Whitespace and comments are tokens too.
#[derive(Clone, Copy, Debug, PartialEq)]
pub enum TokenKind {
    /// A line comment: `;;` and the rest of the line, without the line end.
    LineComment,
    /// A block comment: `(;` up to the matching `;)`. Block comments nest.
    BlockComment,
    /// A run of spaces, tabs and line ends.
    Whitespace,
    /// `(`
    LParen,
    /// `)`
    RParen,
    /// A string in quotes.
    String,
    /// An identifier: `$` and a name, as idchars or as a string. Also `$` alone, which is an error
    /// when its name is read.
    Id,
    /// A keyword: idchars that begin with `a` to `z` and are not a number.
    Keyword,
    /// An annotation: `@` and a name, as idchars or as a string. Also `@` alone, which is an error
    /// when its name is read.
    Annotation,
    /// A reserved token: any other run of idchars and strings, and each of `,` `;` `[` `]` `{` `}`.
    Reserved,
    /// An integer.
    Integer(IntegerKind),
    /// A floating-point number.
    Float(FloatKind),
}

impl TokenKind {
    /// Returns the kind as an integer from 1 to 15, for programs that store tokens as integers. It
    /// is 11 for an integer and 12 to 15 for the kinds of floats. The others are numbered from 1 in
    /// the order of the variants.
    #[inline]
    pub fn number(self) -> u8
        ensures { result ≡ kind_number self }
    {
        match self {
            TokenKind::LineComment => 1,
            TokenKind::BlockComment => 2,
            TokenKind::Whitespace => 3,
            TokenKind::LParen => 4,
            TokenKind::RParen => 5,
            TokenKind::String => 6,
            TokenKind::Id => 7,
            TokenKind::Keyword => 8,
            TokenKind::Annotation => 9,
            TokenKind::Reserved => 10,
            TokenKind::Integer(_) => 11,
            TokenKind::Float(FloatKind::Inf { .. }) => 12,
            TokenKind::Float(FloatKind::Nan { .. }) => 13,
            TokenKind::Float(FloatKind::NanVal { .. }) => 14,
            TokenKind::Float(FloatKind::Normal { .. }) => 15,
        }
    }

    /// Returns `true` for whitespace and comments.
    #[inline]
    pub fn is_blank(self) -> bool
        ensures { result ≡ is_blank self }
    {
        match self {
            TokenKind::Whitespace | TokenKind::LineComment | TokenKind::BlockComment => true,
            _ => false,
        }
    }
}

/// What the lexer knows about an integer.
#[derive(Clone, Copy, Debug, PartialEq)]
pub struct IntegerKind {
    pub(crate) sign: Sign,
    pub(crate) has_underscores: bool,
    pub(crate) hex: bool,
}

impl IntegerKind {
    /// Returns the sign that the integer begins with, if any.
    pub fn sign(self) -> Option<SignToken>
        ensures { result ≡ kind_sign self }
    {
        self.sign.token()
    }

    /// Returns `true` if there are underscores between the digits.
    pub fn has_underscores(self) -> bool
        ensures { result ≡ kind_has_underscores self }
    {
        self.has_underscores
    }

    /// Returns `true` if the digits follow `0x`.
    pub fn hex(self) -> bool
        ensures { result ≡ kind_hex self }
    {
        self.hex
    }
}

/// Kind of a floating-point number, with what the lexer knows about it.
#[derive(Clone, Copy, Debug, PartialEq)]
pub enum FloatKind {
    /// `inf`, with or without a sign.
    Inf {
        /// `true` if the number begins with `-`.
        negative: bool,
    },
    /// `nan`, with or without a sign.
    Nan {
        /// `true` if the number begins with `-`.
        negative: bool,
    },
    /// `nan:0x` and a payload, with or without a sign.
    NanVal {
        /// `true` if the number begins with `-`.
        negative: bool,
        /// `true` if there are underscores between the digits.
        has_underscores: bool,
    },
    /// Digits with a dot, an exponent, or both.
    Normal {
        /// `true` if there are underscores between the digits.
        has_underscores: bool,
        /// `true` if the digits follow `0x`.
        hex: bool,
    },
}

/// The sign that a number begins with.
#[derive(Clone, Copy, Debug, PartialEq, Eq)]
pub enum SignToken {
    /// `+`
    Plus,
    /// `-`
    Minus,
}

/// The sign that a number begins with, or none, in one byte. An `Option` would add a tag to each
/// token, which is kept small.
#[derive(Clone, Copy, Debug, PartialEq)]
pub(crate) enum Sign {
    None,
    Plus,
    Minus,
}

impl Sign {
    /// Returns the sign, or `None` for a number without a sign.
    pub(crate) fn token(self) -> Option<SignToken>
        ensures { result ≡ sign_token self }
    {
        match self {
            Sign::None => None,
            Sign::Plus => Some(SignToken::Plus),
            Sign::Minus => Some(SignToken::Minus),
        }
    }
}

/// A token at the start of a text, without its offset.
#[derive(Clone, Copy)]
pub struct Lexeme {
    pub kind: TokenKind,
    /// Length in bytes.
    pub len: usize,
}

/// Result of scanning the start of a text: a token, the end of the text, or a lexical error.
#[derive(Clone, Copy)]
pub enum Found {
    /// A token.
    Lexeme(Lexeme),
    /// The end of the text.
    End,
    /// A lexical error.
    Fault,
}

/// Kind of a run at the start of a text, with all runs of idchars alone in one variant.
#[derive(Clone, Copy, PartialEq, Eq)]
pub enum Shape {
    String,
    Id,
    Annotation,
    Reserved,
    /// Idchars alone: a number or any other kind.
    Word,
    /// A lexical error.
    Fault,
}

/// The number of bytes that are examined in one step.
#[derive(Clone, Copy, PartialEq, Eq)]
pub enum Stride {
    /// One byte, which is faster on targets without vector instructions.
    Byte,
    /// A block of 16 bytes.
    Block,
}

/// The shape and the length in bytes of a run at the start of a text. At a lexical error, the
/// length is 0.
#[derive(Clone, Copy)]
pub struct Outline {
    pub shape: Shape,
    pub len: usize,
}
