//! The cached result of a parser's last peek.
ghost use Rattle.std.specs.Prelude.{◌≡◌, ◌<◌, Some, None};

use std::marker::Model;
use wat_lex::lexer::{Token, TokenKind};

/// The token visible at a parser's position and the position after it, if they are known.
// The fields are loaded and stored one by one: a single wide load of fields that were just stored
// separately would stall the processor. `after` is 0 if nothing is known: no token ends at position
// 0, so a move stores no separate flag.
#[derive(Drop)]
pub struct Kept {
    offset: usize,
    after: usize,
    len: u32,
    kind: TokenKind,
}

impl Model for Kept {
    ghost use Rattle.std.specs.Prelude.{Option, Some, None, if◌then◌else◌, nat_eq, ℕ};
    ghost use Rattle.wat_lex.specs.declared.lexer.kinds.Token.{Token};

    ghost Value = { Option (Token × ℕ) };

    ghost view = { λ k. if nat_eq k.after 0 then None
        else Some (record { offset = k.offset; len = k.len; kind = k.kind }, k.after) };
}

impl Kept {
    /// Creates a cache without a token.
    #[inline(always)]
    pub fn nothing() -> Kept
        ensures { result ≡ None }
    {
        Kept {
            offset: 0,
            after: 0,
            len: 0,
            kind: TokenKind::Whitespace,
        }
    }

    /// Returns the token and the position after it, if they are known.
    #[inline(always)]
    pub fn found(&self) -> Option<(Token, usize)>
        ensures { result ≡ self.now }
    {
        if self.after == 0 {
            return None;
        }
        let token = Token {
            offset: self.offset,
            len: self.len,
            kind: self.kind,
        };
        Some((token, self.after))
    }

    /// Stores a token and the position after it.
    #[inline(always)]
    pub fn keep(&mut self, token: Token, after: usize)
        requires { 0 < after }
        ensures { self.new ≡ Some (token, after) }
    {
        self.offset = token.offset;
        self.after = after;
        self.len = token.len;
        self.kind = token.kind;
    }

    /// Removes the stored token.
    #[inline(always)]
    pub fn clear(&mut self)
        ensures { self.new ≡ None }
    {
        self.after = 0;
    }
}
