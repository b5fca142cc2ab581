//! The keywords of sums.
ghost use Rattle.std.specs.Prelude.{codes, false};

use wat_lexer_parser::token::{Keyword, Word};

/// The lexeme of the keyword `sum`.
#[derive(Clone, Copy, Debug)]
pub struct Sum;

impl Word for Sum {
    ghost AT = { false };

    const AT: bool = false;

    ghost text = { codes "sum" };

    fn word() -> &'static str {
        "sum"
    }

    fn display() -> &'static str {
        "`sum`"
    }
}

/// The lexeme of the keyword `neg`.
#[derive(Clone, Copy, Debug)]
pub struct Neg;

impl Word for Neg {
    ghost AT = { false };

    const AT: bool = false;

    ghost text = { codes "neg" };

    fn word() -> &'static str {
        "neg"
    }

    fn display() -> &'static str {
        "`neg`"
    }
}

/// The keyword `sum`.
pub type sum = Keyword<Sum>;
/// The keyword `neg`.
pub type neg = Keyword<Neg>;
