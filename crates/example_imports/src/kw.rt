//! The keywords of import lists.
ghost use Rattle.std.specs.Prelude.{codes, false};

use wat_lexer_parser::token::{Keyword, Word};

/// The lexeme of the keyword `imports`.
#[derive(Clone, Copy, Debug)]
pub struct Imports;

impl Word for Imports {
    ghost AT = { false };

    const AT: bool = false;

    ghost text = { codes "imports" };

    fn word() -> &'static str {
        "imports"
    }

    fn display() -> &'static str {
        "`imports`"
    }
}

/// The lexeme of the keyword `entry`.
#[derive(Clone, Copy, Debug)]
pub struct Entry;

impl Word for Entry {
    ghost AT = { false };

    const AT: bool = false;

    ghost text = { codes "entry" };

    fn word() -> &'static str {
        "entry"
    }

    fn display() -> &'static str {
        "`entry`"
    }
}

/// The lexeme of the keyword `code`.
#[derive(Clone, Copy, Debug)]
pub struct Code;

impl Word for Code {
    ghost AT = { false };

    const AT: bool = false;

    ghost text = { codes "code" };

    fn word() -> &'static str {
        "code"
    }

    fn display() -> &'static str {
        "`code`"
    }
}

/// The lexeme of the keyword `pages`.
#[derive(Clone, Copy, Debug)]
pub struct Pages;

impl Word for Pages {
    ghost AT = { false };

    const AT: bool = false;

    ghost text = { codes "pages" };

    fn word() -> &'static str {
        "pages"
    }

    fn display() -> &'static str {
        "`pages`"
    }
}

/// The keyword `imports`.
pub type imports = Keyword<Imports>;
/// The keyword `entry`.
pub type entry = Keyword<Entry>;
/// The keyword `code`.
pub type code = Keyword<Code>;
/// The keyword `pages`.
pub type pages = Keyword<Pages>;
