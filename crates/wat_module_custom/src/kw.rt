//! The words of custom annotations.
ghost use Rattle.std.specs.Prelude.{codes, false, true};

use wat_lexer_parser::token::{AnnotationWord, Keyword, Word};

/// The lexeme of the keyword `module`.
#[derive(Clone, Copy, Debug)]
pub struct Module;

impl Word for Module {
    ghost AT = { false };

    const AT: bool = false;

    ghost text = { codes "module" };

    fn word() -> &'static str {
        "module"
    }

    fn display() -> &'static str {
        "`module`"
    }
}

/// The name of the annotation `@custom`.
#[derive(Clone, Copy, Debug)]
pub struct Custom;

impl Word for Custom {
    ghost AT = { true };

    const AT: bool = true;

    ghost text = { codes "custom" };

    fn word() -> &'static str {
        "custom"
    }

    fn display() -> &'static str {
        "`@custom`"
    }
}

/// The keyword `module`.
pub type module = Keyword<Module>;
/// The annotation `@custom`.
pub type custom = AnnotationWord<Custom>;
