//! Errors that a peek finds instead of a token.
use wat_lex::lexer::LexError;

/// The kind of an error that a peek finds.
#[derive(Clone, Copy, Debug, PartialEq, Eq)]
pub enum FaultKind {
    /// A lexical error of the text, or an invalid annotation name.
    Lex(LexError),
    /// The end of the text inside the group of an unregistered annotation.
    Unclosed,
}

/// An error that a peek finds, with its offset.
#[derive(Clone, Copy, Debug, PartialEq, Eq)]
pub struct Fault {
    /// Offset in bytes from the start of the text.
    pub offset: usize,
    /// Kind of the error.
    pub kind: FaultKind,
}

/// The effect of a raw token on a peek.
#[derive(Clone, Copy)]
pub enum Step {
    /// A token that is never visible.
    Pass,
    /// A visible token.
    Take,
    /// The `(` of `(@` as the last raw token: the peek finds the end of the text or its lexical
    /// error.
    Finish,
    /// An error that the peek returns.
    Refuse(Fault),
    /// The `(` of a group that the peek skips.
    Skip,
}
