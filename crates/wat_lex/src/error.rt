//! Errors of the lexer and of parsers, printed with the source line that they are about.
ghost use Rattle.std.specs.Prelude.{◌≡◌, ◌↔◌, Some, None, IsTrue, IsNone, IsSome, IsOk, IfOk, OnOk};
ghost use Rattle.std.specs.Prelude.{OnErr, IfSome, string_bytes};
ghost use Rattle.std.specs.Option.{option_copied};
ghost use Rattle.wat_lex.specs.errors.ErrorView.{cause_of};
ghost use Rattle.wat_lex.specs.errors.Errors.{IsUnlessMemory, report_in, lexical, Custom, HasText};
ghost use Rattle.wat_lex.specs.errors.Errors.{with_text, lex_error_of, offset_of, message_of};
ghost use Rattle.wat_lex.specs.errors.Errors.{excerpt_of_error};
ghost use Rattle.wat_lex.specs.errors.Errors.{printed};
ghost use Rattle.wat_lex.specs.errors.Messages.{message};
ghost use Rattle.wat_lex.specs.errors.Rendering.{rendered};

use crate::lexer::LexError;
use crate::token::Span;
use std::alloc::{AllocError, AllocFailed, Global};
use std::marker::Model;
use std::{fmt, mem};

pub(crate) mod pieces;
mod rendered;
mod shown;
mod stretches;
mod text;

pub use pieces::Piece;
pub use rendered::Rendered;
pub use shown::Shown;
pub use text::Excerpt;
use text::Text;

/// An error at a byte offset: a lexical error, a custom message, or an allocation failure.
///
/// Once it has the source text, it prints the line that it is about, with a marker under the
/// column.
#[derive(Debug, Drop)]
pub struct Error {
    /// The cause, with what is known of the source.
    kind: Kind,
}

// The space for an error is cleared for every token that is returned, so everything that a lexical
// error owns is in one box. A message without a text is not boxed, since `Error::new` must not
// fail.
#[derive(Debug, Drop)]
enum Kind {
    /// An allocation failure.
    Memory(AllocError),
    /// A custom message without a source text.
    Plain { span: Span, message: String },
    /// A lexical error or a custom message, with its source line.
    InText(Box<Located>),
}

/// A lexical error or a custom message at a position, with its source line.
#[derive(Debug, Drop)]
struct Located {
    span: Span,
    reason: Reason,
    /// The source line, and the line and column of the position.
    text: Text,
}

/// The cause of an error.
#[derive(Debug, Drop)]
enum Reason {
    Lex(LexError),
    Message(String),
}

impl Model for Error {
    ghost use Rattle.std.specs.Prelude.{Option};
    ghost use Rattle.wat_lex.specs.errors.Errors.{Report};

    ghost Value = { Option Report };

    ghost use Rattle.wat_lex.specs.errors.ErrorView.{error_view};

    ghost view = { error_view };
}

impl Error {
    /// Creates an error with a custom message at a position. It has no source text until
    /// [`set_text`](Error::set_text) attaches one. Does not allocate.
    pub fn new(span: Span, message: String) -> Error
        ensures { result ≡ Some (record {
          offset = span;
          cause = Custom (string_bytes message);
          excerpt = None;
        }) }
    {
        Error {
            kind: Kind::Plain { span, message },
        }
    }

    /// Creates the error for a lexical error of the source text `content`, of which it copies one
    /// line. Returns the out-of-memory error if an allocation fails.
    pub fn lex(alloc: Global, span: Span, content: &str, error: LexError) -> Error
        ensures report { IsUnlessMemory result (
            lexical content.now (record { offset = span; error = error })) }
        ensures rendered { IfSome result (λ r.
            printed (Some r) ≡ rendered content.now (message error) span) }
    {
        Error::in_text(alloc, span, content, Reason::Lex(error))
    }

    /// Creates an error with a custom message at a position of the source text `content`, of which
    /// it copies one line. Returns the out-of-memory error if an allocation fails.
    pub fn parse(alloc: Global, span: Span, content: &str, message: String) -> Error
        ensures report { IsUnlessMemory result (
            report_in content.now span (Custom (string_bytes message))) }
        ensures rendered { IfSome result (λ r.
            printed (Some r) ≡ rendered content.now (string_bytes message) span) }
    {
        Error::in_text(alloc, span, content, Reason::Message(message))
    }

    /// Creates the error for a cause at a position of the source text `content`, of which it copies
    /// one line. Returns the out-of-memory error if an allocation fails.
    fn in_text(alloc: Global, span: Span, content: &str, reason: Reason) -> Error
        ensures { IsUnlessMemory result (report_in content.now span (cause_of reason)) }
    {
        match Located::new(alloc, span, content, reason) {
            Ok(located) => Error {
                kind: Kind::InText(located),
            },
            Err(refused) => Error::from(refused),
        }
    }

    /// Attaches the source text, of which the error copies one line. Does nothing if the error has
    /// a text already, or is the out-of-memory error.
    ///
    /// # Errors
    ///
    /// Returns the allocation failure. The error is then unchanged.
    pub fn set_text(&mut self, alloc: Global, contents: &str) -> Result<(), AllocError>
        ensures set { OnOk result (self.new ≡ with_text contents.now self.old) }
        ensures kept { OnErr result (self.new ≡ self.old) }
        ensures free { HasText self.old → IsOk result }
    {
        let Kind::Plain { span, message } = &mut self.kind else {
            return Ok(());
        };
        let empty = Reason::Message(String::new(alloc));
        let mut located = Located::new(alloc, *span, contents, empty)?;
        // No allocation fails from here on, so the message can be moved.
        located.reason = Reason::Message(mem::replace(message, String::new(alloc)));
        self.kind = Kind::InText(located);
        Ok(())
    }

    /// Creates the out-of-memory error, for callers that have no `AllocError`. With one, `?` and
    /// [`From`] convert it.
    pub fn out_of_memory() -> Error
        ensures { result ≡ None }
    {
        Error::from(AllocError)
    }

    /// Returns `true` if this is the out-of-memory error.
    pub fn is_out_of_memory(&self) -> bool
        ensures { IsTrue result ↔ IsNone self.now }
    {
        matches!(&self.kind, Kind::Memory(_))
    }

    /// Returns the allocation failure, or `None` if this is another error.
    pub fn alloc_error(&self) -> Option<AllocError>
        ensures { IsSome result ↔ IsNone self.now }
    {
        match &self.kind {
            Kind::Memory(refused) => Some(*refused),
            Kind::Plain { .. } | Kind::InText(_) => None,
        }
    }

    /// Returns the position of the error, which is offset 0 for the out-of-memory error.
    pub fn span(&self) -> Span
        ensures { result ≡ offset_of self.now }
    {
        match &self.kind {
            Kind::Memory(_) => Span { offset: 0 },
            Kind::Plain { span, .. } => *span,
            Kind::InText(located) => located.span,
        }
    }

    /// Returns the lexical error, or `None` if this is another error.
    pub fn lex_error(&self) -> Option<&LexError>
        ensures { option_copied result ≡ lex_error_of self.now }
    {
        let Kind::InText(located) = &self.kind else {
            return None;
        };
        match &located.reason {
            Reason::Lex(error) => Some(error),
            Reason::Message(_) => None,
        }
    }

    /// Returns the message, without the position and the source line.
    ///
    /// # Errors
    ///
    /// Returns the allocation failure if the message cannot be copied.
    pub fn message(&self, alloc: Global) -> Result<String, AllocError>
        ensures { IfOk result (λ text. string_bytes text ≡ message_of self.now) }
    {
        match &self.kind {
            Kind::Memory(_) => String::from_str(alloc, "out of memory"),
            Kind::Plain { message, .. } => message.clone(),
            Kind::InText(located) => format!(in alloc; "{}", located.reason),
        }
    }

    /// Returns the source line of the error, or `None` if it has no source text. Does not allocate.
    pub fn excerpt(&self) -> Option<Excerpt<'_>>
        ensures { result ≡ excerpt_of_error self.now }
    {
        match &self.kind {
            Kind::Memory(_) | Kind::Plain { .. } => None,
            Kind::InText(located) => Some(located.text.excerpt()),
        }
    }
}

/// The message of an error, without the position and the source line.
#[derive(Clone, Copy)]
pub struct Message<'a>(pub &'a Error);

impl Located {
    ghost use Rattle.wat_lex.specs.errors.ErrorView.{report_of};

    /// Copies the line of `content` that contains the position, and puts it into a box with the
    /// cause.
    fn new(
        alloc: Global,
        span: Span,
        content: &str,
        reason: Reason,
    ) -> Result<Box<Located>, AllocError>
        ensures { IfOk result (λ located.
            report_of located.value ≡ report_in content.now span (cause_of reason)) }
    {
        let text = Text::new(alloc, content, span)?;
        Ok(Box::new(alloc, Located { span, reason, text })?)
    }
}

impl From<AllocError> for Error {
    ghost from_gives = { λ _ e. e ≡ None };

    /// Converts an allocation failure to the out-of-memory error.
    fn from(refused: AllocError) -> Error {
        Error {
            kind: Kind::Memory(refused),
        }
    }
}

impl<T: Drop> From<AllocFailed<T>> for Error {
    ghost from_gives = { λ _ e. e ≡ None };

    /// Converts an allocation failure to the out-of-memory error, and drops the value.
    fn from(failed: AllocFailed<T>) -> Error {
        Error::from(AllocError::from(failed))
    }
}

impl fmt::Display for Error {
    ghost use Rattle.std.specs.Prelude.{Some};
    ghost use Rattle.wat_lex.specs.errors.Errors.{printed};

    ghost output = { λ e. Some (printed e) };

    fn fmt<W: fmt::Write>(&self, f: &mut fmt::Formatter<W>) -> fmt::Result {
        match &self.kind {
            Kind::Memory(_) => write!(f, "out of memory"),
            Kind::Plain { span, message } => write!(f, "{message} at byte offset {}", span.offset),
            Kind::InText(located) => write!(f, "{}{}", located.reason, located.text),
        }
    }
}

impl fmt::Display for Message<'_> {
    ghost use Rattle.std.specs.Prelude.{Some};
    ghost use Rattle.wat_lex.specs.errors.Errors.{message_of};

    ghost output = { λ m. Some (message_of m.0.now) };

    fn fmt<W: fmt::Write>(&self, f: &mut fmt::Formatter<W>) -> fmt::Result {
        let error = self.0;
        match &error.kind {
            Kind::Memory(_) => write!(f, "out of memory"),
            Kind::Plain { message, .. } => write!(f, "{message}"),
            Kind::InText(located) => write!(f, "{}", located.reason),
        }
    }
}

impl fmt::Display for Reason {
    ghost use Rattle.std.specs.Prelude.{Some};
    ghost use Rattle.wat_lex.specs.errors.Errors.{cause_text};
    ghost use Rattle.wat_lex.specs.errors.ErrorView.{cause_of};

    ghost output = { λ r. Some (cause_text (cause_of r)) };

    fn fmt<W: fmt::Write>(&self, f: &mut fmt::Formatter<W>) -> fmt::Result {
        match self {
            Reason::Lex(error) => write!(f, "{error}"),
            Reason::Message(message) => write!(f, "{message}"),
        }
    }
}
