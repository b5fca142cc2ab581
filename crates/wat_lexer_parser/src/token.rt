//! Types that a parser parses and peeks at: identifiers and indices, integers, strings, keywords
//! and other words, and groups.

mod containers;
pub(crate) mod integers;
mod names;
mod parens;
mod references;
mod strings;
mod words;

pub use containers::Parens;
pub use names::NameAnnotation;
pub use parens::{LParen, RParen};
pub use references::ItemRef;
pub use wat_lex::token::{Id, Index, Span};
pub use wat_words::{Std, StdAnnotation, Word};
pub use words::{AnnotationWord, Keyword, ReservedSymbol};
