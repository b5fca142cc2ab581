//! Parser framework for the WebAssembly text formats: buffers of a source text, parsers over their
//! visible tokens, and types that implement their own parsing.
//!
//! A parser skips whitespace, comments, and the groups of unregistered annotations.
//!
//! The modules of the lexer are re-exported, so that a crate that parses a format needs no other
//! dependency.
#![tactic(auto)]

pub mod annotation;
pub mod kw;
pub mod laws;
pub mod parser;
pub mod token;

pub use wat_lex::error::Error;
pub use wat_lex::{encode, gensym, lexer};
