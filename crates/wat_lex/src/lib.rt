//! The base crate of the WebAssembly text format: the lexer, the values of its tokens, lexical
//! errors, source positions, identifiers, fresh identifiers, and the binary encoding of integers
//! and lists.
#![tactic(auto)]

pub mod encode;
pub mod error;
pub mod gensym;
pub mod laws;
pub mod lexer;
pub mod token;
