//! Formatter for the WebAssembly text format. It keeps all tokens of a text, including comments,
//! byte for byte and in order, and replaces only the whitespace between them.
#![tactic(auto)]

mod blanks;
pub mod error;
pub mod format;
mod formatter;
mod gap;
mod group;
pub mod laws;
mod sort;
pub mod stream;
