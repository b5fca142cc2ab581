//! Reads a source, and writes the outputs of the program except modules: the lists of tokens, a
//! parser's replies, the text with its comments blanked, and the formatted text.
//!
//! Also parses the arguments that name calls of a parser, and prints errors with a file name.
#![tactic(auto)]

pub mod blank;
pub mod calls;
pub mod fmt;
pub mod input;
pub mod json;
pub mod list;
pub mod named;
pub mod play;
pub mod printer;
pub mod show;
