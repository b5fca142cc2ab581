//! The commands of `wat_tokens`, generic over source and sink. They list the raw or visible tokens
//! of a WebAssembly text or the replies of a parser to calls, replace comments by spaces, format
//! the text, or compile it to the bytes of a module.
#![tactic(auto)]

pub mod outcome;
mod print;
pub mod respond;
pub mod run;

pub use wat_lex::lexer::Settings;
pub use wat_tokens_args::{complaint, help, options};
pub use wat_tokens_io::ends;
pub use wat_tokens_output::{blank, calls, fmt, json, list, named, play, printer, show};
