//! Command line of `wat_tokens`: parsing, error messages, the help text and the version.
#![tactic(auto)]

pub(crate) mod arguments;
pub mod complaint;
pub mod help;
pub mod options;
