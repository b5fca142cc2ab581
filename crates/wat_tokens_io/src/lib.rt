//! Formats tokens as lines, plain or as JSON, and provides sources of input, sinks for output, and
//! the blocks that buffer output.
#![tactic(auto)]

pub mod block;
pub mod ends;
pub mod failed;
pub mod line;
mod members;
pub mod position;
pub mod row;
