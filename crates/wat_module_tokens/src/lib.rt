//! The tokens of a module, packed and decoded: significant tokens with their values in 6 bytes
//! each, and a cursor over them.
#![tactic(auto)]

pub mod stream;
pub mod token;
