//! Tokens of a text as rows of integers, the form in which programs in C and Rust get them from
//! `wat_c`.
#![tactic(auto)]

pub mod after;
pub mod answers;
pub mod at;
pub mod counting;
pub mod fill;
pub mod laws;
pub mod links;
pub mod looks;
mod one_byte;
pub mod rows;
