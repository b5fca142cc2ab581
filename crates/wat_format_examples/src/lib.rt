//! Theorems: types of this repository read the same value from a formatted text as from the text.
#![tactic(auto)]

pub mod laws;
