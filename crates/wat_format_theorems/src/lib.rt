//! Theorems: a formatted text reads as the text does: a parser returns the same visible tokens for
//! both, and the grammar derives both with the same function types.
#![tactic(auto)]

pub mod laws;
