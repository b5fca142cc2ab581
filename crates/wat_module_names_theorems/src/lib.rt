//! Theorems about the definitions of the name section: the labels of structured control
//! instructions, name maps, and repeated identifiers.
#![tactic(auto)]

pub mod laws;
