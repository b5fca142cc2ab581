//! Finds where the instructions of a module are written, for errors of validation.
#![tactic(auto)]

mod fields;
mod groups;
mod keywords;
pub mod laws;
pub mod places;
#[cfg(test)]
mod tests;
mod walk;
