//! Parses a module from its significant tokens to its fields: types, imports, functions, tables,
//! memories, globals, exports, the start function, element segments and data segments.
//!
//! The head of `module` explains the suffixes `_at`, `_after` and `_by` in the names of the
//! parsers.
#![tactic(auto)]

mod elements;
mod exports;
mod header;
mod imports;
mod labels;
pub mod laws;
pub mod module;
mod names;
mod places;
mod segments;
mod types;
mod uses;
mod variables;
