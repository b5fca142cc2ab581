//! The syntax tree of a module: types, instructions and fields, with the table of opcodes, the
//! errors of its parsers, and the types that type uses add.
#![tactic(auto)]

pub mod branches;
pub mod error;
pub mod fields;
pub mod implicit_types;
pub mod indexed_types;
pub mod instruction;
pub mod laws;
pub mod pairs;
mod slots;
pub mod table;
pub mod types;
pub mod vectors;
