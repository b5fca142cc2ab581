//! A parser of instructions, from significant tokens to instructions in the order of the binary
//! format. Plain instructions come from a table; `block`, `loop` and `if` bind labels; the operands
//! of a folded instruction come before it.
#![tactic(auto)]

pub mod faults;
mod floats;
mod frame;
pub mod laws;
pub mod machine;
mod memory;
pub mod names;
mod open_labels;
pub mod reading;
mod table_arguments;
mod uses;
mod vector_arguments;
