//! Encodes the fields of a module in the binary format, section by section.
#![tactic(auto)]

mod bytes;
mod code;
mod customs;
mod data;
mod elements;
pub mod encode;
mod exports;
mod functions;
mod globals;
mod imports;
mod indices;
mod instructions;
mod memories;
mod names;
mod start;
mod tables;
mod types;
