//! Validation of modules (WebAssembly 2.0, chapter 3).
#![tactic(auto)]

pub mod accepting;
pub mod applying;
pub mod blocks;
pub mod body;
pub mod code;
pub mod condition;
pub mod constants;
pub mod context;
pub mod control;
pub mod laws;
pub mod locals;
pub mod messages;
pub mod module;
pub mod operands;
pub mod plain;
pub mod references;
pub mod signature;
pub mod situation;
pub mod table;
pub mod typing;
pub mod untyped;
pub mod validity;
pub mod variables;
pub mod wanted;
