//! A compiler for the function types of a WebAssembly module, over the parser of the text format.
//!
//! A source is one module with function types and nothing else, such as
//! `(module (type (func (param i32) (result i64))))`. Its encoding in the binary format is a header
//! and, if it has function types, the type section.
#![tactic(auto)]

ghost use Rattle.std.specs.Prelude.{◌≡◌, ◌<◌, ◌^◌, true, false, length, IfOk, List};
ghost use Rattle.wat_lexer_parser.specs.parser.State.{Answers};
ghost use Rattle.wat_lexer_parser.specs.places.Source.{Source, IsRead};
ghost use Rattle.wat_types.specs.Binary.{Fits, module_bytes};
ghost use Rattle.wat_types.specs.Compiling.{SpellsTypes, compiled, compiled_text, plain};
ghost use Rattle.wat_types.specs.Signatures.{Signature};

mod binary;
pub mod laws;
mod text;
mod types;

use crate::text::Module;
use std::alloc::Global;
pub use types::{FuncType, ValType};
use wat_lexer_parser::Error;
use wat_lexer_parser::encode::EncodeError;
use wat_lexer_parser::parser::LazyBuffer;
use wat_lexer_parser::token::Span;

/// Compiles a source to the binary format: a header and, if it has function types, their section.
///
/// The source must be one module with function types and nothing else. `specs/Grammar` defines this
/// part of the text format.
///
/// # Errors
///
/// Returns a lexical error, or an error at the first token that does not fit, if the source does
/// not match the grammar. If the contents of the type section have more than `u32::MAX` bytes, the
/// error is `section too long` at offset 0. The call also fails if an allocation fails.
pub fn compile_types(alloc: Global, text: &str) -> Result<Vec<u8>, Error>
    requires { length text.now < 2 ^ 32 }

    // The bytes encode function types that the grammar derives for the source.
    ensures bytes { IfOk result (λ bytes. (fs : List Signature) × SpellsTypes text.now fs × Fits fs
        × (bytes.items ≡ module_bytes fs)) }

    // If the grammar derives function types, the result is their encoding or `section too long`,
    // unless an allocation fails.
    ensures spelled { (fs : List Signature) → SpellsTypes text.now fs →
        Answers true (λ bytes. bytes.items) (compiled fs) result }

    // Any other error is that of parsing the source by its reading.
    ensures refused { (s : Source) → IsRead s → s.setting ≡ plain text.now → s.track ≡ false →
        Answers true (λ bytes. bytes.items) (compiled_text s) result }

    // Every source has raw tokens, so `refused` specifies the result for every source.
    ensures some { (s : Source) × IsRead s × (s.setting ≡ plain text.now) × (s.track ≡ false) }
{
    has_tokens(text);
    laws::reading_is_spelling();
    let buffer = LazyBuffer::new(alloc, text);
    let module = buffer.parse::<Module>()?;
    match binary::module(alloc, &module.types) {
        Ok(bytes) => Ok(bytes),
        Err(EncodeError::Memory) => Err(Error::out_of_memory()),
        Err(EncodeError::TooLong) => {
            let message = String::from_str(alloc, "section too long")?;
            Err(Error::new(Span::from_offset(0), message))
        }
    }
}

/// Lemma (no effect): the source has raw tokens.
fn has_tokens(text: &str)
    ensures { (s : Source) × IsRead s × (s.setting ≡ plain text.now) × (s.track ≡ false) }
{
    wat_lex::laws::one_tiling();
}
