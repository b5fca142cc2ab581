//! Encodes function types in the binary format.
ghost use Rattle.std.specs.Prelude.{◌≡◌, ◌≤◌, ◌^◌, IfOk, IsErrOf, length};
ghost use Rattle.wat_types.specs.Binary.{Fits, content, module_bytes};
ghost use Rattle.wat_types.specs.Signatures.{signatures};

use crate::types::{FuncType, ValType};
use std::alloc::Global;
use wat_lexer_parser::encode::{Encode, EncodeError, encode_slice};

/// The magic number and the version of the format.
const HEADER: [u8; 8] = [0x00, 0x61, 0x73, 0x6D, 0x01, 0x00, 0x00, 0x00];
/// The id of the type section.
const TYPE_SECTION: u8 = 0x01;
/// The first byte of a function type.
const FUNCTION: u8 = 0x60;

/// Encodes a number type as one byte.
impl Encode for ValType {
    ghost use Rattle.wat_types.specs.Binary.{val_bytes};

    ghost encoding = { val_bytes };

    ghost fits = { λ _. Unit {0} };

    fn fits(&self) -> bool {
        true
    }

    fn encode(&self, e: &mut Vec<u8>) -> Result<(), EncodeError> {
        let byte: u8 = match self {
            ValType::I32 => 0x7F,
            ValType::I64 => 0x7E,
            ValType::F32 => 0x7D,
            ValType::F64 => 0x7C,
        };
        byte.encode(e)
    }
}

/// Encodes a function type as a byte and the vectors of its parameters and results.
impl Encode for FuncType {
    ghost use Rattle.wat_types.specs.Binary.{FuncFits, func_bytes};
    ghost use Rattle.wat_types.specs.Signatures.{signature};

    ghost encoding = { λ f. func_bytes (signature f) };

    ghost fits = { λ f. FuncFits (signature f) };

    fn fits(&self) -> bool {
        self.params.fits() && self.results.fits()
    }

    #[tactic(auto, unfolding(crate::specs::Binary::func_bytes))]
    fn encode(&self, e: &mut Vec<u8>) -> Result<(), EncodeError> {
        (FUNCTION, &self.params, &self.results).encode(e)
    }
}

/// Encodes a module with these function types and nothing else. Without function types, the module
/// is a header alone.
///
/// # Errors
///
/// Returns `TooLong` only if the contents of the type section have more than `u32::MAX` bytes, and
/// `Memory` if an allocation fails.
pub(crate) fn module(alloc: Global, types: &[FuncType]) -> Result<Vec<u8>, EncodeError>
    ensures bytes { IfOk result (λ bytes. bytes.items ≡ module_bytes (signatures types.now)) }
    ensures fitting { IfOk result (λ _. Fits (signatures types.now)) }
    ensures too_long { IsErrOf result EncodeError.TooLong →
        2 ^ 32 ≤ length (content (signatures types.now)) }
{
    let mut bytes = Vec::new(alloc);
    bytes.extend_from_slice(&HEADER)?;
    if types.is_empty() {
        return Ok(bytes);
    }
    let mut content = Vec::new(alloc);
    encode_slice(types, &mut content)?;
    bytes.push(TYPE_SECTION)?;
    content.len().encode(&mut bytes)?;
    bytes.extend_from_slice(&content)?;
    Ok(bytes)
}
