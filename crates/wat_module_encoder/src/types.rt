//! Encodes the type section, and finds the type indices of type uses.
ghost use Rattle.std.specs.Prelude.{◌≡◌, ◌<◌, ◌+◌, ◌++◌, ◌^◌, OnOk, IfOk, map};
ghost use Rattle.wat_module_ast.specs.Types.{index_or_zero, type_byte};
ghost use Rattle.wat_module_ast.specs.TypeViews.{type_of, use_of};
ghost use Rattle.wat_lex.specs.binary.Encoding.{text_encoding};
ghost use Rattle.wat_module_encoder.specs.Binary as binary;

use crate::bytes::{put, put_section};
use std::alloc::{AllocError, Global};
use wat_module_ast::indexed_types::IndexedTypes;
use wat_module_ast::instruction::ValueType;
use wat_module_ast::types::{FunctionType, TypeUse, type_byte};

/// Appends the number of value types, and then the byte of each.
pub(crate) fn put_values(out: &mut Vec<u8>, types: &[ValueType]) -> Result<(), AllocError>
    ensures { OnOk result (out.new.items ≡
        out.old.items ++ text_encoding (map type_byte types.now)) }
{
    put(out, types.len())?;
    for of in types {
        out.push(type_byte(*of))?;
    }
    Ok(())
}

/// Returns the type index of a type use: its own, or, if it has none, the least index of its type
/// in `types`, or the length of `types` if the type is not there.
pub(crate) fn use_index(types: &IndexedTypes, uses: &TypeUse) -> Result<usize, AllocError>
    ensures is { IfOk result (λ n. n ≡ binary.use_index types.now (use_of uses.now)) }
    ensures small { index_or_zero (use_of uses.now) < 2 ^ 63 → IfOk result (λ n. n < 2 ^ 63) }
{
    match uses {
        TypeUse::Index(index) => Ok(*index),
        TypeUse::Inline(of) => types.index(of),
    }
}

/// Appends the type section: each of `types`, in the order of their indices.
pub(crate) fn put_types(
    alloc: Global,
    out: &mut Vec<u8>,
    types: &[FunctionType],
) -> Result<(), AllocError>
    ensures { OnOk result (out.new.items ≡
        out.old.items ++ binary.list_section 1 binary.type_bytes (map type_of types.now)) }
{
    let mut items = Vec::new(alloc);
    for of in types {
        put_type(&mut items, of)?;
    }
    put_section(alloc, out, 1, types.len(), &items)
}

/// Appends a function type: `0x60`, its parameters and its results.
#[tactic(auto, unfolding(crate::specs::Binary::type_bytes))]
fn put_type(out: &mut Vec<u8>, of: &FunctionType) -> Result<(), AllocError>
    ensures { OnOk result (out.new.items ≡ out.old.items ++ binary.type_bytes (type_of of.now)) }
{
    out.push(0x60)?;
    put_values(out, &of.params)?;
    put_values(out, &of.results)
}
