//! Encodes the global section and the types of globals.
ghost use Rattle.std.specs.Prelude.{◌≡◌, ◌+◌, ◌++◌, OnOk};
ghost use Rattle.std.specs.List.{flat_map};
ghost use Rattle.wat_module_ast.specs.Views.{fields_of};
ghost use Rattle.wat_module_encoder.specs.Binary as binary;

use crate::bytes::put_section;
use crate::instructions::put_instructions;
use std::alloc::{AllocError, Global};
use wat_module_ast::fields::{Field, GlobalType};
use wat_module_ast::indexed_types::IndexedTypes;
use wat_module_ast::instruction::Instruction;
use wat_module_ast::types::type_byte;

/// Returns the mutability byte of a global: `0x01` if it is mutable, otherwise `0x00`.
fn mutability_byte(is_mutable: bool) -> u8
    ensures { result ≡ binary.mutability_byte is_mutable }
{
    if is_mutable { 0x01 } else { 0x00 }
}

/// Appends the type of a global: its value type and its mutability.
pub(crate) fn put_global_type(out: &mut Vec<u8>, of: GlobalType) -> Result<(), AllocError>
    ensures { OnOk result (out.new.items ≡ out.old.items ++ binary.global_type_bytes of) }
{
    out.push(type_byte(of.value))?;
    out.push(mutability_byte(of.is_mutable))?;
    Ok(())
}

/// Appends a global: its type, and the expression of its initial value.
fn put_global(
    out: &mut Vec<u8>,
    types: &IndexedTypes,
    of: GlobalType,
    first: &[Instruction],
) -> Result<(), AllocError>
    ensures { OnOk result (out.new.items ≡
        out.old.items ++ binary.global_bytes types.now (of, first.now)) }
{
    put_global_type(out, of)?;
    put_instructions(out, types, first)?;
    out.push(0x0B)?;
    Ok(())
}

/// Appends the global section: each global that a field defines.
pub(crate) fn put_globals(
    alloc: Global,
    out: &mut Vec<u8>,
    types: &IndexedTypes,
    fields: &[Field<'_>],
) -> Result<(), AllocError>
    ensures { OnOk result (out.new.items ≡
        out.old.items ++
        binary.list_section 6 (binary.global_bytes types.now)
        (flat_map binary.global_of (fields_of fields.now))) }
{
    let mut items = Vec::new(alloc);
    let mut count = 0;
    for field in fields {
        if let Field::Global(global) = field {
            put_global(&mut items, types, global.of, &global.first)?;
            count += 1;
        }
    }
    put_section(alloc, out, 6, count, &items)
}
