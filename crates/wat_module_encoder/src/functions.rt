//! Encodes the function section.
ghost use Rattle.std.specs.Prelude.{◌≡◌, ◌+◌, ◌++◌, OnOk};
ghost use Rattle.wat_module_ast.specs.Views.{fields_of};
ghost use Rattle.wat_module_encoder.specs.Binary as binary;

use crate::bytes::{put, put_section};
use crate::types::use_index;
use std::alloc::{AllocError, Global};
use wat_module_ast::fields::Field;
use wat_module_ast::indexed_types::IndexedTypes;

/// Appends the function section: the type index of each function that a field defines.
pub(crate) fn put_functions(
    alloc: Global,
    out: &mut Vec<u8>,
    types: &IndexedTypes,
    fields: &[Field<'_>],
) -> Result<(), AllocError>
    ensures { OnOk result (out.new.items ≡
        out.old.items ++
        binary.list_section 3 (binary.function_bytes types.now)
        (binary.functions_of (fields_of fields.now))) }
{
    let mut items = Vec::new(alloc);
    let mut count = 0;
    for field in fields {
        if let Field::Func(function) = field {
            put(&mut items, use_index(types, &function.uses)?)?;
            count += 1;
        }
    }
    put_section(alloc, out, 3, count, &items)
}
