//! Encodes the import section.
ghost use Rattle.std.specs.Prelude.{◌≡◌, ◌+◌, ◌++◌, OnOk};
ghost use Rattle.std.specs.List.{flat_map};
ghost use Rattle.wat_module_ast.specs.Views.{extern_of, fields_of};
ghost use Rattle.wat_module_encoder.specs.Binary as binary;
ghost use Rattle.wat_module_encoder.specs.Views.{import_of};

use crate::bytes::{put, put_section, put_sized};
use crate::globals::put_global_type;
use crate::memories::put_limits;
use crate::tables::put_table;
use crate::types::use_index;
use std::alloc::{AllocError, Global};
use wat_module_ast::fields::{ExternType, Field, Import};
use wat_module_ast::indexed_types::IndexedTypes;

/// Appends the description of an import: the byte of its index space, and its type.
fn put_extern(out: &mut Vec<u8>, types: &IndexedTypes, what: &ExternType) -> Result<(), AllocError>
    ensures { OnOk result (out.new.items ≡
        out.old.items ++ binary.extern_bytes types.now (extern_of what.now)) }
{
    match what {
        ExternType::Func(uses) => {
            out.push(0x00)?;
            put(out, use_index(types, uses)?)
        }
        ExternType::Table(of) => {
            out.push(0x01)?;
            put_table(out, *of)
        }
        ExternType::Memory(limits) => {
            out.push(0x02)?;
            put_limits(out, *limits)
        }
        ExternType::Global(of) => {
            out.push(0x03)?;
            put_global_type(out, *of)
        }
    }
}

/// Appends an import: its module name, its item name and its description.
fn put_import(
    out: &mut Vec<u8>,
    types: &IndexedTypes,
    import: &Import<'_>,
) -> Result<(), AllocError>
    ensures { OnOk result (out.new.items ≡
        out.old.items ++ binary.import_bytes types.now (import_of import.now)) }
{
    put_sized(out, import.from)?;
    put_sized(out, import.item)?;
    put_extern(out, types, &import.what)
}

/// Appends the import section: each import, inline ones included.
pub(crate) fn put_imports(
    alloc: Global,
    out: &mut Vec<u8>,
    types: &IndexedTypes,
    fields: &[Field<'_>],
) -> Result<(), AllocError>
    ensures { OnOk result (out.new.items ≡
        out.old.items ++
        binary.list_section 2 (binary.import_bytes types.now)
        (flat_map binary.import_of (fields_of fields.now))) }
{
    let mut items = Vec::new(alloc);
    let mut count = 0;
    for field in fields {
        if let Field::Import(import) = field {
            put_import(&mut items, types, import)?;
            count += 1;
        }
    }
    put_section(alloc, out, 2, count, &items)
}
