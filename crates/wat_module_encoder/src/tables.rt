//! Encodes the table section and the types of tables.
ghost use Rattle.std.specs.Prelude.{◌≡◌, ◌+◌, ◌++◌, OnOk};
ghost use Rattle.wat_module_ast.specs.Views.{fields_of};
ghost use Rattle.wat_module_encoder.specs.Binary as binary;

use crate::bytes::put_section;
use crate::memories::put_limits;
use std::alloc::{AllocError, Global};
use wat_module_ast::fields::{Field, TableType};
use wat_module_ast::types::reference_byte;

/// Appends the type of a table: its element type and its limits.
pub(crate) fn put_table(out: &mut Vec<u8>, of: TableType) -> Result<(), AllocError>
    ensures { OnOk result (out.new.items ≡ out.old.items ++ binary.table_bytes of) }
{
    out.push(reference_byte(of.element))?;
    put_limits(out, of.limits)
}

/// Appends the table section: the type of each table that a field defines.
pub(crate) fn put_tables(
    alloc: Global,
    out: &mut Vec<u8>,
    fields: &[Field<'_>],
) -> Result<(), AllocError>
    ensures { OnOk result (out.new.items ≡
        out.old.items ++ binary.table_section (fields_of fields.now)) }
{
    let mut items = Vec::new(alloc);
    let mut count = 0;
    for field in fields {
        if let Field::Table(table) = field {
            put_table(&mut items, table.of)?;
            count += 1;
        }
    }
    put_section(alloc, out, 4, count, &items)
}
