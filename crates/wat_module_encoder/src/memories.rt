//! Encodes the memory section and limits.
ghost use Rattle.std.specs.Prelude.{◌≡◌, ◌+◌, ◌++◌, OnOk};
ghost use Rattle.wat_module_ast.specs.Views.{fields_of};
ghost use Rattle.wat_module_encoder.specs.Binary as binary;

use crate::bytes::{put, put_section};
use std::alloc::{AllocError, Global};
use wat_module_ast::fields::{Field, Limits};

/// Appends limits: a flag, the minimum, and the maximum if the flag is `0x01`.
pub(crate) fn put_limits(out: &mut Vec<u8>, limits: Limits) -> Result<(), AllocError>
    ensures { OnOk result (out.new.items ≡ out.old.items ++ binary.limits_bytes limits) }
{
    match limits.max {
        Some(max) => {
            out.push(0x01)?;
            put(out, limits.min as usize)?;
            put(out, max as usize)
        }
        None => {
            out.push(0x00)?;
            put(out, limits.min as usize)
        }
    }
}

/// Appends the memory section: the limits of each memory that a field defines.
pub(crate) fn put_memories(
    alloc: Global,
    out: &mut Vec<u8>,
    fields: &[Field<'_>],
) -> Result<(), AllocError>
    ensures { OnOk result (out.new.items ≡
        out.old.items ++ binary.memory_section (fields_of fields.now)) }
{
    let mut items = Vec::new(alloc);
    let mut count = 0;
    for field in fields {
        if let Field::Memory(memory) = field {
            put_limits(&mut items, memory.limits)?;
            count += 1;
        }
    }
    put_section(alloc, out, 5, count, &items)
}
