//! Validation of a module (WebAssembly 2.0, 3.4.10).
ghost use Rattle.std.specs.Prelude.{◌≡◌, ◌↔◌, IfOk, MatchOption, None};
ghost use Rattle.wat_module_ast.specs.Views.{fields_of};
ghost use Rattle.wat_valid.specs.ContextViews.{context_of};
ghost use Rattle.wat_valid.specs.FirstErrors as errors;
ghost use Rattle.wat_valid.specs.Modules.{ModuleIsValid};

use crate::code::{Cause, Invalid, check_codes};
use crate::context::{Context, ModuleContext};
use crate::module::check_headers;
use std::alloc::{AllocError, Global};
use wat_module_ast::fields::Field;
use wat_module_ast::implicit_types::types_of;

/// Checks fields in the context of their module; `constants` is that of initial values, offsets and
/// elements.
fn check_in(
    alloc: Global,
    context: &Context<'_>,
    constants: &Context<'_>,
    fields: &[Field<'_>],
) -> Result<Option<Invalid>, AllocError>
    ensures { IfOk result (λ found. MatchOption found
        (errors.PartsAreValid (context_of context.now) (context_of constants.now)
        (fields_of fields.now))
        (λ v. errors.FirstFailure (context_of context.now) (context_of constants.now)
        (fields_of fields.now) v.field v.cause)) }
{
    match check_headers(alloc, context, fields)? {
        None => check_codes(alloc, context, constants, fields),
        Some(violation) => {
            let before = &fields[..violation.field];
            match check_codes(alloc, context, constants, before)? {
                Some(invalid) => Ok(Some(invalid)),
                None => Ok(Some(Invalid {
                    field: violation.field,
                    cause: Cause::Header(violation.reason),
                })),
            }
        }
    }
}

/// Validates a module by its fields. Returns `None` if it is valid, and otherwise the first field
/// that is not valid, with the reason.
pub fn validate(alloc: Global, fields: &[Field<'_>]) -> Result<Option<Invalid>, AllocError>
    ensures valid { IfOk result (λ found. (found ≡ None) ↔ ModuleIsValid (fields_of fields.now)) }
    ensures first { IfOk result (λ found. MatchOption found
        (ModuleIsValid (fields_of fields.now))
        (λ v. errors.FirstInvalid (fields_of fields.now) v.field v.cause)) }
{
    let types = types_of(alloc, fields)?;
    let context = ModuleContext::new(alloc, types.as_slice(), fields)?;
    check_in(alloc, &context.full(), &context.initial(), fields)
}

/// Theorem (no effect): at most one field of a module is the first that violates a condition, and
/// it has one reason.
pub fn first_violation_is_one()
    ensures { errors.FirstInvalidIsOne }
{}

/// Theorem (no effect): a module is not valid if one of its fields is the first that violates a
/// condition.
pub fn violations_exclude_validity()
    ensures { errors.FirstInvalidIsNotValid }
{}
