//! Validation of the instructions of fields (WebAssembly 2.0, 3.3 and 3.4).
ghost use Rattle.std.specs.Prelude.{IfOk, IsFalse, IsTrue, MatchOption, map};
ghost use Rattle.std.specs.List.{AllByRecursion};
ghost use Rattle.wat_module_ast.specs.Fields.{Func, ref_func};
ghost use Rattle.wat_module_ast.specs.Views.{expression_of, expressions_of, field_of, fields_of, function_of, inline_elements, mode_of, target_of};
ghost use Rattle.wat_valid.specs.ContextViews.{context_of};
ghost use Rattle.wat_valid.specs.FirstErrors as errors;
ghost use Rattle.wat_valid.specs.Headers as headers;
ghost use Rattle.wat_valid.specs.Instructions.{Constant};
ghost use Rattle.wat_valid.specs.Modules as validation;

use crate::accepting::check_body;
use crate::body::body_of;
use crate::constants::{is_constant, is_constant_function};
use crate::context::Context;
use crate::module::Reason;
use std::alloc::{AllocError, Global};
use wat_module_ast::fields::{Elem, ElemMode, Elements, Field, Function, Target};
use wat_module_ast::instruction::{Instruction, ReferenceType, ValueType};

/// The reason for which a field of a module is not valid.
#[derive(Clone, Copy)]
pub enum Cause {
    /// It violates a condition other than those on its instructions.
    Header(Reason),
    /// The body of the function is not valid. The index is that of the first instruction that no
    /// valid body has after those before it, or the number of instructions if these begin a valid
    /// body.
    Body(usize),
    /// The initial value of the global is not a constant expression of its type.
    InitialValue,
    /// The offset of the segment is not a constant expression of type `i32`.
    Offset,
    /// The element with this index is not a constant expression of the type of its segment.
    Element(usize),
}

/// Checks the body of a function, if its type exists.
fn check_function(
    alloc: Global,
    context: &Context<'_>,
    function: &Function<'_>,
) -> Result<Option<Cause>, AllocError>
    ensures { IfOk result (λ found. MatchOption found
        (headers.CodeIsValid (context_of context.now) (context_of context.now)
        (Func (function_of function.now)))
        (λ c. errors.BodyFails (context_of context.now) (function_of function.now) c)) }
{
    let Some(body) = body_of(alloc, context, function)? else {
        return Ok(None);
    };
    match check_body(alloc, &body, &function.body)? {
        Some(at) => Ok(Some(Cause::Body(at))),
        None => Ok(None),
    }
}

/// Returns the index of the first of these functions that is not an element of a segment with this
/// type.
fn other_function(context: &Context<'_>, functions: &[usize], of: ReferenceType) -> Option<usize>
    ensures { MatchOption result
        (validation.ElementsAreValid (context_of context.now) of (map ref_func functions.now))
        (λ i. errors.ElementErrorAt (context_of context.now) of (map ref_func functions.now) i) }
{
    for (i, function) in functions.iter().enumerate() {
        if !is_constant_function(context, *function, of) {
            return Some(i);
        }
    }
    None
}

/// Returns the index of the first of these expressions that is not a constant expression of this
/// type.
fn other_expression(
    context: &Context<'_>,
    expressions: &[Vec<Instruction>],
    of: ReferenceType,
) -> Option<usize>
    ensures { MatchOption result
        (validation.ElementsAreValid (context_of context.now) of
        (map expression_of expressions.now))
        (λ i. errors.ElementErrorAt (context_of context.now) of
        (map expression_of expressions.now) i) }
{
    for (i, expression) in expressions.iter().enumerate() {
        if !is_constant(context, expression, ValueType::Reference(of)) {
            return Some(i);
        }
    }
    None
}

/// Checks the elements of a segment with this type.
fn check_elements(context: &Context<'_>, elements: &Elements, of: ReferenceType) -> Option<Cause>
    ensures { MatchOption result
        (validation.ElementsAreValid (context_of context.now) of (expressions_of elements.now))
        (λ c. errors.ElementsFail (context_of context.now) of (expressions_of elements.now) c) }
{
    let other = match elements {
        Elements::Functions(functions) => other_function(context, functions, of),
        Elements::Expressions(expressions) => other_expression(context, expressions, of),
    };
    match other {
        Some(at) => Some(Cause::Element(at)),
        None => None,
    }
}

/// Checks the inline elements of a table, if it has any.
fn check_inline(
    context: &Context<'_>,
    elements: &Option<Elements>,
    of: ReferenceType,
) -> Option<Cause>
    ensures { MatchOption result
        (validation.InlineElementsAreValid (context_of context.now) of
        (inline_elements elements.now))
        (λ c. errors.InlineElementsFail (context_of context.now) of
        (inline_elements elements.now) c) }
{
    match elements {
        Some(elements) => check_elements(context, elements, of),
        None => None,
    }
}

/// Checks the initial value of a global.
fn check_initial_value(context: &Context<'_>, first: &[Instruction], of: ValueType) -> Option<Cause>
    ensures { MatchOption result
        (Constant (context_of context.now) first.now of)
        (λ c. errors.InitialValueFails (context_of context.now) of first.now c) }
{
    if is_constant(context, first, of) {
        None
    } else {
        Some(Cause::InitialValue)
    }
}

/// Checks the offset of a data segment, if it is active.
fn check_offset(context: &Context<'_>, target: &Option<Target>) -> Option<Cause>
    ensures { MatchOption result
        (headers.OffsetIsValid (context_of context.now) (target_of target.now))
        (λ c. errors.OffsetFails (context_of context.now) (target_of target.now) c) }
{
    match target {
        Some(target) if !is_constant(context, &target.offset, ValueType::I32) => {
            Some(Cause::Offset)
        }
        _ => None,
    }
}

/// Checks the offset of an element segment, if it is active. Returns `true` if it is valid.
fn has_valid_offset(context: &Context<'_>, mode: &ElemMode) -> bool
    ensures valid { IsTrue result → headers.ModeOffsetIsValid (context_of context.now)
        (mode_of mode.now) }
    ensures invalid { IsFalse result → errors.ModeOffsetFails (context_of context.now)
        (mode_of mode.now) }
{
    match mode {
        ElemMode::Active(target) => is_constant(context, &target.offset, ValueType::I32),
        ElemMode::Passive | ElemMode::Declarative => true,
    }
}

/// Checks the instructions of an element segment.
fn check_segment(context: &Context<'_>, elem: &Elem<'_>) -> Option<Cause>
    ensures { MatchOption result
        (headers.ModeOffsetIsValid (context_of context.now) (mode_of elem.now.mode) ×
        validation.ElementsAreValid (context_of context.now) elem.now.of
        (expressions_of elem.now.elements))
        (λ c. errors.SegmentFails (context_of context.now) (mode_of elem.now.mode) elem.now.of
        (expressions_of elem.now.elements) c) }
{
    if !has_valid_offset(context, &elem.mode) {
        return Some(Cause::Offset);
    }
    check_elements(context, &elem.elements, elem.of)
}

/// Checks the instructions of a field in the context of its module; `constants` is that of initial
/// values, offsets and elements. Returns `None` if they are valid, or if the type of a function
/// does not exist.
pub fn check_code(
    alloc: Global,
    context: &Context<'_>,
    constants: &Context<'_>,
    field: &Field<'_>,
) -> Result<Option<Cause>, AllocError>
    ensures { IfOk result (λ found. MatchOption found
        (headers.CodeIsValid (context_of context.now) (context_of constants.now)
        (field_of field.now))
        (λ c. errors.CodeFails (context_of context.now) (context_of constants.now)
        (field_of field.now) c)) }
{
    match field {
        Field::Func(function) => check_function(alloc, context, function),
        Field::Table(table) => Ok(check_inline(constants, &table.elements, table.of.element)),
        Field::Global(global) => Ok(check_initial_value(constants, &global.first, global.of.value)),
        Field::Data(segment) => Ok(check_offset(constants, &segment.target)),
        Field::Elem(elem) => Ok(check_segment(constants, elem)),
        Field::Type(_) | Field::Import(_) | Field::Memory(_) | Field::Export(_) | Field::Start(_) =>
            Ok(None),
    }
}

/// A field of a module that is not valid.
#[derive(Clone, Copy)]
pub struct Invalid {
    /// Index of the field.
    pub field: usize,
    /// Reason for which it is not valid.
    pub cause: Cause,
}

/// Checks the instructions of fields, as `check_code` does. Returns the first field whose
/// instructions are not valid, or `None` if those of all fields are.
pub fn check_codes(
    alloc: Global,
    context: &Context<'_>,
    constants: &Context<'_>,
    fields: &[Field<'_>],
) -> Result<Option<Invalid>, AllocError>
    ensures { IfOk result (λ found. MatchOption found
        (AllByRecursion (headers.CodeIsValid (context_of context.now) (context_of constants.now))
        (fields_of fields.now))
        (λ v. errors.FirstCodeError (context_of context.now) (context_of constants.now)
        (fields_of fields.now) v.field v.cause)) }
{
    for (i, field) in fields.iter().enumerate() {
        if let Some(cause) = check_code(alloc, context, constants, field)? {
            return Ok(Some(Invalid { field: i, cause }));
        }
    }
    Ok(None)
}
