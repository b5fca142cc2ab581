//! The context of the body of a function.
ghost use Rattle.std.specs.Prelude.{◌≡◌, IfOk, MatchOption, None, Some, slice_get};
ghost use Rattle.wat_module_ast.specs.Views.{function_of};
ghost use Rattle.wat_valid.specs.Contexts.{use_type};
ghost use Rattle.wat_valid.specs.ContextViews.{BodyOf, body_context, context_of};
ghost use Rattle.wat_valid.specs.Views.{labels_in};

use crate::context::{Context, use_type};
use crate::locals::LocalTypes;
use std::alloc::{AllocError, Global};
use wat_module_ast::fields::Function;
use wat_module_ast::instruction::ValueType;

/// The context of the body of a function.
#[derive(Drop)]
pub struct BodyContext<'m> {
    /// Context of the module.
    pub module: Context<'m>,
    /// Types of the parameters of the function.
    pub params: &'m [ValueType],
    /// Types of the results of the function.
    pub results: &'m [ValueType],
    /// Types of the locals of the function, without the parameters.
    pub locals: LocalTypes<'m>,
}

/// Returns the context of the body of a function, or `None` if its type does not exist.
pub fn body_of<'m>(
    alloc: Global,
    context: &Context<'m>,
    function: &'m Function<'_>,
) -> Result<Option<BodyContext<'m>>, AllocError>
    ensures { IfOk result (λ found. MatchOption found
        (use_type (context_of context.now).types (function_of function.now).uses ≡ None)
        (λ b. BodyOf (context_of context.now) (function_of function.now) b)) }
{
    let Some(of) = use_type(context.types, &function.uses) else {
        return Ok(None);
    };
    Ok(Some(BodyContext {
        module: *context,
        params: &of.params,
        results: &of.results,
        locals: LocalTypes::new(alloc, &function.locals)?,
    }))
}

/// Returns the type of a parameter or a local of the function, or `None` if the index is out of
/// range.
pub fn local_at(context: &BodyContext<'_>, index: usize) -> Option<ValueType>
    ensures { result ≡ slice_get (body_context context.now).locals index }
{
    match context.params.get(index) {
        Some(of) => Some(*of),
        None => context.locals.get(index - context.params.len()),
    }
}

/// Returns the types of a label, of which 0 is the innermost, or `None` if there is no such label.
/// `labels` has the innermost last.
pub fn label_at<'m>(labels: &[&'m [ValueType]], label: usize) -> Option<&'m [ValueType]>
    ensures { MatchOption result
        (slice_get (labels_in labels.now) label ≡ None)
        (λ t. slice_get (labels_in labels.now) label ≡ Some t.now) }
{
    if label < labels.len() {
        Some(labels[labels.len() - 1 - label])
    } else {
        None
    }
}
