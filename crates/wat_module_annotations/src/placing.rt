//! The names that the annotations among the items of a text give.
ghost use Rattle.std.specs.Prelude.{◌≡◌, map, true, IfOk};
ghost use Rattle.wat_lex.specs.errors.Errors.{IsUnlessMemory};
ghost use Rattle.wat_lexer_parser.specs.parser.State.{Answers};
ghost use Rattle.wat_module_annotations.specs.Names.{fields_from, misplaced_at, module_of};
ghost use Rattle.wat_module_annotations.specs.Names.{ends_field, fields_by, names_in, outside};
ghost use Rattle.wat_module_annotations.specs.Values.{field_names_of, item_of, label_of};
ghost use Rattle.wat_module_annotations.specs.Values.{module_names_of};

use crate::context::Context;
use crate::names::{FieldNames, ModuleNames};
use crate::reading::Item;
use std::alloc::{AllocError, Global};
use wat_lexer_parser::Error;
use wat_lexer_parser::token::{NameAnnotation, Span};

/// Returns the names that annotations give in a module, or an error at the first misplaced one.
#[tactic(auto, unfolding(crate::specs::Names::names_in))]
pub fn names_in<'a>(
    alloc: Global,
    text: &str,
    items: Vec<Item<'a>>,
) -> Result<ModuleNames<'a>, Error>
    ensures { Answers true (λ m. module_names_of m)
        (names_in text.now (map item_of items.entry.items)) result }
{
    let of_module = module_of(alloc, &items)?;
    let fields = fields_in(alloc, text, items)?;
    Ok(ModuleNames { of_module, fields })
}

/// Returns the name of the module.
fn module_of<'a>(
    alloc: Global,
    items: &[Item<'a>],
) -> Result<Option<NameAnnotation<'a>>, AllocError>
    ensures { IfOk result (λ n. label_of n ≡ module_of (map item_of items.now)) }
{
    if let Some(Item::Module(of)) = items.first() {
        if let Some(name) = &of.name {
            return Ok(Some(name.clone(alloc)?));
        }
    }
    Ok(None)
}

/// Returns the names of the fields, or an error at the first misplaced annotation.
fn fields_in<'a>(
    alloc: Global,
    text: &str,
    items: Vec<Item<'a>>,
) -> Result<Vec<FieldNames<'a>>, Error>
    ensures { Answers true (λ v. map field_names_of v.items)
        (fields_by text.now (fields_from outside (map item_of items.entry.items))) result }
{
    let mut context = Context::begun(alloc, 0, None);
    let mut fields = Vec::new(alloc);
    for item in items {
        if let Some(offset) = context.misplaced(&item) {
            return Err(misplaced_at(alloc, text, offset));
        }
        if ends_field(&item, context.depth) {
            fields.push(context.field)?;
            context = Context::begun(alloc, 0, None);
        } else {
            context = context.after(alloc, item)?;
        }
    }
    Ok(fields)
}

/// Returns `true` if an item ends a field.
fn ends_field(item: &Item<'_>, depth: usize) -> bool
    ensures { result ≡ ends_field (item_of item.now) depth }
{
    matches!(item, Item::Close) && depth == 1
}

/// Creates the error for an annotation at an offset where no identifier may be.
fn misplaced_at(alloc: Global, text: &str, offset: usize) -> Error
    ensures { IsUnlessMemory result (misplaced_at text.now offset) }
{
    match String::from_str(alloc, "annotation `@name` where no identifier may be") {
        Ok(message) => Error::parse(alloc, Span::from_offset(offset), text, message),
        Err(refused) => Error::from(refused),
    }
}
