//! The names that annotations give.
ghost use Rattle.std.specs.Prelude.{◌≡◌};
ghost use Rattle.wat_module_annotations.specs.Names.{no_names, only_item};
ghost use Rattle.wat_module_annotations.specs.Values.{field_names_of, label_of, module_names_of};

use crate::reading::VariableName;
use std::alloc::Global;
use wat_lexer_parser::token::NameAnnotation;

/// The names that annotations give in a field of a module.
#[derive(Debug, Drop)]
pub struct FieldNames<'a> {
    /// Name of the item of the field.
    pub item: Option<NameAnnotation<'a>>,
    /// `true` if the field declares a parameter.
    pub has_params: bool,
    /// Names of the parameters and locals that the field declares, in source order.
    pub variables: Vec<VariableName<'a>>,
    /// Names of the labels, in the order of their indices.
    pub labels: Vec<VariableName<'a>>,
}

impl<'a> FieldNames<'a> {
    /// Returns the names of a field whose item has this name.
    pub(crate) fn only_item(alloc: Global, item: Option<NameAnnotation<'a>>) -> FieldNames<'a>
        ensures { field_names_of result ≡ only_item (label_of item.entry) }
    {
        FieldNames {
            item,
            has_params: false,
            variables: Vec::new(alloc),
            labels: Vec::new(alloc),
        }
    }
}

/// The names that annotations give in a module.
#[derive(Debug, Drop)]
pub struct ModuleNames<'a> {
    /// Name of the module.
    pub of_module: Option<NameAnnotation<'a>>,
    /// Names of the fields, in source order; empty if the text has no annotations.
    pub fields: Vec<FieldNames<'a>>,
}

impl<'a> ModuleNames<'a> {
    /// Returns the names of a text without annotations.
    pub(crate) fn none(alloc: Global) -> ModuleNames<'a>
        ensures { module_names_of result ≡ no_names }
    {
        ModuleNames {
            of_module: None,
            fields: Vec::new(alloc),
        }
    }
}
