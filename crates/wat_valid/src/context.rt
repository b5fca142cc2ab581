//! The context of a module: the types of its items, by their indices.
ghost use Rattle.std.specs.Prelude.{◌≡◌, ◌<◌, ◌++◌, ◌^◌, ◌+◌, IfOk, OnOk, MatchOption, None, Some, map};
ghost use Rattle.std.specs.Prelude.{◌∷◌, [], false, if◌then◌else◌, length, replicate, slice_get, slice_set, true};
ghost use Rattle.wat_module_ast.specs.Fields.{data_of, datas_of};
ghost use Rattle.std.specs.List.{flat_map};
ghost use Rattle.wat_module_ast.specs.Views.{expression_of, expressions_of, extern_of, field_of, fields_of};
ghost use Rattle.wat_module_ast.specs.Views.{mode_of};
ghost use Rattle.wat_module_ast.specs.TypeViews.{type_of, use_of};
ghost use Rattle.wat_valid.specs.Algorithm.{has_index};
ghost use Rattle.wat_valid.specs.Contexts as rules;
ghost use Rattle.wat_module_ast.specs.ImplicitTypes.{types_of};
ghost use Rattle.wat_valid.specs.ContextViews.{Represents, full_context, initial_context};
ghost use Rattle.wat_valid.specs.ContextViews.{context_of, marked, referred_type, true_indices};
ghost use Rattle.wat_valid.specs.Modules as modules;

use std::alloc::{AllocError, Global};
use wat_module_ast::fields::{
    Elem, ElemMode, Elements, ExternType, Field, GlobalType, IndexSpace, Limits, TableType,
};
use wat_module_ast::instruction::{Argument, Instruction, Opcode, ReferenceType};
use wat_module_ast::types::{FunctionType, TypeUse, type_at_index};

/// Opcode of `ref.func`.
const REF_FUNC: u8 = 0xD2;

/// Types of the items to which the fields and instructions of a module can refer, each list in the
/// order of indices.
#[derive(Clone, Copy)]
pub struct Context<'m> {
    /// Function types, with those that type uses add.
    pub types: &'m [FunctionType],
    /// Types of the functions.
    pub functions: &'m [&'m FunctionType],
    /// Types of the tables.
    pub tables: &'m [TableType],
    /// Types of the memories.
    pub memories: &'m [Limits],
    /// Types of the globals. Initial values, offsets and elements have the imported ones alone.
    pub globals: &'m [GlobalType],
    /// Types of the element segments.
    pub elements: &'m [ReferenceType],
    /// Number of data segments.
    pub data_count: usize,
    /// For each function, `true` if `ref.func` can refer to it.
    pub declared: &'m [bool],
}

/// Returns the function type of a type use, or `None` if its index is out of range.
pub fn use_type<'m>(types: &'m [FunctionType], uses: &'m TypeUse) -> Option<&'m FunctionType>
    ensures { MatchOption result
        (rules.use_type (map type_of types.now) (use_of uses.now) ≡ None)
        (λ t. rules.use_type (map type_of types.now) (use_of uses.now) ≡ Some (type_of t.now)) }
{
    match uses {
        TypeUse::Index(index) => type_at_index(types, *index),
        TypeUse::Inline(of) => Some(of),
    }
}

/// Returns the type of the function with this index, or `None` if the index is out of range.
pub fn function_at<'m>(context: &Context<'m>, function: usize) -> Option<&'m FunctionType>
    ensures { MatchOption result
        (slice_get (context_of context.now).funcs function ≡ None)
        (λ t. slice_get (context_of context.now).funcs function ≡ Some (type_of t.now)) }
{
    context.functions.get(function).copied()
}

/// Returns `true` if `ref.func` can refer to the function with this index.
pub fn is_declared(context: &Context<'_>, function: usize) -> bool
    ensures { result ≡ has_index function (context_of context.now).refs }
{
    match context.declared.get(function) {
        Some(is_declared) => *is_declared,
        None => false,
    }
}

/// Types of the items of a module, each list in the order of indices.
#[derive(Drop)]
struct Items<'m> {
    /// Types of the functions.
    functions: Vec<&'m FunctionType>,
    /// Types of the tables.
    tables: Vec<TableType>,
    /// Types of the memories.
    memories: Vec<Limits>,
    /// Types of the imported globals.
    imported_globals: Vec<GlobalType>,
    /// Types of the globals that the module defines.
    defined_globals: Vec<GlobalType>,
    /// Types of the element segments.
    elements: Vec<ReferenceType>,
    /// Number of data segments.
    data_count: usize,
}

/// Appends the type of a function, if its type use has one.
fn push_function<'m>(
    functions: &mut Vec<&'m FunctionType>,
    types: &'m [FunctionType],
    uses: &'m TypeUse,
) -> Result<(), AllocError>
    ensures { OnOk result (map referred_type functions.new.items ≡
        map referred_type functions.old.items ++
        modules.type_list (rules.use_type (map type_of types.now) (use_of uses.now))) }
{
    if let Some(of) = use_type(types, uses) {
        functions.push(of)?;
    }
    Ok(())
}

/// Appends the type of an imported item to the types of its index space.
fn push_import<'m>(
    items: &mut Items<'m>,
    types: &'m [FunctionType],
    of: &'m ExternType,
) -> Result<(), AllocError>
    ensures functions { OnOk result (map referred_type items.new.functions.items ≡
        map referred_type items.old.functions.items ++
        modules.extern_funcs (map type_of types.now) (extern_of of.now)) }
    ensures tables { OnOk result (items.new.tables.items ≡
        items.old.tables.items ++ modules.extern_tables (extern_of of.now)) }
    ensures memories { OnOk result (items.new.memories.items ≡
        items.old.memories.items ++ modules.extern_mems (extern_of of.now)) }
    ensures imported { OnOk result (items.new.imported_globals.items ≡
        items.old.imported_globals.items ++ modules.extern_globals (extern_of of.now)) }
    ensures defined { OnOk result
        (items.new.defined_globals.items ≡ items.old.defined_globals.items) }
    ensures elements { OnOk result (items.new.elements.items ≡ items.old.elements.items) }
    ensures datas { items.new.data_count ≡ items.old.data_count }
{
    match of {
        ExternType::Func(uses) => push_function(&mut items.functions, types, uses)?,
        ExternType::Table(of) => items.tables.push(*of)?,
        ExternType::Memory(limits) => items.memories.push(*limits)?,
        ExternType::Global(of) => items.imported_globals.push(*of)?,
    }
    Ok(())
}

/// Appends the types of the items that a field imports or defines. The number of data segments must
/// be below 2^63.
fn push_field<'m>(
    items: &mut Items<'m>,
    types: &'m [FunctionType],
    field: &'m Field<'_>,
) -> Result<(), AllocError>
    requires { items.old.data_count < 2 ^ 63 }
    ensures functions { OnOk result (map referred_type items.new.functions.items ≡
        map referred_type items.old.functions.items ++
        modules.funcs_in (map type_of types.now) (field_of field.now)) }
    ensures tables { OnOk result (items.new.tables.items ≡
        items.old.tables.items ++ modules.tables_in (field_of field.now)) }
    ensures memories { OnOk result (items.new.memories.items ≡
        items.old.memories.items ++ modules.mems_in (field_of field.now)) }
    ensures imported { OnOk result (items.new.imported_globals.items ≡
        items.old.imported_globals.items ++ modules.imported_globals_in (field_of field.now)) }
    ensures defined { OnOk result (items.new.defined_globals.items ≡
        items.old.defined_globals.items ++ modules.defined_globals_in (field_of field.now)) }
    ensures elements { OnOk result (items.new.elements.items ≡
        items.old.elements.items ++ modules.elems_in (field_of field.now)) }
    ensures datas { OnOk result (items.new.data_count ≡
        items.old.data_count + length (data_of (field_of field.now))) }
{
    match field {
        Field::Import(import) => push_import(items, types, &import.what)?,
        Field::Func(function) => push_function(&mut items.functions, types, &function.uses)?,
        Field::Table(table) => {
            items.tables.push(table.of)?;
            if table.elements.is_some() {
                items.elements.push(table.of.element)?;
            }
        }
        Field::Memory(memory) => {
            items.memories.push(memory.limits)?;
            if memory.data.is_some() {
                items.data_count += 1;
            }
        }
        Field::Global(global) => items.defined_globals.push(global.of)?,
        Field::Data(_) => items.data_count += 1,
        Field::Elem(elem) => items.elements.push(elem.of)?,
        Field::Type(_) | Field::Export(_) | Field::Start(_) => {}
    }
    Ok(())
}

/// Returns the types of the items that fields import or define. A function whose type use has no
/// type is left out.
fn items_of<'m>(
    alloc: Global,
    types: &'m [FunctionType],
    fields: &'m [Field<'_>],
) -> Result<Items<'m>, AllocError>
    ensures functions { IfOk result (λ items. map referred_type items.functions.items ≡
        flat_map (modules.funcs_in (map type_of types.now)) (fields_of fields.now)) }
    ensures tables { IfOk result (λ items. items.tables.items ≡
        flat_map modules.tables_in (fields_of fields.now)) }
    ensures memories { IfOk result (λ items. items.memories.items ≡
        flat_map modules.mems_in (fields_of fields.now)) }
    ensures imported { IfOk result (λ items. items.imported_globals.items ≡
        flat_map modules.imported_globals_in (fields_of fields.now)) }
    ensures defined { IfOk result (λ items. items.defined_globals.items ≡
        flat_map modules.defined_globals_in (fields_of fields.now)) }
    ensures elements { IfOk result (λ items. items.elements.items ≡
        flat_map modules.elems_in (fields_of fields.now)) }
    ensures datas { IfOk result (λ items. items.data_count ≡
        length (datas_of (fields_of fields.now))) }
{
    let mut items = Items {
        functions: Vec::new(alloc),
        tables: Vec::new(alloc),
        memories: Vec::new(alloc),
        imported_globals: Vec::new(alloc),
        defined_globals: Vec::new(alloc),
        elements: Vec::new(alloc),
        data_count: 0,
    };
    for field in fields {
        push_field(&mut items, types, field)?;
    }
    Ok(items)
}

/// Returns the function to which an instruction `ref.func` refers, or `None` if it is another
/// instruction.
fn referred_function(instruction: &Instruction) -> Option<usize>
    ensures { MatchOption result
        (modules.instruction_refs instruction.now ≡ [])
        (λ x. modules.instruction_refs instruction.now ≡ x ∷ []) }
{
    if let Opcode::Byte(opcode) = instruction.opcode {
        if let Argument::Index(function) = instruction.argument {
            if opcode == REF_FUNC {
                return Some(function);
            }
        }
    }
    None
}

/// Marks a function, if there is one with this index.
fn mark(declared: &mut [bool], function: usize)
    ensures { declared.new ≡ slice_set declared.old function true }
{
    if function < declared.len() {
        declared[function] = true;
    }
}

/// Marks the functions to which instructions refer.
fn mark_instructions(declared: &mut [bool], all: &[Instruction])
    ensures { declared.new ≡ marked (modules.expression_refs all.now) declared.old }
{
    for instruction in all {
        if let Some(function) = referred_function(instruction) {
            mark(declared, function);
        }
    }
}

/// Marks functions.
fn mark_functions(declared: &mut [bool], functions: &[usize])
    ensures { declared.new ≡ marked functions.now declared.old }
{
    for function in functions {
        mark(declared, *function);
    }
}

/// Marks the functions to which expressions refer.
fn mark_expressions(declared: &mut [bool], expressions: &[Vec<Instruction>])
    ensures { declared.new ≡ marked
        (flat_map modules.expression_refs (map expression_of expressions.now)) declared.old }
{
    for expression in expressions {
        mark_instructions(declared, expression);
    }
}

/// Marks the functions to which elements refer.
#[tactic(auto, using(crate::proofs::Declared::functions_refer))]
fn mark_elements(declared: &mut [bool], elements: &Elements)
    ensures { declared.new ≡ marked
        (flat_map modules.expression_refs (expressions_of elements.now)) declared.old }
{
    match elements {
        Elements::Functions(functions) => mark_functions(declared, functions),
        Elements::Expressions(expressions) => mark_expressions(declared, expressions),
    }
}

/// Marks the functions to which the offset of an active element segment refers.
fn mark_mode(declared: &mut [bool], mode: &ElemMode)
    ensures { declared.new ≡ marked (modules.mode_refs (mode_of mode.now)) declared.old }
{
    if let ElemMode::Active(target) = mode {
        mark_instructions(declared, &target.offset);
    }
}

/// Marks the functions to which an element segment refers.
#[tactic(auto, using(crate::proofs::Declared::marked_more))]
fn mark_elem(declared: &mut [bool], elem: &Elem<'_>)
    ensures { declared.new ≡ marked (modules.mode_refs (mode_of elem.now.mode) ++
        flat_map modules.expression_refs (expressions_of elem.now.elements)) declared.old }
{
    mark_mode(declared, &elem.mode);
    mark_elements(declared, &elem.elements);
}

/// Marks the functions to which `ref.func` can refer because of a field, which is after the
/// definitions and imports of `count` functions.
fn mark_field(declared: &mut [bool], field: &Field<'_>, count: usize)
    ensures { declared.new ≡ marked (modules.field_refs count (field_of field.now)) declared.old }
{
    match field {
        Field::Import(import) => {
            if is_function(field) && !import.exports.is_empty() {
                mark(declared, count);
            }
        }
        Field::Func(function) => {
            if !function.exports.is_empty() {
                mark(declared, count);
            }
        }
        Field::Table(table) => {
            if let Some(elements) = &table.elements {
                mark_elements(declared, elements);
            }
        }
        Field::Global(global) => mark_instructions(declared, &global.first),
        Field::Export(export) => {
            if let IndexSpace::Func = export.space {
                mark(declared, export.index);
            }
        }
        Field::Data(segment) => {
            if let Some(target) = &segment.target {
                mark_instructions(declared, &target.offset);
            }
        }
        Field::Elem(elem) => mark_elem(declared, elem),
        Field::Type(_) | Field::Memory(_) | Field::Start(_) => {}
    }
}

/// Returns `true` if a field imports or defines a function.
fn is_function(field: &Field<'_>) -> bool
    ensures { (if result then 1 else 0) ≡ modules.function_count (field_of field.now ∷ []) }
{
    match field {
        Field::Func(_) => true,
        Field::Import(import) => matches!(import.what, ExternType::Func(_)),
        _ => false,
    }
}

/// Marks the functions to which `ref.func` can refer because of the fields.
fn mark_fields(declared: &mut [bool], fields: &[Field<'_>])
    ensures { declared.new ≡ marked
        (modules.refs_after [] (fields_of fields.now)) declared.old }
{
    let mut count = 0;
    for field in fields {
        mark_field(declared, field, count);
        if is_function(field) {
            count += 1;
        }
    }
}

/// Returns, for each of `count` functions, `true` if `ref.func` can refer to it.
fn declared_of(alloc: Global, fields: &[Field<'_>], count: usize) -> Result<Vec<bool>, AllocError>
    ensures { IfOk result (λ declared. declared.items ≡ marked
        (modules.refs_after [] (fields_of fields.now)) (replicate count false)) }
{
    let mut declared = vec![in alloc; false; count]?;
    mark_fields(&mut declared, fields);
    Ok(declared)
}

/// The context of a module.
#[derive(Drop)]
pub struct ModuleContext<'m> {
    /// Function types, with those that type uses add.
    types: &'m [FunctionType],
    /// Types of the functions.
    functions: Vec<&'m FunctionType>,
    /// Types of the tables.
    tables: Vec<TableType>,
    /// Types of the memories.
    memories: Vec<Limits>,
    /// Types of the globals, the imported ones first.
    globals: Vec<GlobalType>,
    /// Number of imported globals.
    imported_count: usize,
    /// Types of the element segments.
    elements: Vec<ReferenceType>,
    /// Number of data segments.
    data_count: usize,
    /// For each function, `true` if `ref.func` can refer to it.
    declared: Vec<bool>,
}

impl<'m> ModuleContext<'m> {
    /// Returns the context of a module by its types and its fields. A function whose type use has
    /// no type is left out.
    pub fn new(
        alloc: Global,
        types: &'m [FunctionType],
        fields: &'m [Field<'_>],
    ) -> Result<ModuleContext<'m>, AllocError>
        requires { map type_of types.now ≡ types_of (fields_of fields.now) }
        ensures full { IfOk result (λ context. Represents (full_context context)
            (modules.context_of (fields_of fields.now))) }
        ensures initial { IfOk result (λ context. Represents (initial_context context)
            (modules.initial_context_of (fields_of fields.now))) }
    {
        let Items {
            functions,
            tables,
            memories,
            imported_globals: mut globals,
            defined_globals,
            elements,
            data_count,
        } = items_of(alloc, types, fields)?;
        let declared = declared_of(alloc, fields, functions.len())?;
        let imported_count = globals.len();
        globals.extend_from_slice(&defined_globals)?;
        Ok(ModuleContext {
            types,
            functions,
            tables,
            memories,
            globals,
            imported_count,
            elements,
            data_count,
            declared,
        })
    }

    /// Returns the context of the module's functions.
    pub fn full(&self) -> Context<'_>
        ensures { context_of result ≡ full_context self.now }
    {
        Context {
            types: self.types,
            functions: &self.functions,
            tables: &self.tables,
            memories: &self.memories,
            globals: &self.globals,
            elements: &self.elements,
            data_count: self.data_count,
            declared: &self.declared,
        }
    }

    /// Returns the context of the initial values, offsets and elements, in which the globals are
    /// the imported ones.
    pub fn initial(&self) -> Context<'_>
        ensures { context_of result ≡ initial_context self.now }
    {
        let mut context = self.full();
        context.globals = self
            .globals
            .get(..self.imported_count)
            .unwrap_or(&self.globals);
        context
    }
}
