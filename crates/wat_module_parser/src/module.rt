//! Parses the fields of a module.
//!
//! Suffixes in the names of the field parsers of this crate:
//!
//! - `_at` starts at the first token that the caller has not consumed: after the opening
//!   parenthesis of a field (`field_at`, `binding_at`, `definition_at`, `data_name_at`,
//!   `elem_name_at`), after its keyword (`type_at`, `import_at`, `export_at`, `start_at`,
//!   `elem_at`, `data_at`), or after its identifier and inline exports (`table_at`, `memory_at`).
//! - `_after` continues an `_at` parser after one token more: after the keyword (`field_after`,
//!   `definition_after`), or after the identifier (`elem_after`, `data_after`).
//! - `_by` depends on a further argument: `fields_by` on the types of the module, `ended_by` on
//!   whether the module is enclosed in `(module )`.
//!
//! A parser has a parameter `all` if it reports an error at a token before the first of `cursor`.
ghost use Rattle.std.specs.Prelude.{◌≡◌, [], ◌∷◌, List, Ok, Err, length, map, IfOk, MatchOption};
ghost use Rattle.std.specs.Prelude.{MatchResult};
ghost use Rattle.wat_module_ast.specs.Fields as grammar;
ghost use Rattle.wat_module_ast.specs.ImplicitTypes as implicit;
ghost use Rattle.wat_module_ast.specs.Modules.{Module};
ghost use Rattle.wat_module_parser.specs.Reading as reading;
ghost use Rattle.wat_module_ast.specs.Views.{field_of, fields_of, text_of};
ghost use Rattle.wat_module_parser.specs.Views.{IsItem, ItemFaults, NoItem, context_of, types_of};
ghost use Rattle.wat_module_parser.specs.Views.{use_of, with_names};
ghost use Rattle.wat_module_ast.specs.Grammar.{label_of};
ghost use Rattle.wat_module_tokens.specs.TokenCursor.{terminals_of};
ghost use Rattle.wat_module_instructions.specs.Parts.{Faults, IsMemory, ReadsAs, ReadsExactly};
ghost use Rattle.wat_module_instructions.specs.Parts.{fault_of};
ghost use Rattle.wat_module_instructions.specs.Parts.{scope_of};
ghost use Rattle.wat_module_tokens.specs.Terminals.{Terminal, label};
ghost use Rattle.wat_module_ast.specs.Uses.{unknown};
ghost use Rattle.wat_module_ast.specs.TypeViews.{type_of};

use crate::elements::table_at;
use crate::exports::export_at;
use crate::header::{closed, exports, variables};
use crate::imports::{import_at, inline_import};
use crate::labels::label_names;
use crate::names::{Names, names_of, variable_names, with_types, without_types};
use crate::places::{duplicate_item, duplicate_variable, import_fault, start_fault};
use crate::segments::{memory_at, segment};
use crate::types::{global_type, space_of};
use crate::uses::{type_at, type_use};
use crate::variables::{NamedUse, Variables, local_names, locals_of, without_names};
use std::alloc::Global;
use wat_module_ast::error::{Expected, Fault, FaultKind, ParseFailure, Space};
use wat_module_ast::fields::{Field, Function, GlobalVariable, IndexSpace};
use wat_module_ast::implicit_types;
use wat_module_ast::instruction::Instruction;
use wat_module_ast::types::FunctionType;
use wat_module_instructions::faults::unexpected;
use wat_module_instructions::machine;
use wat_module_instructions::names::IndexedNames;
use wat_module_instructions::reading::{self, Scope, after};
use wat_module_tokens::stream::TokenCursor;
use wat_module_tokens::token::{DecodedToken, Name};

/// Parses a module.
///
/// Returns `Ok(fields)` if and only if the grammar derives the tokens as a module with these
/// fields, unless an allocation fails. The fields borrow from the source text and its decoded
/// strings, not from `cursor`.
///
/// # Errors
///
/// Returns a syntax error with its position, or the allocation failure.
pub fn module<'p, 'a>(
    alloc: Global,
    cursor: TokenCursor<'p, 'a>,
) -> Result<Vec<Field<'a>>, ParseFailure<'p, 'a>>
    ensures read { IfOk result (λ fields. Module (terminals_of cursor.entry)
        (fields_of fields.items)) }
    ensures spelled { (fs : List grammar.Field) → Module (terminals_of cursor.entry) fs →
        MatchResult result (λ fields. fields_of fields.items ≡ fs) IsMemory }
    ensures refused { MatchResult result
        (λ _. Unit {0})
        (λ e. Faults (reading.whole (terminals_of cursor.entry)) e) }
{
    crate::laws::reading_is_grammar();
    whole(alloc, cursor)
}

/// Parses a module, with a contract that states the reading instead of the grammar.
#[tactic(auto, unfolding(crate::specs::Reading::whole))]
fn whole<'p, 'a>(
    alloc: Global,
    cursor: TokenCursor<'p, 'a>,
) -> Result<Vec<Field<'a>>, ParseFailure<'p, 'a>>
    ensures { MatchResult result
        (λ fs. reading.whole (terminals_of cursor.entry) ≡ Ok (fields_of fs.items))
        (λ e. Faults (reading.whole (terminals_of cursor.entry)) e) }
{
    match after("module", cursor) {
        Some(rest) => {
            let (_, rest) = reading::label(rest);
            module_fields(alloc, true, rest)
        }
        None => module_fields(alloc, false, cursor),
    }
}

/// Parses the fields of `(module $id? field*)` after the identifier, up to the closing parenthesis,
/// if `enclosed`; otherwise parses fields without an enclosing `(module )`.
fn module_fields<'p, 'a>(
    alloc: Global,
    enclosed: bool,
    cursor: TokenCursor<'p, 'a>,
) -> Result<Vec<Field<'a>>, ParseFailure<'p, 'a>>
    ensures { MatchResult result
        (λ fs. reading.fields_at enclosed (terminals_of cursor.entry) ≡ Ok (fields_of fs.items))
        (λ e. Faults (reading.fields_at enclosed (terminals_of cursor.entry)) e) }
{
    let Some(names) = names_of(alloc, cursor)? else {
        return Err(ParseFailure::Text(duplicate_item(alloc, cursor)?));
    };
    match fields_by(alloc, enclosed, &names, cursor) {
        Err(ParseFailure::Text(fault)) => fields_again(alloc, enclosed, names, fault, cursor),
        answer => answer,
    }
}

/// Parses the fields again, with the types that inline type uses add. `fault` is the error of
/// parsing them with only the types that type fields define.
fn fields_again<'p, 'a>(
    alloc: Global,
    enclosed: bool,
    names: Names<'a>,
    fault: Fault<'p, 'a>,
    cursor: TokenCursor<'p, 'a>,
) -> Result<Vec<Field<'a>>, ParseFailure<'p, 'a>>
    ensures { (ss : List (List Terminal)) → types_of names.entry ≡ reading.defined_types ss →
        context_of names.entry ≡ reading.context_by ss (reading.defined_types ss) →
        MatchResult result
        (λ fs.
        reading.fields_again enclosed ss (terminals_of cursor.entry) (fault_of fault.entry)
        (reading.all_by ss (unknown (reading.defined_types ss))
        (terminals_of cursor.entry))
        ≡ Ok (fields_of fs.items))
        (λ e. Faults
        (reading.fields_again enclosed ss (terminals_of cursor.entry) (fault_of fault.entry)
        (reading.all_by ss (unknown (reading.defined_types ss))
        (terminals_of cursor.entry)))
        e) }
{
    let names = without_types(alloc, names);
    match types_without(alloc, &names, cursor) {
        Ok(types) => {
            let names = with_types(types, names);
            fields_by(alloc, enclosed, &names, cursor)
        }
        Err(ParseFailure::Text(other)) => Err(ParseFailure::Text(first_fault(fault, other))),
        Err(ParseFailure::Memory(refused)) => Err(ParseFailure::Memory(refused)),
    }
}

/// Returns all types of the module, those of inline type uses included, from a parse that does not
/// resolve type indices. The fields of that parse are freed on return.
fn types_without<'p, 'a>(
    alloc: Global,
    names: &Names<'a>,
    cursor: TokenCursor<'p, 'a>,
) -> Result<Vec<FunctionType>, ParseFailure<'p, 'a>>
    ensures { MatchResult result
        (λ types. (fs : List grammar.Field) × (us : List Terminal) ×
        (reading.all (reading.field_item (types_of names.now) (context_of names.now))
        (terminals_of cursor.entry) ≡ Ok (fs, us))
        × (map type_of types.items ≡ implicit.types_of fs))
        (λ e. Faults
        (reading.all (reading.field_item (types_of names.now) (context_of names.now))
        (terminals_of cursor.entry))
        e) }
{
    let (fields, _) = fields(alloc, names, cursor)?;
    let types = implicit_types::types_of(alloc, &fields)?;
    Ok(types.into_types())
}

/// Returns the error to report: `fault`, or, if it is an unknown name, which further types might
/// resolve, `other`, the error of parsing without resolving type indices.
fn first_fault<'p, 'a>(fault: Fault<'p, 'a>, other: Fault<'p, 'a>) -> Fault<'p, 'a>
    ensures { fault_of result ≡ reading.fault_of (fault_of fault.entry) (fault_of other.entry) }
{
    match fault.kind {
        FaultKind::UnknownName(_) => other,
        _ => fault,
    }
}

/// Parses all fields with the types in `names`, up to the end. Imports must precede all
/// definitions, and there must be at most one start function.
fn fields_by<'p, 'a>(
    alloc: Global,
    enclosed: bool,
    names: &Names<'a>,
    cursor: TokenCursor<'p, 'a>,
) -> Result<Vec<Field<'a>>, ParseFailure<'p, 'a>>
    ensures { MatchResult result
        (λ fs.
        reading.ordered (terminals_of cursor.entry)
        (reading.ended_by enclosed
        (reading.all (reading.field_item (types_of names.now) (context_of names.now))
        (terminals_of cursor.entry)))
        ≡ Ok (fields_of fs.items))
        (λ e. Faults
        (reading.ordered (terminals_of cursor.entry)
        (reading.ended_by enclosed
        (reading.all (reading.field_item (types_of names.now) (context_of names.now))
        (terminals_of cursor.entry))))
        e) }
{
    let (fields, rest) = fields(alloc, names, cursor)?;
    ended_by(enclosed, rest)?;
    if !imports_first(&fields) {
        return Err(ParseFailure::Text(import_fault(alloc, &fields, cursor)?));
    }
    if starts(&fields) > 1 {
        return Err(ParseFailure::Text(start_fault(alloc, &fields, cursor)?));
    }
    Ok(fields)
}

/// Checks that no token is left, except the closing parenthesis of the module if it is `enclosed`.
fn ended_by<'p, 'a>(enclosed: bool, cursor: TokenCursor<'p, 'a>) -> Result<(), Fault<'p, 'a>>
    ensures { MatchResult result
        (λ _. (fs : List grammar.Field) →
        reading.ended_by enclosed (Ok (fs, terminals_of cursor.entry)) ≡ Ok fs)
        (λ f. (fs : List grammar.Field) →
        reading.ended_by enclosed (Ok (fs, terminals_of cursor.entry)) ≡ Err (fault_of f)) }
{
    if enclosed {
        ended(cursor)
    } else {
        at_end(Expected::FieldOrEnd, cursor)
    }
}

/// Checks that a closing parenthesis is the only token left.
fn ended<'p, 'a>(cursor: TokenCursor<'p, 'a>) -> Result<(), Fault<'p, 'a>>
    ensures { MatchResult result
        (λ _. (fs : List grammar.Field) →
        reading.ended (Ok (fs, terminals_of cursor.entry)) ≡ Ok fs)
        (λ f. (fs : List grammar.Field) →
        reading.ended (Ok (fs, terminals_of cursor.entry)) ≡ Err (fault_of f)) }
{
    match cursor.first() {
        Some((DecodedToken::Close, rest)) => at_end(Expected::End, rest),
        _ => Err(unexpected(Expected::FieldOrClose, cursor)),
    }
}

/// Checks that no token is left. Otherwise `expected` is accepted here.
fn at_end<'p, 'a>(expected: Expected, cursor: TokenCursor<'p, 'a>) -> Result<(), Fault<'p, 'a>>
    ensures { MatchResult result
        (λ _. (fs : List grammar.Field) →
        reading.end_after expected fs (terminals_of cursor.entry) ≡ Ok fs)
        (λ f. (fs : List grammar.Field) →
        reading.end_after expected fs (terminals_of cursor.entry) ≡ Err (fault_of f)) }
{
    match cursor.first() {
        None => Ok(()),
        Some(_) => Err(unexpected(expected, cursor)),
    }
}

/// Returns `true` if every import precedes every definition.
fn imports_first(fields: &[Field<'_>]) -> bool
    ensures { result ≡ grammar.imports_first (fields_of fields.now) }
{
    for (i, field) in fields.iter().enumerate() {
        if is_definition(field) {
            return !has_import(&fields[i + 1..]);
        }
    }
    true
}

/// Returns `true` if a field defines a function, table, memory or global.
fn is_definition(field: &Field<'_>) -> bool
    ensures { result ≡ grammar.is_definition (field_of field.now) }
{
    match field {
        Field::Func(_) | Field::Table(_) | Field::Memory(_) | Field::Global(_) => true,
        Field::Type(_)
        | Field::Import(_)
        | Field::Export(_)
        | Field::Start(_)
        | Field::Data(_)
        | Field::Elem(_) => false,
    }
}

/// Returns `true` if one of the fields is an import.
fn has_import(fields: &[Field<'_>]) -> bool
    ensures { result ≡ grammar.has_import (fields_of fields.now) }
{
    for field in fields {
        if let Field::Import(_) = field {
            return true;
        }
    }
    false
}

/// Returns the number of start functions.
fn starts(fields: &[Field<'_>]) -> usize
    ensures { result ≡ length (grammar.starts_of (fields_of fields.now)) }
{
    let mut count = 0;
    for field in fields {
        if let Field::Start(_) = field {
            count += 1;
        }
    }
    count
}

/// Parses fields as long as an opening parenthesis comes next.
fn fields<'p, 'a>(
    alloc: Global,
    names: &Names<'a>,
    cursor: TokenCursor<'p, 'a>,
) -> Result<(Vec<Field<'a>>, TokenCursor<'p, 'a>), ParseFailure<'p, 'a>>
    ensures { ReadsAs (λ v. fields_of v.items)
        (reading.all (reading.field_item (types_of names.now) (context_of names.now))
        (terminals_of cursor.entry))
        result }
{
    wat_module_instructions::laws::machine_is_grammar();
    wat_module_instructions::laws::folded_is_grammar();
    wat_module_instructions::laws::instructions_are_balanced();
    let mut found = Vec::new(alloc);
    let mut left = cursor;
    'fields: loop {
        match next_field(alloc, names, &mut found, left) {
            Ok(Some(next)) => {
                left = next;
            }
            Ok(None) => return Ok((found, left)),
            Err(refusal) => return Err(refusal),
        }
    }
}

/// Parses a field and appends it to `found`. Returns the tokens after it, or `None` if no opening
/// parenthesis comes next.
#[tactic(auto, unfolding(crate::specs::Reading::field_item))]
fn next_field<'p, 'a>(
    alloc: Global,
    names: &Names<'a>,
    found: &mut Vec<Field<'a>>,
    left: TokenCursor<'p, 'a>,
) -> Result<Option<TokenCursor<'p, 'a>>, ParseFailure<'p, 'a>>
    ensures { MatchResult result
        (λ o. MatchOption o
        (NoItem
        (reading.field_item (types_of names.now) (context_of names.now)
        (terminals_of left.entry))
        (map field_of found.old.items) (map field_of found.new.items))
        (λ l. IsItem
        (reading.field_item (types_of names.now) (context_of names.now)
        (terminals_of left.entry))
        (map field_of found.old.items) (map field_of found.new.items) (terminals_of l)))
        (λ e. ItemFaults
        (reading.field_item (types_of names.now) (context_of names.now)
        (terminals_of left.entry))
        e) }
{
    match left.first() {
        Some((DecodedToken::Open, rest)) => {
            let (field, cursor) = field_at(alloc, names, rest)?;
            found.push(field)?;
            Ok(Some(cursor))
        }
        _ => Ok(None),
    }
}

/// Parses a field after its opening parenthesis.
fn field_at<'p, 'a>(
    alloc: Global,
    names: &Names<'a>,
    cursor: TokenCursor<'p, 'a>,
) -> Result<(Field<'a>, TokenCursor<'p, 'a>), ParseFailure<'p, 'a>>
    ensures { ReadsAs (λ v. field_of v ∷ [])
        (reading.field (types_of names.now) (context_of names.now) (terminals_of cursor.entry))
        result }
{
    match cursor.first() {
        Some((DecodedToken::Word(word), rest)) => { field_after(alloc, names, word, cursor, rest) }
        _ => Err(ParseFailure::Text(unexpected(Expected::Field, cursor))),
    }
}

/// Parses a field after its keyword. `all` starts at the keyword, for errors.
fn field_after<'p, 'a>(
    alloc: Global,
    names: &Names<'a>,
    word: &str,
    all: TokenCursor<'p, 'a>,
    cursor: TokenCursor<'p, 'a>,
) -> Result<(Field<'a>, TokenCursor<'p, 'a>), ParseFailure<'p, 'a>>
    ensures { ReadsAs (λ v. field_of v ∷ [])
        (reading.field_by (types_of names.now) (context_of names.now) (grammar.space_of word.now)
        word.now (terminals_of all.entry) (terminals_of cursor.entry))
        result }
{
    match space_of(word) {
        Some(space) => item(alloc, names, space, cursor),
        None => other(alloc, names, word, all, cursor),
    }
}

/// Parses a function, table, memory or global field after its keyword.
fn item<'p, 'a>(
    alloc: Global,
    names: &Names<'a>,
    space: IndexSpace,
    cursor: TokenCursor<'p, 'a>,
) -> Result<(Field<'a>, TokenCursor<'p, 'a>), ParseFailure<'p, 'a>>
    ensures { ReadsAs (λ v. field_of v ∷ [])
        (reading.item_at (types_of names.now) (context_of names.now) space
        (label_of (terminals_of cursor.entry)))
        result }
{
    let (name, rest) = reading::label(cursor);
    let (exports, rest) = exports(alloc, rest)?;
    match after("import", rest) {
        Some(rest) => inline_import(alloc, names, space, name, exports, rest),
        None => defined(alloc, names, space, name, exports, rest),
    }
}

/// Parses a function, table, memory or global definition after its identifier and inline exports.
fn defined<'p, 'a>(
    alloc: Global,
    names: &Names<'a>,
    space: IndexSpace,
    name: Name<'a>,
    exports: Vec<&'a [u8]>,
    cursor: TokenCursor<'p, 'a>,
) -> Result<(Field<'a>, TokenCursor<'p, 'a>), ParseFailure<'p, 'a>>
    ensures { ReadsAs (λ v. field_of v ∷ [])
        (reading.defined (types_of names.now) (context_of names.now) space (label name.entry)
        (map text_of exports.entry.items) (terminals_of cursor.entry))
        result }
{
    match space {
        IndexSpace::Func => func(alloc, names, name, exports, cursor),
        IndexSpace::Table => table_at(alloc, names, name, exports, cursor),
        IndexSpace::Mem => memory_at(alloc, name, exports, cursor),
        IndexSpace::Global => global(alloc, names, name, exports, cursor),
    }
}

/// Parses a function definition after its identifier and inline exports.
fn func<'p, 'a>(
    alloc: Global,
    names: &Names<'a>,
    name: Name<'a>,
    exports: Vec<&'a [u8]>,
    cursor: TokenCursor<'p, 'a>,
) -> Result<(Field<'a>, TokenCursor<'p, 'a>), ParseFailure<'p, 'a>>
    ensures { ReadsAs (λ v. field_of v ∷ [])
        (reading.func_at (types_of names.now) (context_of names.now) (label name.entry)
        (map text_of exports.entry.items) (terminals_of cursor.entry))
        result }
{
    let (uses, rest) = type_use(alloc, names, cursor)?;
    let (locals, start) = variables(alloc, "local", true, rest)?;
    let (body, rest) = instructions(alloc, names, &uses, &locals, cursor, start)?;
    let local_names = local_names(alloc, &uses, &locals)?;
    let label_names = label_names(alloc, start)?;
    let uses = without_names(uses);
    let locals = locals_of(alloc, locals.types())?;
    Ok((
        Field::Func(Function {
            name,
            exports,
            uses,
            locals,
            body,
            local_names,
            label_names,
        }),
        rest,
    ))
}

/// Parses a global definition after its identifier and inline exports.
fn global<'p, 'a>(
    alloc: Global,
    names: &Names<'a>,
    name: Name<'a>,
    exports: Vec<&'a [u8]>,
    cursor: TokenCursor<'p, 'a>,
) -> Result<(Field<'a>, TokenCursor<'p, 'a>), ParseFailure<'p, 'a>>
    ensures { ReadsAs (λ v. field_of v ∷ [])
        (reading.global_at (context_of names.now) (label name.entry)
        (map text_of exports.entry.items) (terminals_of cursor.entry))
        result }
{
    let (of, rest) = global_type(Expected::GlobalDefinition, cursor)?;
    let locals = IndexedNames::none(alloc);
    let scope = scope(names, &locals);
    let (first, rest) = machine::instructions(alloc, &scope, rest)?;
    Ok((
        Field::Global(GlobalVariable {
            name,
            exports,
            of,
            first,
        }),
        rest,
    ))
}

/// Parses a type, import, export, start, data or elem field after its keyword. `all` starts at the
/// keyword, for errors.
fn other<'p, 'a>(
    alloc: Global,
    names: &Names<'a>,
    word: &str,
    all: TokenCursor<'p, 'a>,
    cursor: TokenCursor<'p, 'a>,
) -> Result<(Field<'a>, TokenCursor<'p, 'a>), ParseFailure<'p, 'a>>
    ensures { ReadsAs (λ v. field_of v ∷ [])
        (reading.other_at (types_of names.now) (context_of names.now) word.now
        (terminals_of all.entry) (terminals_of cursor.entry))
        result }
{
    if word == "type" {
        return type_field(alloc, cursor);
    }
    if word == "import" {
        return import_at(alloc, names, cursor);
    }
    if word == "export" {
        return Ok(export_at(names, cursor)?);
    }
    if word == "start" {
        return Ok(start_at(names, cursor)?);
    }
    segment(alloc, names, word, all, cursor)
}

/// Parses a type field after its keyword.
fn type_field<'p, 'a>(
    alloc: Global,
    cursor: TokenCursor<'p, 'a>,
) -> Result<(Field<'a>, TokenCursor<'p, 'a>), ParseFailure<'p, 'a>>
    ensures { ReadsAs (λ v. field_of v ∷ []) (reading.type_field (terminals_of cursor.entry))
        result }
{
    let (definition, rest) = type_at(alloc, cursor)?;
    Ok((Field::Type(definition), rest))
}

/// Parses a start field after its keyword.
fn start_at<'p, 'a>(
    names: &Names<'a>,
    cursor: TokenCursor<'p, 'a>,
) -> Result<(Field<'a>, TokenCursor<'p, 'a>), Fault<'p, 'a>>
    ensures { ReadsExactly (λ v. field_of v ∷ [])
        (reading.start_at (context_of names.now) (terminals_of cursor.entry)) result }
{
    let (index, rest) = reading::index(Space::Func, &names.funcs, cursor)?;
    let rest = closed(rest)?;
    Ok((Field::Start(index), rest))
}

/// Returns the scope of instructions with the names and types of a module and these locals.
pub(crate) fn scope<'s, 'n>(names: &'s Names<'n>, locals: &'s IndexedNames<'n>) -> Scope<'s, 'n>
    ensures { scope_of result ≡ with_names locals.now (context_of names.now) }
{
    Scope {
        type_names: &names.type_names,
        types: &names.types,
        are_types_known: names.are_types_known,
        locals,
        funcs: &names.funcs,
        tables: &names.tables,
        memories: &names.memories,
        globals: &names.globals,
        elems: &names.elems,
        datas: &names.datas,
    }
}

/// Parses the instructions of a function after its locals, up to and including the closing
/// parenthesis of the function. The identifiers of its parameters, which are those of `uses`, and
/// of its locals must be distinct. `start` starts at the type use, for errors.
#[tactic(auto, unfolding(crate::specs::Reading::instructions))]
fn instructions<'p, 'a>(
    alloc: Global,
    names: &Names<'a>,
    uses: &NamedUse<'_, 'a>,
    locals: &Variables<'a>,
    start: TokenCursor<'p, 'a>,
    cursor: TokenCursor<'p, 'a>,
) -> Result<(Vec<Instruction>, TokenCursor<'p, 'a>), ParseFailure<'p, 'a>>
    ensures { ReadsAs (λ v. v.items)
        (reading.instructions (context_of names.now) (use_of uses.now).params
        locals.now (terminals_of start.entry) (terminals_of cursor.entry))
        result }
{
    let Some(locals) = variable_names(alloc, uses, locals)? else {
        return Err(ParseFailure::Text(duplicate_variable(alloc, start)?));
    };
    let scope = scope(names, &locals);
    machine::instructions(alloc, &scope, cursor)
}
