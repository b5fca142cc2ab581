//! Validation of the modules that a text denotes, and its errors.
ghost use Rattle.std.specs.Prelude.{◌≡◌, ◌<◌, ◌^◌, ◌∷◌, [], length, map, IfErr, IfOk, List, None, OnOk};
ghost use Rattle.std.specs.Prelude.{if◌then◌else◌, slice_get, string_bytes, take, true};
ghost use Rattle.std.specs.Option.{option_map};
ghost use Rattle.std.specs.List.{All};
ghost use Rattle.wat_lex.specs.declared.lexer.kinds.Token.{Token};
ghost use Rattle.wat_lex.specs.errors.Errors.{Custom, IsUnlessMemory, report_in};
ghost use Rattle.wat_lex.specs.tokens.ReadableTokens.{IsTokenOf};
ghost use Rattle.wat_lexer_parser.specs.laws.Blanking.{TextShows};
ghost use Rattle.wat_lexer_parser.specs.names.RegisteredNames.{no_names};
ghost use Rattle.wat_module_ast.specs.Fields.{Field};
ghost use Rattle.wat_module_ast.specs.Modules.{Module};
ghost use Rattle.wat_module_ast.specs.TypeViews.{use_of};
ghost use Rattle.wat_module_ast.specs.Types.{index_or_zero};
ghost use Rattle.wat_module_ast.specs.Views.{extern_of, field_of, fields_of, mode_of, target_of};
ghost use Rattle.wat_module_lexer.specs.TokenTerminals.{plain, terminal_of};
ghost use Rattle.wat_module_tokens.specs.TokenCursor.{terminals_of};
ghost use Rattle.wat_modules.specs.Messages as places;
ghost use Rattle.wat_modules.specs.Validity.{RefusesFields};
ghost use Rattle.wat_modules.specs.ValidityMessages as messages;
ghost use Rattle.wat_valid.specs.Modules.{ModuleIsValid, function_count};

use crate::place;
use std::alloc::{AllocError, Global};
use std::fmt;
use wat_lexer_parser::Error;
use wat_lexer_parser::lexer::Token;
use wat_lexer_parser::token::Span;
use wat_module_ast::fields::{self, ElemMode, ExternType, IndexSpace, Target};
use wat_module_ast::types::TypeUse;
use wat_module_lexer::shown_tokens;
use wat_module_places::places::{place_in_module, place_of_field};
use wat_module_tokens::stream::TokenCursor;
use wat_valid::code::{Cause, Invalid};
use wat_valid::messages::{body_message, reference_name, value_name};
use wat_valid::module::Reason;
use wat_valid::validity::validate;

/// The reason for which a module is not valid, if it is not in the body of a function.
#[derive(Clone, Copy)]
pub(crate) enum Problem {
    /// A field violates a condition other than those on its instructions. It refers to this index.
    Header(Reason, usize),
    /// The initial value of a global is not a constant expression of its type, which has this
    /// keyword.
    InitialValue(&'static str),
    /// The offset of a segment is not a constant expression of type `i32`.
    Offset,
    /// The element with this index is not a constant expression of the type of its segment, which
    /// has this keyword.
    Element(usize, &'static str),
}

/// Validates a module by its fields, if `is_checked` is true. `tokens` has all tokens of the text.
///
/// # Errors
///
/// Returns an error at the first instruction that is not valid, if it has a position, or otherwise
/// at the keyword of the first field that is not valid. Fails if an allocation fails.
pub(crate) fn check_valid(
    alloc: Global,
    text: &str,
    tokens: TokenCursor<'_, '_>,
    fields: &[fields::Field<'_>],
    is_checked: bool,
) -> Result<(), Error>
    requires { length text.now < 2 ^ 32 }
    ensures valid { OnOk result (is_checked ≡ true → ModuleIsValid (fields_of fields.now)) }
    ensures invalid { IfErr result (λ e. (is_checked ≡ true) ×
        RefusesFields text.now (terminals_of tokens.entry) (fields_of fields.now) e) }
{
    if !is_checked {
        return Ok(());
    }
    match validate(alloc, fields) {
        Ok(None) => Ok(()),
        Ok(Some(invalid)) => Err(invalid_error(alloc, text, tokens, fields, invalid)),
        Err(refused) => Err(Error::from(refused)),
    }
}

/// Returns the error for a module that is not valid. Lexes the text again: not every packed token
/// has its offset.
fn invalid_error(
    alloc: Global,
    text: &str,
    tokens: TokenCursor<'_, '_>,
    fields: &[fields::Field<'_>],
    invalid: Invalid,
) -> Error
    requires { length text.now < 2 ^ 32 }
    ensures { (shown : List Token) → TextShows (plain text.now) no_names shown None →
        terminals_of tokens.entry ≡ map (terminal_of text.now) shown →
        (m : Module (terminals_of tokens.entry) (fields_of fields.now)) →
        IsUnlessMemory result
        (messages.report text.now shown m invalid.field invalid.cause) }
{
    wat_lex::laws::one_tiling();
    wat_lexer_parser::laws::all_shown();
    let left = match tokens_left(alloc, tokens, fields, invalid) {
        Ok(left) => left,
        Err(refused) => return Error::from(refused),
    };
    let message = match message_of(alloc, fields, invalid) {
        Ok(message) => message,
        Err(refused) => return Error::from(refused),
    };
    match shown_tokens(alloc, text) {
        Ok(shown) => error_at(alloc, text, &shown.tokens, left, message),
        Err(error) => error,
    }
}

/// Returns the error at the first of the last `left` tokens.
fn error_at(alloc: Global, text: &str, tokens: &[Token], left: usize, message: String) -> Error
    requires { All (IsTokenOf text.now) tokens.now }
    ensures { IsUnlessMemory result (report_in text.now (places.place text.now tokens.now left)
        (Custom (string_bytes message))) }
{
    let offset = place(text, tokens, left);
    Error::parse(alloc, Span::from_offset(offset), text, message)
}

/// Returns the number of tokens from the position of an error on.
fn tokens_left(
    alloc: Global,
    tokens: TokenCursor<'_, '_>,
    fields: &[fields::Field<'_>],
    invalid: Invalid,
) -> Result<usize, AllocError>
    ensures { (m : Module (terminals_of tokens.entry) (fields_of fields.now)) →
        IfOk result (λ left. left ≡ messages.tokens_left m invalid.field invalid.cause) }
{
    let field = invalid.field;
    match invalid.cause {
        Cause::Body(at) => Ok(count_of(place_in_module(alloc, tokens, field, at)?)),
        Cause::InitialValue => Ok(count_of(place_in_module(alloc, tokens, field, 0)?)),
        Cause::Offset if has_offset(fields, field) => {
            Ok(count_of(place_in_module(alloc, tokens, field, 0)?))
        }
        Cause::Header(_) | Cause::Offset | Cause::Element(_) => {
            Ok(count_of(place_of_field(tokens, field)))
        }
    }
}

/// Returns `true` if the field with this index is an active segment whose offset has instructions.
fn has_offset(fields: &[fields::Field<'_>], field: usize) -> bool
    ensures { result ≡ messages.has_offset (slice_get (fields_of fields.now) field) }
{
    match fields.get(field) {
        Some(fields::Field::Data(segment)) => target_has_offset(&segment.target),
        Some(fields::Field::Elem(elem)) => mode_has_offset(&elem.mode),
        _ => false,
    }
}

/// Returns `true` if a data segment has an offset with an instruction.
fn target_has_offset(target: &Option<Target>) -> bool
    ensures { result ≡ messages.target_has_offset (target_of target.now) }
{
    match target {
        Some(target) => !target.offset.is_empty(),
        None => false,
    }
}

/// Returns `true` if an element segment has an offset with an instruction.
fn mode_has_offset(mode: &ElemMode) -> bool
    ensures { result ≡ messages.mode_has_offset (mode_of mode.now) }
{
    match mode {
        ElemMode::Active(target) => !target.offset.is_empty(),
        _ => false,
    }
}

/// Returns the number of tokens from a position on, or 0 if there is none.
fn count_of(place: Option<TokenCursor<'_, '_>>) -> usize
    ensures { result ≡ messages.count_of (option_map terminals_of place.entry) }
{
    match place {
        Some(place) => place.len(),
        None => 0,
    }
}

/// Returns the message of the reason for which a module is not valid.
fn message_of(
    alloc: Global,
    fields: &[fields::Field<'_>],
    invalid: Invalid,
) -> Result<String, AllocError>
    ensures { IfOk result (λ text. string_bytes text ≡
        messages.message (fields_of fields.now) invalid.field invalid.cause) }
{
    let field = invalid.field;
    match invalid.cause {
        Cause::Body(at) => body_message(alloc, fields, field, function_index(fields, field), at),
        Cause::Header(reason) => {
            let problem = Problem::Header(reason, index_at(fields, field));
            format!(in alloc; "{problem}")
        }
        Cause::InitialValue => {
            let problem = Problem::InitialValue(constant_type(fields, field));
            format!(in alloc; "{problem}")
        }
        Cause::Offset => {
            let problem = Problem::Offset;
            format!(in alloc; "{problem}")
        }
        Cause::Element(at) => {
            let problem = Problem::Element(at, constant_type(fields, field));
            format!(in alloc; "{problem}")
        }
    }
}

/// Returns the number of functions that are imported or defined before a field.
fn function_index(fields: &[fields::Field<'_>], field: usize) -> usize
    ensures { result ≡ function_count (take field (fields_of fields.now)) }
{
    function_count(fields_before(fields, field))
}

/// Returns the fields before the one with this index.
fn fields_before<'f, 'a>(fields: &'f [fields::Field<'a>], field: usize) -> &'f [fields::Field<'a>]
    ensures { result.now ≡ take field fields.now }
{
    fields.get(..field).unwrap_or(fields)
}

/// Returns the number of functions that fields import or define.
fn function_count(fields: &[fields::Field<'_>]) -> usize
    ensures { result ≡ function_count (fields_of fields.now) }
{
    let mut count = 0;
    for field in fields {
        if is_function(field) {
            count += 1;
        }
    }
    count
}

/// Returns `true` if a field imports or defines a function.
fn is_function(field: &fields::Field<'_>) -> bool
    ensures { (if result then 1 else 0) ≡ function_count (field_of field.now ∷ []) }
{
    match field {
        fields::Field::Func(_) => true,
        fields::Field::Import(import) => matches!(import.what, ExternType::Func(_)),
        _ => false,
    }
}

/// Returns the keyword of the type of the initial value or the elements of a field. That of an
/// offset, which other fields have, is `i32`.
fn constant_type(fields: &[fields::Field<'_>], field: usize) -> &'static str
    ensures { result.now ≡ messages.constant_type (slice_get (fields_of fields.now) field) }
{
    match fields.get(field) {
        Some(fields::Field::Global(global)) => value_name(global.of.value),
        Some(fields::Field::Elem(elem)) => reference_name(elem.of),
        Some(fields::Field::Table(table)) => reference_name(table.of.element),
        _ => "i32",
    }
}

/// Returns the index to which a field refers, or 0 if there is none.
fn index_at(fields: &[fields::Field<'_>], field: usize) -> usize
    ensures { result ≡ messages.index_at (slice_get (fields_of fields.now) field) }
{
    match fields.get(field) {
        Some(field) => index_in(field),
        None => 0,
    }
}

/// Returns the index to which a field refers, or 0 if there is none.
fn index_in(field: &fields::Field<'_>) -> usize
    ensures { result ≡ messages.index_in (field_of field.now) }
{
    match field {
        fields::Field::Import(import) => extern_index(&import.what),
        fields::Field::Func(function) => use_index(&function.uses),
        fields::Field::Export(export) => export.index,
        fields::Field::Start(function) => *function,
        fields::Field::Data(segment) => target_index(&segment.target),
        fields::Field::Elem(elem) => mode_index(&elem.mode),
        _ => 0,
    }
}

/// Returns the index of the type of an imported function, or 0 if there is none.
fn extern_index(of: &ExternType) -> usize
    ensures { result ≡ messages.extern_index (extern_of of.now) }
{
    match of {
        ExternType::Func(uses) => use_index(uses),
        _ => 0,
    }
}

/// Returns the index of a type use, or 0 if it has none.
fn use_index(uses: &TypeUse) -> usize
    ensures { result ≡ index_or_zero (use_of uses.now) }
{
    match uses {
        TypeUse::Index(index) => *index,
        TypeUse::Inline(_) => 0,
    }
}

/// Returns the index of the memory of an active data segment, or 0 if the segment is passive.
fn target_index(target: &Option<Target>) -> usize
    ensures { result ≡ messages.target_index (target_of target.now) }
{
    match target {
        Some(target) => target.index,
        None => 0,
    }
}

/// Returns the index of the table of an active element segment, or 0 if the segment is not active.
fn mode_index(mode: &ElemMode) -> usize
    ensures { result ≡ messages.mode_index (mode_of mode.now) }
{
    match mode {
        ElemMode::Active(target) => target.index,
        _ => 0,
    }
}

/// Returns an item of an index space.
fn item(space: IndexSpace) -> &'static str
    ensures { result.now ≡ messages.item space }
{
    match space {
        IndexSpace::Func => "function",
        IndexSpace::Table => "table",
        IndexSpace::Mem => "memory",
        IndexSpace::Global => "global",
    }
}

impl fmt::Display for Problem {
    ghost use Rattle.std.specs.Prelude.{Some};
    ghost use Rattle.wat_modules.specs.ValidityViews.{problem_message};

    ghost output = { λ p. Some (problem_message p) };

    fn fmt<W: fmt::Write>(&self, f: &mut fmt::Formatter<W>) -> fmt::Result {
        match self {
            Problem::Header(reason, index) => {
                let violation = Violated(*reason, *index);
                write!(f, "{violation}")
            }
            Problem::InitialValue(of) => {
                write!(
                    f,
                    "initial value is not a constant expression of type `{of}`"
                )
            }
            Problem::Offset => write!(f, "offset is not a constant expression of type `i32`"),
            Problem::Element(at, of) => {
                let element = OtherElement(*at, *of);
                write!(f, "{element}")
            }
        }
    }
}

/// An element that is not a constant expression, by its index and the keyword of the type of its
/// segment.
#[derive(Clone, Copy)]
struct OtherElement(usize, &'static str);

impl fmt::Display for OtherElement {
    ghost use Rattle.std.specs.Prelude.{Some};
    ghost use Rattle.wat_modules.specs.ValidityMessages.{element_message};

    ghost output = { λ e. Some (element_message e.0 e.1.now) };

    fn fmt<W: fmt::Write>(&self, f: &mut fmt::Formatter<W>) -> fmt::Result {
        let OtherElement(at, of) = self;
        write!(
            f,
            "element {at} is not a constant expression of type `{of}`"
        )
    }
}

/// A condition that a field violates, and the index to which the field refers.
#[derive(Clone, Copy)]
struct Violated(Reason, usize);

impl fmt::Display for Violated {
    ghost use Rattle.std.specs.Prelude.{Some};
    ghost use Rattle.wat_modules.specs.ValidityMessages.{reason_message};

    ghost output = { λ v. Some (reason_message v.0 v.1) };

    fn fmt<W: fmt::Write>(&self, f: &mut fmt::Formatter<W>) -> fmt::Result {
        let Violated(reason, index) = self;
        match *reason {
            Reason::Limits => write!(f, "size out of range, or minimum above maximum"),
            Reason::UnknownType => write!(f, "unknown type `{index}`"),
            Reason::UnknownItem(space) => write!(f, "unknown {} `{index}`", item(space)),
            Reason::StartType => write!(f, "start function with parameters or results"),
            Reason::ElementType => {
                write!(f, "type of elements differs from that of table `{index}`")
            }
            Reason::SecondMemory => write!(f, "more than one memory"),
            Reason::DuplicateExport => write!(f, "duplicate export name"),
        }
    }
}
