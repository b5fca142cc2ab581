//! Compiles modules of WebAssembly from text to binary. The result is, by theorem, the binary
//! encoding of the module from which the grammar derives the text.
#![tactic(auto)]

ghost use Rattle.std.specs.Prelude.{◌≡◌, ◌<◌, ◌^◌, ◌++◌, true, length, map, IfErr, IfOk, IfSome, List, None, Ok, Option};
ghost use Rattle.std.specs.Result.{IsErrAnd};
ghost use Rattle.wat_module_ast.specs.Fields.{Field};
ghost use Rattle.wat_module_tokens.specs.TokenCursor.{terminals_of};
ghost use Rattle.wat_module_tokens.specs.Terminals.{Label, label};
ghost use Rattle.wat_module_tokens.specs.Tokens.{AreLinked, AreReadable, joined};
ghost use Rattle.std.specs.List.{All};
ghost use Rattle.wat_lex.specs.tokens.ReadableTokens.{IsTokenOf};
ghost use Rattle.wat_lex.specs.declared.lexer.kinds.Token.{Token};
ghost use Rattle.wat_lex.specs.errors.Errors.{Custom, IsUnlessMemory, report_in};
ghost use Rattle.wat_lexer_parser.specs.declared.parser.fault.Fault.{Fault};
ghost use Rattle.wat_lexer_parser.specs.laws.Blanking.{TextShows};
ghost use Rattle.wat_lexer_parser.specs.names.RegisteredNames.{no_names};
ghost use Rattle.wat_lexer_parser.specs.parser.State.{Answers};
ghost use Rattle.wat_modules.specs.Compiling.{Fits, DenotesModule, compiled, compiled_tokens};
ghost use Rattle.wat_modules.specs.Compiling.{FitsNamed, compiled_named, compiled_with};
ghost use Rattle.wat_modules.specs.Compiling.{Bare, Complete, Sections, compiled_complete, finished};
ghost use Rattle.wat_modules.specs.Compiling.{DenotesComplete, DenotesNamed, FitsComplete};
ghost use Rattle.wat_modules.specs.Compiling.{AnnotationsDefine, named_fields, named_module};
ghost use Rattle.wat_modules.specs.Compiling.{fitted, module_name, named_bytes};
ghost use Rattle.wat_modules.specs.Validity.{Compiles, IsErrorOf, IsInvalid, IsValidText};
ghost use Rattle.wat_modules.specs.Views.{wanted_by};
ghost use Rattle.wat_modules.specs.Messages as messages;
ghost use Rattle.wat_module_lexer.specs.Drafts.{draft_pieces, draft_terminals};
ghost use Rattle.wat_module_lexer.specs.TokenTerminals.{plain, terminal_of};
ghost use Rattle.wat_module_ast.specs.Views.{fields_of};
ghost use Rattle.wat_module_encoder.specs.Binary.{module_bytes};
ghost use Rattle.wat_module_encoder.specs.CustomSections.{complete_bytes};
ghost use Rattle.wat_module_encoder.specs.NameSection.{name_section};
ghost use Rattle.wat_module_custom.specs.Customs.{CustomSection};
ghost use Rattle.wat_module_custom.specs.Customs as custom;
ghost use Rattle.wat_module_custom.specs.Values.{section_of};
ghost use Rattle.wat_module_annotations.specs.Values.{module_names_of};
ghost use Rattle.wat_valid.specs.Modules.{ModuleIsValid};

mod edits;
pub mod laws;
mod messages;
mod nearest;
mod validity;

use messages::{Message, first_of, found_token, is_misplaced, kind_by, suggested};
use nearest::suggestion;
use std::alloc::{AllocError, Global};
use validity::check_valid;
use wat_lexer_parser::Error;
use wat_lexer_parser::lexer::Token;
use wat_lexer_parser::token::Span;
use wat_module_annotations::names::ModuleNames;
use wat_module_annotations::renaming::{named, renamed};
use wat_module_ast::error::{FaultKind, ParseFailure};
use wat_module_ast::fields;
use wat_module_custom::search::{Sought, may_have};
use wat_module_custom::sections;
use wat_module_encoder::encode;
use wat_module_instructions::reading;
use wat_module_lexer::{PackedText, PackedTokens, pack_tokens, shown_tokens};
use wat_module_parser::module;
use wat_module_tokens::stream::{TokenCursor, TokenStream};
use wat_module_tokens::token::Name;

/// Compiles a module from text to binary.
///
/// Returns the binary encoding of the module from which the grammar derives the text
/// (`specs/Modules` of `wat_module_ast`). The text must be shorter than 2^32 bytes.
///
/// # Errors
///
/// Returns the first lexical error, if there is one. Otherwise returns a syntax error at a token,
/// or at the end of the text, if the text is not a module. Returns an error at offset 0 if the
/// encoding has more than `u32::MAX` bytes. Fails if an allocation fails.
pub fn compile(alloc: Global, text: &str) -> Result<Vec<u8>, Error>
    requires { length text.now < 2 ^ 32 }

    // The bytes encode a module from which the grammar derives the text.
    ensures bytes { IfOk result (λ bytes. (fs : List Field) × DenotesModule text.now fs × Fits fs
        × (bytes.items ≡ module_bytes fs)) }

    // If the grammar derives the text from a module, the result is the encoding of that module, the
    // error that it is too long, or an allocation failure.
    ensures spelled { (fs : List Field) → DenotesModule text.now fs →
        Answers true (λ bytes. bytes.items) (fitted text.now (module_bytes fs)) result }

    // The result is that of the visible tokens and the lexical error after them, if there is one.
    ensures refused { (tokens : List Token) (last : Option Fault) →
        TextShows (plain text.now) no_names tokens last →
        Answers true (λ bytes. bytes.items) (compiled text.now tokens last) result }

    // A text has visible tokens, with or without a lexical error after them.
    ensures some { (tokens : List Token) × (last : Option Fault) ×
        TextShows (plain text.now) no_names tokens last }
{
    compile_as(alloc, text, Extras::Nothing, false)
}

/// Compiles a module from text to binary, with a name section.
///
/// Returns the binary encoding of the module from which the grammar derives the text, followed by
/// the custom section `name` (`specs/NameSection` of `wat_module_encoder`). It has the identifiers
/// of the module, of its functions, types, tables, memories, globals and segments, and of the
/// parameters, locals and labels of the functions that it defines, by their indices. If there are
/// none of these, there is no such section. The text must be shorter than 2^32 bytes.
///
/// # Errors
///
/// Returns the errors of [`compile`]. The limit on the size includes the name section.
pub fn compile_with_names(alloc: Global, text: &str) -> Result<Vec<u8>, Error>
    requires { length text.now < 2 ^ 32 }

    // The bytes encode a module from which the grammar derives the text, and its names.
    ensures bytes { IfOk result (λ bytes. (l : Label) × (fs : List Field)
        × DenotesNamed text.now l fs × FitsNamed l fs
        × (bytes.items ≡ module_bytes fs ++ name_section l fs)) }

    // If the grammar derives the text from a module, the result is the encoding of that module and
    // of its names, the error that it is too long, or an allocation failure.
    ensures spelled { (l : Label) (fs : List Field) → DenotesNamed text.now l fs →
        Answers true (λ bytes. bytes.items)
        (fitted text.now (module_bytes fs ++ name_section l fs)) result }

    // The result is that of the visible tokens and the lexical error after them, if there is one.
    ensures refused { (tokens : List Token) (last : Option Fault) →
        TextShows (plain text.now) no_names tokens last →
        Answers true (λ bytes. bytes.items) (compiled_named text.now tokens last) result }

    // A text has visible tokens, with or without a lexical error after them.
    ensures some { (tokens : List Token) × (last : Option Fault) ×
        TextShows (plain text.now) no_names tokens last }
{
    compile_as(alloc, text, Extras::Names, false)
}

/// Compiles a module from text to binary, with a name section and custom sections.
///
/// Returns the bytes of [`compile_with_names`], with the names of annotations `(@name ..)` instead
/// of identifiers (`specs/Renaming` of `wat_module_annotations`), and among them the custom
/// sections that the annotations `(@custom ..)` define (`specs/Customs` of `wat_module_custom`),
/// each where its placement says (`specs/CustomSections` of `wat_module_encoder`). The text must be
/// shorter than 2^32 bytes.
///
/// # Errors
///
/// Returns the errors of [`compile`]. If the text is a module, returns the first error in the
/// contents of an annotation `(@custom ..)`, or, if there is none, the error of the first one that
/// is where no field may be. Without these, returns the first error in the contents of an
/// annotation `(@name ..)`, or, if there is none, the error of the first one that is where no
/// identifier may be. The limit on the size, which is checked last, includes all sections.
pub fn compile_with_customs(alloc: Global, text: &str) -> Result<Vec<u8>, Error>
    requires { length text.now < 2 ^ 32 }

    // The bytes encode a module from which the grammar derives the text, its names and its custom
    // sections.
    ensures bytes { IfOk result (λ bytes. (l : Label) × (fs : List Field)
        × (cs : List CustomSection) × DenotesComplete text.now l fs cs × FitsComplete l fs cs
        × (bytes.items ≡ complete_bytes l fs cs)) }

    // If the grammar derives the text from a module, and its annotations define custom sections,
    // the result is the encoding of that module, of its names and of these custom sections, the
    // error that it is too long, or an allocation failure.
    ensures spelled { (l : Label) (fs : List Field) (cs : List CustomSection) →
        DenotesComplete text.now l fs cs → Answers true (λ bytes. bytes.items)
        (fitted text.now (complete_bytes l fs cs)) result }

    // The result is that of the visible tokens and the lexical error after them, if there is one,
    // and of the custom sections.
    ensures refused { (tokens : List Token) (last : Option Fault) (r : Sections) →
        TextShows (plain text.now) no_names tokens last → AnnotationsDefine text.now r →
        Answers true (λ bytes. bytes.items) (compiled_complete r text.now tokens last) result }

    // A text has visible tokens, with or without a lexical error after them.
    ensures some { (tokens : List Token) × (last : Option Fault) ×
        TextShows (plain text.now) no_names tokens last }

    // The annotations of a text define something, or have an error.
    ensures sections { (r : Sections) × AnnotationsDefine text.now r }
{
    compile_as(alloc, text, Extras::Customs, false)
}

/// Compiles a valid module from text to binary, with a name section and custom sections.
///
/// Returns the bytes of [`compile_with_customs`] if the module is valid (`specs/Modules` of
/// `wat_valid`). The text must be shorter than 2^32 bytes.
///
/// # Errors
///
/// Returns the errors of [`compile_with_customs`], but if the text is a module that is not valid,
/// returns an error in its first field that is not valid: for a body at its first instruction that
/// is not valid, for an initial value or an offset at its first instruction. Any other error (the
/// end of a body, an empty initial value or offset, an element, another condition) is at the
/// keyword of the field (`specs/ValidityMessages`).
pub fn compile_valid(alloc: Global, text: &str) -> Result<Vec<u8>, Error>
    requires { length text.now < 2 ^ 32 }

    // The bytes encode a valid module from which the grammar derives the text, its names and its
    // custom sections.
    ensures bytes { IfOk result (λ bytes. (l : Label) × (fs : List Field)
        × (cs : List CustomSection) × (d : DenotesComplete text.now l fs cs)
        × ModuleIsValid d.fields × FitsComplete l fs cs
        × (bytes.items ≡ complete_bytes l fs cs)) }

    // If the grammar derives the text from a valid module, and its annotations define custom
    // sections, the result is the encoding of that module, of its names and of these custom
    // sections, the error that it is too long, or an allocation failure.
    ensures spelled { (l : Label) (fs : List Field) (cs : List CustomSection)
        (d : DenotesComplete text.now l fs cs) → ModuleIsValid d.fields →
        Answers true (λ bytes. bytes.items)
        (fitted text.now (complete_bytes l fs cs)) result }

    // If the grammar derives the text from a module that is not valid, the result is the error of
    // the first field that is not valid, or an allocation failure.
    ensures invalid { (fs : List Field) (m : DenotesModule text.now fs) →
        (ModuleIsValid fs → ⊥) → IsErrAnd result (IsInvalid text.now fs m) }

    // Otherwise the result is that of the visible tokens and the lexical error after them, if there
    // is one, and of the custom sections.
    ensures refused { (tokens : List Token) (last : Option Fault) (r : Sections) →
        TextShows (plain text.now) no_names tokens last → AnnotationsDefine text.now r →
        IsValidText text.now →
        Answers true (λ bytes. bytes.items) (compiled_complete r text.now tokens last) result }

    // An error is that of a module that is not valid, or otherwise that of `compile_with_customs`.
    ensures errors { (r : Sections) → AnnotationsDefine text.now r →
        IfErr result (λ e. IfSome e (IsErrorOf (Complete r) text.now)) }

    // A text has visible tokens, with or without a lexical error after them.
    ensures some { (tokens : List Token) × (last : Option Fault) ×
        TextShows (plain text.now) no_names tokens last }

    // The annotations of a text define something, or have an error.
    ensures sections { (r : Sections) × AnnotationsDefine text.now r }
{
    compile_as(alloc, text, Extras::Customs, true)
}

/// Compiles a valid module from text to binary, without a name section and custom sections.
///
/// Returns the bytes of [`compile`] if the module is valid (`specs/Modules` of `wat_valid`). The
/// text must be shorter than 2^32 bytes.
///
/// # Errors
///
/// Returns the errors of [`compile`], but if the text is a module that is not valid, returns an
/// error in its first field that is not valid: for a body at its first instruction that is not
/// valid, for an initial value or an offset at its first instruction. Any other error (the end of a
/// body, an empty initial value or offset, an element, another condition) is at the keyword of the
/// field (`specs/ValidityMessages`).
pub fn compile_valid_without_names(alloc: Global, text: &str) -> Result<Vec<u8>, Error>
    requires { length text.now < 2 ^ 32 }

    // The bytes encode a valid module from which the grammar derives the text.
    ensures bytes { IfOk result (λ bytes. (fs : List Field) × DenotesModule text.now fs
        × ModuleIsValid fs × Fits fs × (bytes.items ≡ module_bytes fs)) }

    // If the grammar derives the text from a valid module, the result is the encoding of that
    // module, the error that it is too long, or an allocation failure.
    ensures spelled { (fs : List Field) → DenotesModule text.now fs → ModuleIsValid fs →
        Answers true (λ bytes. bytes.items) (fitted text.now (module_bytes fs)) result }

    // If the grammar derives the text from a module that is not valid, the result is the error of
    // the first field that is not valid, or an allocation failure.
    ensures invalid { (fs : List Field) (m : DenotesModule text.now fs) →
        (ModuleIsValid fs → ⊥) → IsErrAnd result (IsInvalid text.now fs m) }

    // Otherwise the result is that of the visible tokens and the lexical error after them, if there
    // is one.
    ensures refused { (tokens : List Token) (last : Option Fault) →
        TextShows (plain text.now) no_names tokens last → IsValidText text.now →
        Answers true (λ bytes. bytes.items) (compiled text.now tokens last) result }

    // An error is that of a module that is not valid, or otherwise that of `compile`.
    ensures errors { IfErr result (λ e. IfSome e (IsErrorOf Bare text.now)) }

    // A text has visible tokens, with or without a lexical error after them.
    ensures some { (tokens : List Token) × (last : Option Fault) ×
        TextShows (plain text.now) no_names tokens last }
{
    compile_as(alloc, text, Extras::Nothing, true)
}

/// What a binary has besides the fields of a module.
#[derive(Clone, Copy)]
enum Extras {
    /// Nothing.
    Nothing,
    /// The name section.
    Names,
    /// The name section and custom sections.
    Customs,
}

/// Compiles a module from text to binary, with what `extras` names. Fails if the module is not
/// valid, if `is_checked` is true.
fn compile_as(alloc: Global, text: &str, extras: Extras, is_checked: bool) -> Result<Vec<u8>, Error>
    requires { length text.now < 2 ^ 32 }
    ensures bytes { (r : Sections) → AnnotationsDefine text.now r → IfOk result (λ bytes.
        (fs : List Field) × (m : DenotesModule text.now fs)
        × (is_checked ≡ true → ModuleIsValid fs)
        × (finished (wanted_by extras r) text.now (module_name m.terminals) fs
        ≡ Ok bytes.items)) }
    ensures spelled { (r : Sections) → AnnotationsDefine text.now r →
        (fs : List Field) (m : DenotesModule text.now fs) →
        (is_checked ≡ true → ModuleIsValid fs) →
        Answers true (λ bytes. bytes.items)
        (finished (wanted_by extras r) text.now (module_name m.terminals) fs) result }
    ensures invalid { is_checked ≡ true → (fs : List Field) (m : DenotesModule text.now fs) →
        (ModuleIsValid fs → ⊥) → IsErrAnd result (IsInvalid text.now fs m) }
    ensures refused { (r : Sections) → AnnotationsDefine text.now r →
        (tokens : List Token) (last : Option Fault) →
        TextShows (plain text.now) no_names tokens last →
        (is_checked ≡ true → IsValidText text.now) →
        Answers true (λ bytes. bytes.items)
        (compiled_with (wanted_by extras r) text.now tokens last) result }
    ensures errors { (r : Sections) → AnnotationsDefine text.now r → is_checked ≡ true →
        IfErr result (λ e. IfSome e (IsErrorOf (wanted_by extras r) text.now)) }
    ensures some { (tokens : List Token) × (last : Option Fault) ×
        TextShows (plain text.now) no_names tokens last }
    ensures sections { (r : Sections) × AnnotationsDefine text.now r }
{
    wat_lex::laws::one_tiling();
    wat_lexer_parser::laws::all_shown();
    wat_module_parser::laws::reading_is_grammar();
    has_tokens(text);
    annotations_define(text);
    let PackedText { packed, error } = pack_tokens(alloc, text)?;
    match error {
        Some(error) => Err(error),
        None => compile_packed(alloc, text, extras, is_checked, packed),
    }
}

/// Compiles a text without lexical errors from its packed tokens.
fn compile_packed(
    alloc: Global,
    text: &str,
    extras: Extras,
    is_checked: bool,
    packed: PackedTokens<'_>,
) -> Result<Vec<u8>, Error>
    requires short { length text.now < 2 ^ 32 }
    requires readable { AreReadable text.now (length packed.kept.items) packed.tokens.items }
    requires linked { AreLinked (draft_pieces text.now packed) packed.tokens.items }
    ensures { (r : Sections) → AnnotationsDefine text.now r →
        (tokens : List Token) → TextShows (plain text.now) no_names tokens None →
        draft_terminals text.now packed.entry ≡ map (terminal_of text.now) tokens →
        Compiles (wanted_by extras r) is_checked text.now tokens result }
{
    let PackedTokens { tokens, kept } = packed;
    compile_tokens(
        alloc,
        text,
        extras,
        is_checked,
        TokenStream::new(text, tokens, &kept),
    )
}

/// Compiles a text without lexical errors from its significant tokens.
fn compile_tokens(
    alloc: Global,
    text: &str,
    extras: Extras,
    is_checked: bool,
    source: TokenStream<'_>,
) -> Result<Vec<u8>, Error>
    requires { length text.now < 2 ^ 32 }
    ensures { (r : Sections) → AnnotationsDefine text.now r →
        (tokens : List Token) → TextShows (plain text.now) no_names tokens None →
        joined source.entry.terminals ≡ map (terminal_of text.now) tokens →
        Compiles (wanted_by extras r) is_checked text.now tokens result }
{
    wat_module_parser::laws::reading_is_grammar();
    let cursor = source.cursor();
    let name = module_name(cursor);
    match module::module(alloc, cursor) {
        Ok(fields) => {
            match check_valid(alloc, text, cursor, &fields, is_checked) {
                Ok(()) => {
                    // Fields borrow from the text and from the side table, but not from the packed
                    // tokens. These are freed before the bytes are allocated.
                    drop(source);
                    finish(alloc, text, name, fields, extras)
                }
                Err(error) => Err(error),
            }
        }
        Err(ParseFailure::Memory(refused)) => Err(Error::from(refused)),
        Err(ParseFailure::Text(fault)) => Err(fault_at(alloc, text, fault.kind, fault.left.len())),
    }
}

/// Returns the identifier of a module, which is after `(module`, if there is one.
fn module_name<'a>(cursor: TokenCursor<'_, 'a>) -> Name<'a>
    ensures { label result ≡ module_name (terminals_of cursor.entry) }
{
    match reading::after("module", cursor) {
        Some(rest) => reading::label(rest).0,
        None => Name::Absent,
    }
}

/// Returns the encoding of a module, with what `extras` names.
fn finish<'a>(
    alloc: Global,
    text: &str,
    name: Name<'a>,
    fields: Vec<fields::Field<'a>>,
    extras: Extras,
) -> Result<Vec<u8>, Error>
    requires { length text.now < 2 ^ 32 }
    ensures { (r : Sections) → AnnotationsDefine text.now r → Answers true (λ bytes. bytes.items)
        (finished (wanted_by extras r) text.now (label name.entry) (fields_of fields.entry.items))
        result }
{
    match extras {
        Extras::Nothing => bound_size(alloc, text, encode::module_bytes(alloc, &fields)?),
        Extras::Names => bound_size(alloc, text, named_bytes(alloc, name, &fields)?),
        Extras::Customs => complete(alloc, text, name, fields),
    }
}

/// Returns the encoding of a module, with its name section.
fn named_bytes(
    alloc: Global,
    name: Name<'_>,
    fields: &[fields::Field<'_>],
) -> Result<Vec<u8>, AllocError>
    ensures { IfOk result (λ bytes. bytes.items ≡
        named_bytes (label name.entry) (fields_of fields.now)) }
{
    let mut bytes = encode::module_bytes(alloc, fields)?;
    encode::put_name_section(alloc, &mut bytes, name, fields)?;
    Ok(bytes)
}

/// Returns the encoding of a module, with its name section and what the annotations of the text
/// define. Most texts have none: then a single search of the text suffices.
fn complete<'a>(
    alloc: Global,
    text: &str,
    name: Name<'a>,
    fields: Vec<fields::Field<'a>>,
) -> Result<Vec<u8>, Error>
    requires { length text.now < 2 ^ 32 }
    ensures { (r : Sections) → AnnotationsDefine text.now r → Answers true (λ bytes. bytes.items)
        (finished (Complete r) text.now (label name.entry) (fields_of fields.entry.items)) result }
{
    if !may_have(text, Sought::Either) {
        return bound_size(alloc, text, named_bytes(alloc, name, &fields)?);
    }
    let buffer = wat_module_custom::buffer(alloc, text);
    match wat_module_custom::custom_sections(alloc, &buffer) {
        Ok(customs) => match wat_module_annotations::names_of(alloc, &buffer) {
            Ok(names) => complete_with(alloc, text, name, fields, &names, &customs),
            Err(error) => Err(error),
        },
        Err(error) => Err(error),
    }
}

/// Returns the encoding of a module, with these names of annotations instead of identifiers, and
/// with these custom sections.
fn complete_with<'a>(
    alloc: Global,
    text: &str,
    name: Name<'a>,
    fields: Vec<fields::Field<'a>>,
    names: &'a ModuleNames<'_>,
    customs: &[sections::CustomSection<'_>],
) -> Result<Vec<u8>, Error>
    ensures { Answers true (λ bytes. bytes.items) (fitted text.now (complete_bytes
        (named_module (module_names_of names.now) (label name.entry))
        (named_fields (module_names_of names.now) (fields_of fields.entry.items))
        (map section_of customs.now))) result }
{
    let name = named(&names.of_module, name);
    let fields = renamed(alloc, &names.fields, fields)?;
    bound_size(
        alloc,
        text,
        encode::complete_bytes(alloc, name, &fields, customs)?,
    )
}

/// Returns the error for a syntax error with `left` remaining tokens. Lexes the text again: not
/// every packed token has its offset, and few texts have a syntax error.
fn fault_at(alloc: Global, text: &str, kind: FaultKind, left: usize) -> Error
    requires { length text.now < 2 ^ 32 }
    ensures { (tokens : List Token) → TextShows (plain text.now) no_names tokens None →
        IsUnlessMemory result
        (report_in text.now (messages.place text.now tokens left)
        (Custom (messages.message text.now tokens kind left))) }
{
    wat_lex::laws::one_tiling();
    wat_lexer_parser::laws::all_shown();
    match shown_tokens(alloc, text) {
        Ok(shown) => error_of(alloc, text, &shown.tokens, kind, left),
        Err(error) => error,
    }
}

/// Returns the bytes, or an error at offset 0 if there are more than `u32::MAX`.
fn bound_size(alloc: Global, text: &str, bytes: Vec<u8>) -> Result<Vec<u8>, Error>
    ensures { Answers true (λ out. out.items) (fitted text.now bytes.items) result }
{
    if (bytes.len() as u64) < 0x1_0000_0000 {
        return Ok(bytes);
    }
    let message = String::from_str(alloc, "module too long")?;
    Err(Error::parse(alloc, Span::from_offset(0), text, message))
}

/// Returns the error for a syntax error at the first of the last `left` tokens, or at the end of
/// the text if `left` is 0.
fn error_of(alloc: Global, text: &str, tokens: &[Token], kind: FaultKind, left: usize) -> Error
    requires { All (IsTokenOf text.now) tokens.now }
    ensures { IsUnlessMemory result
        (report_in text.now (messages.place text.now tokens.now left)
        (Custom (messages.message text.now tokens.now kind left))) }
{
    let offset = place(text, tokens, left);
    let first = Span::from_offset(place(text, tokens, first_of(kind))).linecol_in(text);
    let token = token_at(text, tokens, left);
    let near = suggested(text, suggestion(text, tokens, kind, left));
    let kind = kind_by(is_misplaced(text, token), kind);
    let next = token_at(text, tokens, left.saturating_sub(1));
    let found = found_token(text, token, next);
    let message = Message {
        kind,
        found,
        first,
        near,
    };
    match format!(in alloc; "{message}") {
        Ok(message) => Error::parse(alloc, Span::from_offset(offset), text, message),
        Err(refused) => Error::from(refused),
    }
}

/// Returns the first of the last `left` tokens of a text, or `None` if `left` is 0.
fn token_at(text: &str, tokens: &[Token], left: usize) -> Option<Token>
    requires { All (IsTokenOf text.now) tokens.now }
    ensures is { result ≡ messages.token_at tokens.now left }
    ensures readable { IfSome result (IsTokenOf text.now) }
{
    match tokens.get(tokens.len().saturating_sub(left)) {
        Some(token) => Some(*token),
        None => None,
    }
}

/// Returns the offset of the first of the last `left` tokens, or the length of the text if `left`
/// is 0.
pub(crate) fn place(text: &str, tokens: &[Token], left: usize) -> usize
    requires { All (IsTokenOf text.now) tokens.now }
    ensures { result ≡ messages.place text.now tokens.now left }
{
    match token_at(text, tokens, left) {
        Some(token) => token.offset,
        None => text.len(),
    }
}

/// Lemma (no effect): the annotations of a text define something, or have an error.
fn annotations_define(text: &str)
    ensures { (r : Sections) × AnnotationsDefine text.now r }
{
    wat_lex::laws::one_tiling();
}

/// Lemma (no effect): a text has a list of visible tokens, with or without a lexical error after
/// them.
fn has_tokens(text: &str)
    ensures { (tokens : List Token) × (last : Option Fault) ×
        TextShows (plain text.now) no_names tokens last }
{
    wat_lex::laws::one_tiling();
    wat_lexer_parser::laws::all_shown();
}
