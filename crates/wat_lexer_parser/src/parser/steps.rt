//! Effects of raw tokens on a peek, for both kinds of sources.
ghost use Rattle.std.specs.Prelude.{◌≡◌, ◌<◌, ◌^◌, IsTrue, Some, Ok};
ghost use Rattle.wat_lex.specs.tokens.Blanks.{is_comment, is_space};
ghost use Rattle.wat_lex.specs.tokens.ReadableTokens.{IsTokenOf};
ghost use Rattle.wat_lex.specs.declared.lexer.kinds.TokenKind.TheVariants.{Annotation};
ghost use Rattle.wat_lexer_parser.specs.declared.parser.fault.FaultKind.TheVariants.{Lex};
ghost use Rattle.wat_lexer_parser.specs.declared.parser.fault.Step.TheVariants.{Refuse, Skip};
ghost use Rattle.wat_lexer_parser.specs.inside.ShownIn.{name_at, step_named};

use crate::parser::fault::{Fault, FaultKind, Step};
use crate::parser::names::Names;
use crate::parser::table::is_quoted;
use std::alloc::Global;
use wat_lex::lexer::{LexError, LexFault, Token, TokenKind};

/// Returns the error that a peek reports for a lexical error.
pub fn lexical(fault: LexFault) -> Fault
    ensures { result ≡ record { offset = fault.offset; kind = Lex fault.error } }
{
    Fault {
        offset: fault.offset,
        kind: FaultKind::Lex(fault.error),
    }
}

pub fn is_space(kind: TokenKind) -> bool
    ensures { result ≡ is_space kind }
{
    matches!(kind, TokenKind::Whitespace)
}

pub fn is_comment(kind: TokenKind) -> bool
    ensures { result ≡ is_comment kind }
{
    matches!(kind, TokenKind::LineComment | TokenKind::BlockComment)
}

/// Returns the effect of a `(` that is followed by an annotation of the given name.
pub fn step_by(name: &str, token: Token, names: &Names) -> Step
    ensures { result ≡ step_named names.now token (Some (Ok name.now)) }
{
    if names.is_registered(name) {
        Step::Take
    } else {
        Step::Skip
    }
}

/// Returns the effect of a `(` that is followed by an annotation with an invalid name: an error at
/// the annotation.
pub fn step_of_invalid_name(error: LexError, token: Token) -> Step
    ensures { result ≡ Refuse (record { offset = token.offset; kind = Lex error }) }
{
    Step::Refuse(Fault {
        offset: token.offset,
        kind: FaultKind::Lex(error),
    })
}

/// Returns `true` only if an annotation is skipped because its name is valid and no names are
/// registered. `false` does not imply the opposite.
pub fn is_unregistered(text: &str, token: Token, names: &Names) -> bool
    requires token { IsTokenOf text.now token }
    requires kind { token.kind ≡ Annotation }
    requires short { token.offset < 2 ^ 32 }
    ensures { IsTrue result → step_named names.now token (name_at text.now token) ≡ Skip }
{
    wat_lex::laws::names();
    wat_lex::laws::tokens();
    if !names.are_none() {
        return false;
    }
    // An unquoted name is valid if it is not empty; it need not be decoded.
    if is_quoted(text, token) {
        return token.name_fault(text).is_none();
    }
    token.len > 1
}

/// Returns the effect of a `(` that is followed by an annotation, by its name. Allocates only if
/// many names are registered and the name has an escape (`Names::has_name_of`).
pub fn step_annotation(alloc: Global, text: &str, token: Token, names: &Names) -> Step
    requires token { IsTokenOf text.now token }
    requires kind { token.kind ≡ Annotation }
    requires short { token.offset < 2 ^ 32 }
    ensures { result ≡ step_named names.now token (name_at text.now token) }
{
    if is_unregistered(text, token, names) {
        return Step::Skip;
    }
    match token.name_fault(text) {
        Some(error) => step_of_invalid_name(error, token),
        None => {
            if names.has_name_of(alloc, text, token) {
                Step::Take
            } else {
                Step::Skip
            }
        }
    }
}

/// Returns `true` if the group of an annotation is skipped. Allocates like [`step_annotation`].
#[inline(always)]
pub fn is_skipped_annotation(alloc: Global, text: &str, token: Token, names: &Names) -> bool
    requires token { IsTokenOf text.now token }
    requires kind { token.kind ≡ Annotation }
    requires short { token.offset < 2 ^ 32 }
    ensures { IsTrue result → step_named names.now token (name_at text.now token) ≡ Skip }
{
    if is_unregistered(text, token, names) {
        return true;
    }
    matches!(step_annotation(alloc, text, token, names), Step::Skip)
}
