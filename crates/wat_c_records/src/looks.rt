//! Peeking into the rows of a text under registered annotation names.
ghost use Rattle.std.specs.Prelude.{◌≡◌, ◌≤◌, ◌<◌, ◌+◌, ◌^◌, ◌⊎◌, length, Ok, Err, IfOk};
ghost use Rattle.wat_lex.specs.tokens.ReadableTokens.{IsTokenOf};
ghost use Rattle.wat_lex.specs.declared.lexer.kinds.TokenKind.TheVariants.{Annotation};
ghost use Rattle.wat_lexer_parser.specs.names.RegisteredNames.{is_registered};
ghost use Rattle.wat_lexer_parser.specs.places.Source.{Source};
ghost use Rattle.wat_c_records.specs.Looks.{Looks, LooksAsIntegers, names_of};
ghost use Rattle.wat_c_records.specs.inside.Naming.{
  IsWithin,
  NameMeans,
  annotation_of,
  is_between,
  reason_in_group,
  reason_at_end,
};
ghost use Rattle.wat_c_records.specs.inside.Steps.{IsStepWithin, Steps, step_by};
ghost use Rattle.wat_c_records.specs.Places.{AreRowsOf, RowsOf};

use crate::answers::{Look, NotVisible};
use crate::counting::Row;
use crate::links::row_at;
use std::alloc::{AllocError, Global};
use wat_lex::lexer::{Token, TokenKind};

/// Classification of an annotation by its name.
#[derive(Clone, Copy)]
enum NameMeaning {
    Registered,
    Other,
    Misnamed,
    Memory(AllocError),
}

/// Returns `true` if `start..end` is a range of `names`, and these bytes are the name.
fn is_between(names: &[u8], start: usize, end: usize, name: &[u8]) -> bool
    ensures { result ≡ is_between names.now start end name.now }
{
    start <= end && end <= names.len() && &names[start..end] == name
}

/// Returns `true` if the name is one of `names`. `ends` has the offset in `names` at which each
/// name ends and the next begins.
fn is_registered(name: &[u8], names: &[u8], ends: &[usize]) -> bool
    ensures { result ≡ is_registered (names_of names.now ends.now) name.now }
{
    let mut start = 0;
    for end in ends {
        if is_between(names, start, *end, name) {
            return true;
        }
        start = *end;
    }
    false
}

/// Returns whether the name of an annotation is registered, is another valid name, or is invalid.
/// Allocates only if the name contains an escape.
fn meaning_of(alloc: Global, text: &str, token: Token, names: &[u8], ends: &[usize]) -> NameMeaning
    requires token { IsTokenOf text.now token }
    requires kind { token.kind ≡ Annotation }
    ensures { NameMeans text.now token (names_of names.now ends.now) result }
{
    match token.name(alloc, text) {
        Ok(Ok(name)) => {
            if is_registered(name.as_str().as_bytes(), names, ends) {
                NameMeaning::Registered
            } else {
                NameMeaning::Other
            }
        }
        Ok(Err(_)) => NameMeaning::Misnamed,
        Err(refused) => NameMeaning::Memory(refused),
    }
}

/// Returns the token of a row, as an annotation.
fn annotation_of(row: Row) -> Token
    ensures { result ≡ annotation_of row }
{
    Token {
        kind: TokenKind::Annotation,
        offset: row.offset as usize,
        len: row.len,
    }
}

/// Returns the reason why no row is visible at the end of the rows: the end of the text if `why` is
/// 0, otherwise a lexical error.
fn reason_at_end(why: u32) -> NotVisible
    ensures { result ≡ reason_at_end why }
{
    if why == 0 {
        NotVisible::TextEnd
    } else {
        NotVisible::TextFault
    }
}

/// Returns the reason why no row is visible if the group that the row at `number` opens is not
/// closed: the end of the text inside the group if `why` is 0, otherwise a lexical error.
fn reason_in_group(why: u32, number: usize) -> NotVisible
    ensures { result ≡ reason_in_group why number }
{
    if why == 0 {
        NotVisible::Unclosed(number)
    } else {
        NotVisible::TextFault
    }
}

/// Result of one step of a peek.
#[derive(Clone, Copy)]
enum Step {
    /// The result of the peek.
    Answer(Result<usize, NotVisible>),
    /// The index of the row at which the peek continues.
    Skip(usize),
}

/// Performs the step of a peek at a `(` followed immediately by an annotation whose name has this
/// classification. `row` is the row of the `(`, at index `number`.
fn step_by(number: usize, row: Row, why: u32, meaning: NameMeaning) -> Step
    requires { number < 2 ^ 63 }
    ensures { result ≡ step_by number row why meaning }
{
    match meaning {
        NameMeaning::Registered => Step::Answer(Ok(number)),
        NameMeaning::Misnamed => Step::Answer(Err(NotVisible::Misnamed(number + 1))),
        NameMeaning::Memory(refused) => Step::Answer(Err(NotVisible::Memory(refused))),
        NameMeaning::Other if row.link == 0 => Step::Answer(Err(reason_in_group(why, number))),
        NameMeaning::Other => Step::Skip(row.link as usize),
    }
}

/// Performs the step of a peek at the row at index `number`.
// Inlined, as the code of most rows decides the result without a call.
#[inline(always)]
fn step_at(
    alloc: Global,
    text: &str,
    rows: &[Row],
    why: u32,
    number: usize,
    names: &[u8],
    ends: &[usize],
) -> Step
    requires short { length text.now < 2 ^ 32 }
    requires rows { RowsOf text.now rows.now why }
    ensures steps { (s : Source) → s.setting.text ≡ text.now → AreRowsOf s rows.now why →
        Steps s number (names_of names.now ends.now) result }
    ensures within { IsStepWithin (length rows.now) number result }
{
    wat_lex::laws::tokens();
    wat_lexer_parser::laws::shown();
    wat_lexer_parser::laws::counting();
    let Some(row) = row_at(rows, number) else {
        return Step::Answer(Err(reason_at_end(why)));
    };
    if row.kind.code != 16 {
        return Step::Answer(Ok(number));
    }
    let Some(word) = row_at(rows, number + 1) else {
        return Step::Answer(Err(reason_at_end(why)));
    };
    if word.kind.code != 9 {
        return Step::Answer(Ok(number));
    }
    let meaning = meaning_of(alloc, text, annotation_of(word), names, ends);
    step_by(number, row, why, meaning)
}

/// Returns the index of the first row, from `place` on, that is visible under the registered names.
/// All rows are visible except those of annotations with an unregistered name. `names` contains the
/// names one after another, and `ends[i]` is the offset at which name `i` ends. `why` is 0 if the
/// text ends after the rows, otherwise the code of the lexical error there. Allocates only if the
/// name of an annotation contains an escape.
///
/// # Errors
///
/// Returns the reason if no row is visible: the end of the text, a lexical error, an annotation
/// that is not closed or whose name is invalid, or an allocation failure.
pub fn look_at(
    alloc: Global,
    text: &str,
    rows: &[Row],
    why: u32,
    place: usize,
    names: &[u8],
    ends: &[usize],
) -> Result<usize, NotVisible>
    requires short { length text.now < 2 ^ 32 }
    requires rows { RowsOf text.now rows.now why }
    ensures looks { (s : Source) → s.setting.text ≡ text.now → AreRowsOf s rows.now why →
        Looks s place (names_of names.now ends.now) result }
    ensures within { IsWithin (length rows.now) result }
{
    let mut number = place;
    'rows: loop {
        match step_at(alloc, text, rows, why, number, names, ends) {
            Step::Answer(answer) => return answer,
            Step::Skip(next) => number = next,
        }
    }
}

/// Returns the result of [`look_at`] as integers.
pub fn look_as_integers(
    alloc: Global,
    text: &str,
    rows: &[Row],
    why: u32,
    place: usize,
    names: &[u8],
    ends: &[usize],
) -> Look
    requires short { length text.now < 2 ^ 32 }
    requires few { length rows.now < 2 ^ 32 }
    requires rows { RowsOf text.now rows.now why }
    ensures { (s : Source) → s.setting.text ≡ text.now → AreRowsOf s rows.now why →
        LooksAsIntegers s (length rows.now) place (names_of names.now ends.now) result }
{
    Look::of(
        look_at(alloc, text, rows, why, place, names, ends),
        rows.len(),
    )
}
