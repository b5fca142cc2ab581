//! Parses plain instructions, their immediates, keywords, indices and labels.
ghost use Rattle.std.specs.Prelude.{◌≡◌, ◌<◌, ◌^◌, [], ◌∷◌, IfOk, IfSome, None, Ok, Err, Some};
ghost use Rattle.std.specs.Prelude.{length, MatchOption, MatchResult};
ghost use Rattle.wat_module_ast.specs.Grammar.{after, after_word, end_label, f32, f64, heap_of};
ghost use Rattle.wat_module_ast.specs.Grammar.{heap_type, i32, i64, immediate_of, index, is_else};
ghost use Rattle.wat_module_ast.specs.Grammar.{is_end, is_then, label_of, labels_by, labels_from};
ghost use Rattle.wat_module_ast.specs.Grammar.{opcode_of, plain, position, reference_type};
ghost use Rattle.wat_module_ast.specs.Grammar.{signed, structured, value_type, with_f32};
ghost use Rattle.wat_module_ast.specs.Grammar.{with_f64, with_index, with_labels, with_zero};
ghost use Rattle.wat_module_tokens.specs.TokenCursor.{terminals_of};
ghost use Rattle.wat_module_ast.specs.declared.error.Space.TheVariants as spaces;
ghost use Rattle.wat_module_instructions.specs.Machine.{labels_in};
ghost use Rattle.wat_module_ast.specs.Branches.{branches};
ghost use Rattle.wat_module_instructions.specs.Parts.{Faults, IsLabel, IsMemory, NoLabel, ReadsAs};
ghost use Rattle.wat_module_instructions.specs.Parts.{identifiers_of, ReadsExactly, SkipsExactly};
ghost use Rattle.wat_module_instructions.specs.Parts.{scope_of};
ghost use Rattle.wat_module_tokens.specs.Terminals.{Word, label};

use crate::faults::{fault, integer_range, unexpected};
use crate::frame::Frames;
use crate::names::IndexedNames;
use crate::{floats, memory, table_arguments, uses, vector_arguments};
use std::alloc::Global;
use wat_module_ast::branches::BranchTable;
use wat_module_ast::error::{Expected, Fault, FaultKind, ParseFailure, Range, Space};
use wat_module_ast::instruction::{Argument, Instruction, Opcode, ReferenceType, ValueType};
use wat_module_ast::table::{self, Immediate};
use wat_module_ast::types::FunctionType;
use wat_module_tokens::stream::TokenCursor;
use wat_module_tokens::token::{DecodedToken, Name, Sign};

/// Context of instructions: the types of the module, and the identifiers of the items of each index
/// space, in the order of their indices.
#[derive(Clone, Copy)]
pub struct Scope<'s, 'n> {
    /// Identifiers of the types.
    pub type_names: &'s IndexedNames<'n>,
    /// Types by their indices. Empty if they are not known.
    pub types: &'s [FunctionType],
    /// `true` if the index of a type use is looked up in `types`. If `false`, any 32-bit integer
    /// and any identifier in `type_names` is accepted as a type index.
    pub are_types_known: bool,
    /// Identifiers of the parameters and local variables of a function.
    pub locals: &'s IndexedNames<'n>,
    /// Identifiers of the functions.
    pub funcs: &'s IndexedNames<'n>,
    /// Identifiers of the tables.
    pub tables: &'s IndexedNames<'n>,
    /// Identifiers of the memories.
    pub memories: &'s IndexedNames<'n>,
    /// Identifiers of the global variables.
    pub globals: &'s IndexedNames<'n>,
    /// Identifiers of the element segments.
    pub elems: &'s IndexedNames<'n>,
    /// Identifiers of the data segments.
    pub datas: &'s IndexedNames<'n>,
}

/// The identifiers that may be written for an index: those of the items of an index space, or the
/// labels of the open frames.
#[derive(Clone, Copy)]
enum Identifiers<'s, 'n> {
    Items(&'s IndexedNames<'n>),
    Labels(&'s Frames<'n>),
}

/// Returns the index of the first item, or of the innermost label, with this identifier, or `None`.
fn position(among: Identifiers<'_, '_>, name: &str) -> Option<usize>
    ensures { result ≡ position 0 name.now (identifiers_of among.entry) }
{
    match among {
        Identifiers::Items(names) => names.position(name),
        Identifiers::Labels(frames) => frames.position(name),
    }
}

/// Parses an index: an unsigned 32-bit integer, or one of these identifiers. `space` is the index
/// space, for errors.
fn index_among<'p, 'a>(
    space: Space,
    among: Identifiers<'_, '_>,
    cursor: TokenCursor<'p, 'a>,
) -> Result<(usize, TokenCursor<'p, 'a>), Fault<'p, 'a>>
    ensures { ReadsExactly (λ v. v)
        (index space (identifiers_of among.entry) (terminals_of cursor.entry)) result }
{
    match cursor.first() {
        Some((DecodedToken::Integer(Sign::Absent, n), rest)) => {
            if n < 0x1_0000_0000 {
                Ok((n as usize, rest))
            } else {
                Err(fault(FaultKind::OutOfRange(Range::Unsigned(0x8000_0000)), cursor))
            }
        }
        Some((DecodedToken::Id(name), rest)) => match position(among, name) {
            Some(n) => Ok((n, rest)),
            None => Err(fault(FaultKind::UnknownName(space), cursor)),
        },
        Some((DecodedToken::Integer(_, _), _)) => Err(unexpected(Expected::Unsigned, cursor)),
        _ => Err(unexpected(Expected::Index(space), cursor)),
    }
}

/// Parses the index of an item: an unsigned 32-bit integer, or the item's identifier. `space` is
/// the index space, for errors.
pub fn index<'p, 'a>(
    space: Space,
    names: &IndexedNames<'_>,
    cursor: TokenCursor<'p, 'a>,
) -> Result<(usize, TokenCursor<'p, 'a>), Fault<'p, 'a>>
    ensures { ReadsExactly (λ v. v) (index space names.now (terminals_of cursor.entry)) result }
{
    index_among(space, Identifiers::Items(names), cursor)
}

/// Parses the index of a label: an unsigned 32-bit integer, or the label's identifier.
fn label_number<'p, 'a>(
    frames: &Frames<'_>,
    cursor: TokenCursor<'p, 'a>,
) -> Result<(usize, TokenCursor<'p, 'a>), Fault<'p, 'a>>
    ensures { ReadsExactly (λ v. v)
        (index spaces.Label (labels_in frames.now) (terminals_of cursor.entry)) result }
{
    index_among(Space::Label, Identifiers::Labels(frames), cursor)
}

/// Parses the index of an item as an immediate.
fn name_argument<'p, 'a>(
    space: Space,
    names: &IndexedNames<'_>,
    cursor: TokenCursor<'p, 'a>,
) -> Result<(Argument, TokenCursor<'p, 'a>), Fault<'p, 'a>>
    ensures { ReadsExactly (λ v. v) (with_index (index space names.now (terminals_of cursor.entry)))
        result }
{
    let (n, rest) = index(space, names, cursor)?;
    Ok((Argument::Index(n), rest))
}

/// Parses the index of an item as an immediate that has a zero byte after it in the binary format.
fn name_and_zero<'p, 'a>(
    space: Space,
    names: &IndexedNames<'_>,
    cursor: TokenCursor<'p, 'a>,
) -> Result<(Argument, TokenCursor<'p, 'a>), Fault<'p, 'a>>
    ensures { ReadsExactly (λ v. v) (with_zero (index space names.now (terminals_of cursor.entry)))
        result }
{
    let (n, rest) = index(space, names, cursor)?;
    Ok((Argument::IndexZero(n), rest))
}

/// Parses the index of a label as an immediate.
fn label_argument<'p, 'a>(
    frames: &Frames<'_>,
    cursor: TokenCursor<'p, 'a>,
) -> Result<(Argument, TokenCursor<'p, 'a>), Fault<'p, 'a>>
    ensures { ReadsExactly (λ v. v)
        (with_index (index spaces.Label (labels_in frames.now) (terminals_of cursor.entry)))
        result }
{
    let (n, rest) = label_number(frames, cursor)?;
    Ok((Argument::Index(n), rest))
}

/// The last label parsed in a `br_table`, and the remaining tokens.
#[derive(Clone, Copy)]
struct LastLabel<'p, 'a> {
    label: usize,
    cursor: TokenCursor<'p, 'a>,
}

/// Parses the labels of `br_table`, at least one. The last is the default.
fn labels_argument<'p, 'a>(
    alloc: Global,
    frames: &Frames<'_>,
    cursor: TokenCursor<'p, 'a>,
) -> Result<(Argument, TokenCursor<'p, 'a>), ParseFailure<'p, 'a>>
    ensures { ReadsAs (λ v. v)
        (labels_by (labels_in frames.now)
        (index spaces.Label (labels_in frames.now) (terminals_of cursor.entry)))
        result }
{
    let (label, cursor) = label_number(frames, cursor)?;
    let mut labels = Vec::new(alloc);
    let mut last = LastLabel { label, cursor };
    'labels: loop {
        match next_label(frames, &mut labels, last) {
            Ok(Some(next)) => {
                last = next;
            }
            Ok(None) => return branch_table(alloc, labels, last),
            Err(refusal) => return Err(refusal),
        }
    }
}

/// Returns the immediate of `br_table` with these labels and this default, and the remaining
/// tokens.
fn branch_table<'p, 'a>(
    alloc: Global,
    labels: Vec<usize>,
    last: LastLabel<'p, 'a>,
) -> Result<(Argument, TokenCursor<'p, 'a>), ParseFailure<'p, 'a>>
    ensures { MatchResult result
        (λ r.
        with_labels
        (Ok (branches labels.items last.entry.label, terminals_of last.entry.cursor)) ≡
        Ok (r.0, terminals_of r.1))
        IsMemory }
{
    let table = BranchTable::new(alloc, labels, last.label)?;
    Ok((Argument::Labels(table), last.cursor))
}

/// Parses another label of `br_table`, and appends the previous one to `labels`. Returns `None` if
/// the next token is neither an integer nor an identifier.
#[tactic(auto, unfolding(wat_module_ast::specs::Grammar::labels_from))]
fn next_label<'p, 'a>(
    frames: &Frames<'_>,
    labels: &mut Vec<usize>,
    last: LastLabel<'p, 'a>,
) -> Result<Option<LastLabel<'p, 'a>>, ParseFailure<'p, 'a>>
    ensures is { MatchResult result
        (λ o. MatchOption o
        (NoLabel (labels_in frames.now) last.entry.label
        (terminals_of last.entry.cursor) labels.old.items labels.new.items)
        (λ l. IsLabel (labels_in frames.now) last.entry.label
        (terminals_of last.entry.cursor) labels.old.items labels.new.items l.label
        (terminals_of l.cursor)))
        (λ e. Faults
        (labels_from (labels_in frames.now) last.entry.label
        (terminals_of last.entry.cursor))
        e) }
    ensures shorter { IfOk result (λ o. IfSome o (λ l. length (terminals_of l.cursor) <
        length (terminals_of last.entry.cursor))) }
{
    match last.cursor.first() {
        Some((DecodedToken::Integer(_, _) | DecodedToken::Id(_), _)) => {
            let (label, cursor) = label_number(frames, last.cursor)?;
            labels.push(last.label)?;
            Ok(Some(LastLabel { label, cursor }))
        }
        _ => Ok(None),
    }
}

/// Returns the signed 32-bit value of an integer, or `None` if the integer is out of range. An
/// integer without a sign may also be an unsigned 32-bit value, which is reinterpreted.
fn signed_32(sign: Sign, size: u64) -> Option<i32>
    ensures { result ≡ signed (2 ^ 31) sign size }
{
    match sign {
        Sign::Absent => {
            if size < 0x8000_0000 {
                Some(size as i32)
            } else if size < 0x1_0000_0000 {
                Some((size as i64 - 0x1_0000_0000) as i32)
            } else {
                None
            }
        }
        Sign::Plus => {
            if size < 0x8000_0000 {
                Some(size as i32)
            } else {
                None
            }
        }
        Sign::Minus => {
            if size <= 0x8000_0000 {
                Some((-(size as i64)) as i32)
            } else {
                None
            }
        }
    }
}

/// Parses the immediate of `i32.const`.
fn number_32<'p, 'a>(
    cursor: TokenCursor<'p, 'a>,
) -> Result<(Argument, TokenCursor<'p, 'a>), Fault<'p, 'a>>
    ensures { ReadsExactly (λ v. v) (i32 (terminals_of cursor.entry)) result }
{
    match cursor.first() {
        Some((DecodedToken::Integer(sign, size), rest)) => match signed_32(sign, size) {
            Some(n) => Ok((Argument::I32(n), rest)),
            None => Err(fault(
                FaultKind::OutOfRange(integer_range(0x8000_0000, sign)),
                cursor,
            )),
        },
        _ => Err(unexpected(Expected::Integer, cursor)),
    }
}

/// Returns the signed 64-bit value of an integer, or `None` if the integer is out of range. An
/// integer without a sign may also be an unsigned 64-bit value, which is reinterpreted.
fn signed_64(sign: Sign, size: u64) -> Option<i64>
    ensures { result ≡ signed (2 ^ 63) sign size }
{
    match sign {
        Sign::Absent => {
            if size < 0x8000_0000_0000_0000 {
                Some(size as i64)
            } else {
                Some((size as i128 - 0x1_0000_0000_0000_0000) as i64)
            }
        }
        Sign::Plus => {
            if size < 0x8000_0000_0000_0000 {
                Some(size as i64)
            } else {
                None
            }
        }
        Sign::Minus => {
            if size <= 0x8000_0000_0000_0000 {
                Some((-(size as i128)) as i64)
            } else {
                None
            }
        }
    }
}

/// Parses the immediate of `i64.const`.
fn number_64<'p, 'a>(
    cursor: TokenCursor<'p, 'a>,
) -> Result<(Argument, TokenCursor<'p, 'a>), Fault<'p, 'a>>
    ensures { ReadsExactly (λ v. v) (i64 (terminals_of cursor.entry)) result }
{
    match cursor.first() {
        Some((DecodedToken::Integer(sign, size), rest)) => match signed_64(sign, size) {
            Some(n) => Ok((Argument::I64(n), rest)),
            None => {
                let range = integer_range(0x8000_0000_0000_0000, sign);
                Err(fault(FaultKind::OutOfRange(range), cursor))
            }
        },
        _ => Err(unexpected(Expected::Integer, cursor)),
    }
}

/// Parses the immediate of `f32.const`.
fn float_32<'p, 'a>(
    alloc: Global,
    cursor: TokenCursor<'p, 'a>,
) -> Result<(Argument, TokenCursor<'p, 'a>), ParseFailure<'p, 'a>>
    ensures { ReadsAs (λ v. v) (with_f32 (f32 (terminals_of cursor.entry))) result }
{
    let (bits, rest) = floats::float_32(alloc, cursor)?;
    Ok((Argument::F32(bits), rest))
}

/// Parses the immediate of `f64.const`.
fn float_64<'p, 'a>(
    alloc: Global,
    cursor: TokenCursor<'p, 'a>,
) -> Result<(Argument, TokenCursor<'p, 'a>), ParseFailure<'p, 'a>>
    ensures { ReadsAs (λ v. v) (with_f64 (f64 (terminals_of cursor.entry))) result }
{
    let (bits, rest) = floats::float_64(alloc, cursor)?;
    Ok((Argument::F64(bits), rest))
}

/// Returns the reference type of a heap type's keyword, or `None` for any other keyword.
fn heap_type(word: &str) -> Option<ReferenceType>
    ensures { result ≡ heap_type word.now }
{
    if word == "func" {
        Some(ReferenceType::Func)
    } else if word == "extern" {
        Some(ReferenceType::Extern)
    } else {
        None
    }
}

/// Parses the heap type of `ref.null`.
fn heap_argument<'p, 'a>(
    cursor: TokenCursor<'p, 'a>,
) -> Result<(Argument, TokenCursor<'p, 'a>), Fault<'p, 'a>>
    ensures { ReadsExactly (λ v. v) (heap_of (terminals_of cursor.entry)) result }
{
    match cursor.first() {
        Some((DecodedToken::Word(word), rest)) => match heap_type(word) {
            Some(of) => Ok((Argument::HeapType(of), rest)),
            None => Err(fault(FaultKind::UnknownWord(Expected::HeapType), cursor)),
        },
        _ => Err(unexpected(Expected::HeapType, cursor)),
    }
}

/// Parses the immediates of this kind.
fn immediate<'p, 'a>(
    alloc: Global,
    scope: &Scope<'_, '_>,
    frames: &Frames<'_>,
    kind: Immediate,
    cursor: TokenCursor<'p, 'a>,
) -> Result<(Argument, TokenCursor<'p, 'a>), ParseFailure<'p, 'a>>
    ensures { ReadsAs (λ v. v)
        (immediate_of (scope_of scope.now) (labels_in frames.now) kind
        (terminals_of cursor.entry))
        result }
{
    match kind {
        Immediate::No => Ok((Argument::Nothing, cursor)),
        Immediate::Local => Ok(name_argument(Space::Local, scope.locals, cursor)?),
        Immediate::Label => Ok(label_argument(frames, cursor)?),
        Immediate::Labels => labels_argument(alloc, frames, cursor),
        Immediate::Func => Ok(name_argument(Space::Func, scope.funcs, cursor)?),
        Immediate::Indirect => uses::indirect_call(alloc, scope, cursor),
        Immediate::Global => Ok(name_argument(Space::Global, scope.globals, cursor)?),
        Immediate::I32 => Ok(number_32(cursor)?),
        Immediate::I64 => Ok(number_64(cursor)?),
        Immediate::F32 => float_32(alloc, cursor),
        Immediate::F64 => float_64(alloc, cursor),
        Immediate::Memory(natural) => Ok(memory::argument(natural, cursor)),
        Immediate::Zero => Ok((Argument::Zero, cursor)),
        Immediate::HeapType => Ok(heap_argument(cursor)?),
        Immediate::Select => uses::select_types(alloc, cursor),
        Immediate::Zeros => Ok((Argument::Zeros, cursor)),
        Immediate::Data => Ok(name_argument(Space::Data, scope.datas, cursor)?),
        Immediate::MemoryInit => Ok(name_and_zero(Space::Data, scope.datas, cursor)?),
        Immediate::Elem => Ok(name_argument(Space::Elem, scope.elems, cursor)?),
        Immediate::Table => Ok(table_arguments::table(scope.tables, cursor)?),
        Immediate::TableCopy => table_arguments::copy(alloc, scope.tables, cursor),
        Immediate::TableInit => table_arguments::init(alloc, scope.tables, scope.elems, cursor),
        Immediate::Lane => Ok(vector_arguments::lane(cursor)?),
        Immediate::MemoryLane(natural) => Ok(vector_arguments::memory_lane(natural, cursor)?),
        Immediate::Shuffle => vector_arguments::shuffle(alloc, cursor),
        Immediate::Vector => vector_arguments::constant(alloc, cursor),
    }
}

/// Returns the opcode of an instruction with these immediates: 0x1C for a `select` with a group
/// `(result ..)`, even an empty one, otherwise the opcode of its keyword.
fn opcode_of(opcode: Opcode, argument: &Argument) -> Opcode
    ensures { result ≡ opcode_of opcode argument.now }
{
    match argument {
        Argument::Select(_) => Opcode::Byte(0x1C),
        Argument::Nothing
        | Argument::Index(_)
        | Argument::Labels(_)
        | Argument::I32(_)
        | Argument::I64(_)
        | Argument::F32(_)
        | Argument::F64(_)
        | Argument::Indirect(_)
        | Argument::Block(_)
        | Argument::BlockUse(_)
        | Argument::Memory(_, _)
        | Argument::Zero
        | Argument::HeapType(_)
        | Argument::Zeros
        | Argument::IndexZero(_)
        | Argument::Pair(_)
        | Argument::Lane(_)
        | Argument::MemoryLane(_, _, _)
        | Argument::Bytes(_) => opcode,
    }
}

/// Parses a plain instruction: its keyword and its immediates.
#[tactic(auto, unfolding(wat_module_ast::specs::Grammar::plain))]
pub fn plain<'p, 'a>(
    alloc: Global,
    scope: &Scope<'_, '_>,
    frames: &Frames<'_>,
    cursor: TokenCursor<'p, 'a>,
) -> Result<(Instruction, TokenCursor<'p, 'a>), ParseFailure<'p, 'a>>
    ensures { ReadsAs (λ v. v)
        (plain (scope_of scope.now) (labels_in frames.now) (terminals_of cursor.entry))
        result }
{
    match cursor.first() {
        Some((DecodedToken::Word(word), rest)) => match table::find(word) {
            Some(row) => {
                let (argument, rest) = immediate(alloc, scope, frames, row.immediate, rest)?;
                let opcode = opcode_of(row.opcode, &argument);
                Ok((Instruction { opcode, argument }, rest))
            }
            None => {
                let kind = FaultKind::UnknownWord(Expected::Instruction);
                Err(ParseFailure::Text(fault(kind, cursor)))
            }
        },
        _ => Err(ParseFailure::Text(unexpected(Expected::Instruction, cursor))),
    }
}

/// Returns the tokens after `(` and a keyword, or `None` if the tokens do not begin with these.
pub fn after<'p, 'a>(word: &str, cursor: TokenCursor<'p, 'a>) -> Option<TokenCursor<'p, 'a>>
    ensures is { MatchOption result
        (after word.now (terminals_of cursor.entry) ≡ None)
        (λ r. after word.now (terminals_of cursor.entry) ≡ Some (terminals_of r)) }
    ensures shorter { IfSome result (λ r. length (terminals_of r) <
        length (terminals_of cursor.entry)) }
{
    match cursor.first() {
        Some((DecodedToken::Open, rest)) => after_word(word, rest),
        _ => None,
    }
}

/// Returns the tokens after a keyword, or `None` if the tokens do not begin with it.
fn after_word<'p, 'a>(word: &str, cursor: TokenCursor<'p, 'a>) -> Option<TokenCursor<'p, 'a>>
    ensures is { MatchOption result
        (after_word word.now (terminals_of cursor.entry) ≡ None)
        (λ r. after_word word.now (terminals_of cursor.entry) ≡ Some (terminals_of r)) }
    ensures shorter { IfSome result (λ r. length (terminals_of r) <
        length (terminals_of cursor.entry)) }
{
    match cursor.first() {
        Some((DecodedToken::Word(of), rest)) => { if of == word { Some(rest) } else { None } }
        _ => None,
    }
}

/// Parses an optional identifier: the label of a structured instruction, or the name of a field.
pub fn label<'p, 'a>(cursor: TokenCursor<'p, 'a>) -> (Name<'a>, TokenCursor<'p, 'a>)
    ensures name { label result.0 ≡ (label_of (terminals_of cursor.entry)).0 }
    ensures rest { terminals_of result.1 ≡ (label_of (terminals_of cursor.entry)).1 }
{
    match cursor.first() {
        Some((DecodedToken::Id(name), rest)) => (Name::Given(name), rest),
        _ => (Name::Absent, cursor),
    }
}

/// Skips the optional label after `end` or `else`. Returns `WrongLabel` if it is not the label of
/// the block.
pub fn end_label<'p, 'a>(
    name: Name<'_>,
    cursor: TokenCursor<'p, 'a>,
) -> Result<TokenCursor<'p, 'a>, Fault<'p, 'a>>
    ensures { SkipsExactly (end_label (label name.entry) (terminals_of cursor.entry)) result }
{
    match cursor.first() {
        Some((DecodedToken::Id(given), rest)) => {
            if name.is(given) {
                Ok(rest)
            } else {
                Err(fault(FaultKind::WrongLabel, cursor))
            }
        }
        _ => Ok(cursor),
    }
}

/// Returns the opcode of `block`, `loop` or `if`, or `None` for any other keyword.
pub fn structured(word: &str) -> Option<u8>
    ensures { result ≡ structured word.now }
{
    if word == "block" {
        Some(0x02)
    } else if word == "loop" {
        Some(0x03)
    } else if word == "if" {
        Some(0x04)
    } else {
        None
    }
}

/// Returns `true` if the keyword is `end`.
pub fn is_end(word: &str) -> bool
    ensures { result ≡ is_end word.now }
{
    word == "end"
}

/// Returns `true` if the keyword is `else`.
pub fn is_else(word: &str) -> bool
    ensures { result ≡ is_else word.now }
{
    word == "else"
}

/// Returns `true` if the keyword is `then`.
pub fn is_then(word: &str) -> bool
    ensures { result ≡ is_then word.now }
{
    word == "then"
}

/// Returns the reference type of `funcref` or `externref`, or `None` for any other keyword.
pub fn reference_type(word: &str) -> Option<ReferenceType>
    ensures { result ≡ reference_type word.now }
{
    if word == "funcref" {
        Some(ReferenceType::Func)
    } else if word == "externref" {
        Some(ReferenceType::Extern)
    } else {
        None
    }
}

/// Returns the value type of a keyword, or `None` if the keyword is not a value type.
pub fn value_type(word: &str) -> Option<ValueType>
    ensures { result ≡ value_type word.now }
{
    if word == "i32" {
        Some(ValueType::I32)
    } else if word == "i64" {
        Some(ValueType::I64)
    } else if word == "f32" {
        Some(ValueType::F32)
    } else if word == "f64" {
        Some(ValueType::F64)
    } else if word == "v128" {
        Some(ValueType::V128)
    } else {
        match reference_type(word) {
            Some(of) => Some(ValueType::Reference(of)),
            None => None,
        }
    }
}
