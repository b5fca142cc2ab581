//! Messages of syntax errors.
ghost use Rattle.std.specs.Prelude.{◌≡◌, IfSome};
ghost use Rattle.std.specs.List.{list_any};
ghost use Rattle.std.specs.Str.{chars};
ghost use Rattle.wat_lex.specs.tokens.ReadableTokens.{IsTokenOf};
ghost use Rattle.wat_modules.specs.Messages as messages;
ghost use Rattle.wat_modules.specs.Views.{found_of, named_of, suggestion_of};

use std::fmt;
use wat_lexer_parser::lexer::{Token, TokenKind};
use wat_lexer_parser::token::Span;
use wat_module_ast::error::{Expected, FaultKind, Range, Space};

/// Maximum length in bytes of a lexeme in a message.
const LONGEST: u32 = 40;

/// The message of a syntax error.
#[derive(Clone, Copy)]
pub(crate) struct Message<'t> {
    /// Kind of the error.
    pub(crate) kind: FaultKind,
    /// Token in error.
    pub(crate) found: Found<'t>,
    /// Line and column, both from 0, of the first of two tokens, if the error has two.
    pub(crate) first: (usize, usize),
    /// Identifier that the message suggests for the token in error.
    pub(crate) near: Suggestion<'t>,
}

/// The token in error, as a message has it.
#[derive(Clone, Copy)]
pub(crate) enum Found<'t> {
    /// The lexeme of the token, and the keyword after it if it is the `(` of a group, otherwise an
    /// empty text.
    Lexeme(&'t str, &'t str),
    /// The kind of the token, whose lexeme messages do not have.
    Kind(TokenKind),
    /// The end of the text.
    End,
}

/// The identifier that a message suggests for the one in error: the nearest one in scope, or the
/// label of a block.
#[derive(Clone, Copy)]
pub(crate) enum Suggestion<'t> {
    /// The lexeme of the identifier, and its line and column, both from 0.
    Name(&'t str, (usize, usize)),
    /// No identifier, or one whose lexeme messages do not have.
    Absent,
}

/// Returns the token in error, which the token `next` follows, as a message has it.
pub(crate) fn found_token<'t>(text: &'t str, token: Option<Token>, next: Option<Token>) -> Found<'t>
    requires token { IfSome token (IsTokenOf text.now) }
    requires next { IfSome next (IsTokenOf text.now) }
    ensures found { found_of result ≡ messages.found text.now token next }
    ensures named { named_of result ≡ messages.named text.now token }
{
    match token {
        Some(token) => {
            if is_quotable(text, token) {
                Found::Lexeme(token.src(text), keyword_after(text, token.kind, next))
            } else {
                Found::Kind(token.kind)
            }
        }
        None => Found::End,
    }
}

/// Returns what a message has after the lexeme of a token of this kind, which the token `next`
/// follows: the keyword of a group after its `(`, and otherwise an empty text.
fn keyword_after<'t>(text: &'t str, kind: TokenKind, next: Option<Token>) -> &'t str
    requires { IfSome next (IsTokenOf text.now) }
    ensures { result.now ≡ messages.keyword_after text.now kind next }
{
    match kind {
        TokenKind::LParen => keyword_of(text, next),
        _ => "",
    }
}

/// Returns the lexeme of a token, if it is a keyword and messages have its lexeme. Otherwise
/// returns an empty text.
fn keyword_of<'t>(text: &'t str, token: Option<Token>) -> &'t str
    requires { IfSome token (IsTokenOf text.now) }
    ensures { result.now ≡ messages.keyword_of text.now token }
{
    match token {
        Some(token) => match token.kind {
            TokenKind::Keyword => quotable(text, token),
            _ => "",
        },
        None => "",
    }
}

/// Returns the lexeme of a token if messages have it, and otherwise an empty text.
fn quotable<'t>(text: &'t str, token: Token) -> &'t str
    requires { IsTokenOf text.now token }
    ensures { result.now ≡ messages.quotable text.now token }
{
    if is_quotable(text, token) {
        token.src(text)
    } else {
        ""
    }
}

/// Returns an identifier as a message suggests it, or nothing if messages do not have its lexeme.
pub(crate) fn suggested<'t>(text: &'t str, token: Option<Token>) -> Suggestion<'t>
    requires { IfSome token (IsTokenOf text.now) }
    ensures { suggestion_of result ≡ messages.suggested text.now token }
{
    match token {
        Some(token) if is_quotable(text, token) => {
            let location = Span::from_offset(token.offset).linecol_in(text);
            Suggestion::Name(token.src(text), location)
        }
        _ => Suggestion::Absent,
    }
}

/// Returns `true` if messages have the lexeme of a token.
pub(crate) fn is_quotable(text: &str, token: Token) -> bool
    requires { IsTokenOf text.now token }
    ensures { result ≡ messages.is_quotable text.now token }
{
    match token.kind {
        TokenKind::String => false,
        _ => token.len <= LONGEST && !has_unprintable(token.src(text)),
    }
}

/// Returns `true` if a text has a character that no message has.
fn has_unprintable(text: &str) -> bool
    ensures { result ≡ list_any messages.is_unprintable (chars text.now) }
{
    for c in text.chars() {
        if is_unprintable(c) {
            return true;
        }
    }
    false
}

/// Returns `true` for control characters, and for the 9 confusing characters, which make a text
/// display misleadingly.
fn is_unprintable(c: char) -> bool
    ensures { result ≡ messages.is_unprintable c }
{
    c.is_control()
        || matches!(
            c,
            '\u{202a}'
                | '\u{202b}'
                | '\u{202d}'
                | '\u{202e}'
                | '\u{2066}'
                | '\u{2067}'
                | '\u{2068}'
                | '\u{2069}'
                | '\u{206c}'
        )
}

/// Returns the kind of an error in its message: a keyword that the grammar has is not unknown, but
/// unexpected.
pub(crate) fn kind_by(is_misplaced: bool, kind: FaultKind) -> FaultKind
    ensures { result ≡ messages.kind_by is_misplaced kind }
{
    match kind {
        FaultKind::UnknownWord(expected) => {
            if is_misplaced {
                FaultKind::Unexpected(expected)
            } else {
                kind
            }
        }
        _ => kind,
    }
}

/// Returns `true` if a token is a keyword that the grammar uses elsewhere.
pub(crate) fn is_misplaced(text: &str, token: Option<Token>) -> bool
    requires { IfSome token (IsTokenOf text.now) }
    ensures { result ≡ messages.is_misplaced text.now token }
{
    match token {
        Some(token) => is_keyword(token.src(text)),
        None => false,
    }
}

/// Returns `true` for the keywords that are unexpected, and not unknown, if they are in error.
fn is_keyword(word: &str) -> bool
    ensures { result ≡ messages.is_keyword word.now }
{
    word == "end"
        || word == "else"
        || word == "then"
        || word == "param"
        || word == "result"
        || word == "local"
        || word == "type"
        || word == "func"
        || word == "import"
        || word == "export"
}

/// Returns the number of tokens from the first of two on, if the error has two, and otherwise 0.
pub(crate) fn first_of(kind: FaultKind) -> usize
    ensures { result ≡ messages.first_of kind }
{
    match kind {
        FaultKind::Duplicate(_, left)
        | FaultKind::SecondStart(left)
        | FaultKind::LateImport(left) => left,
        _ => 0,
    }
}

impl fmt::Display for Message<'_> {
    ghost use Rattle.std.specs.Prelude.{Some};
    ghost use Rattle.wat_modules.specs.Messages.{location, message_by};
    ghost use Rattle.wat_modules.specs.Views.{found_of, named_of, suggestion_of};

    ghost output = { λ m. Some (message_by m.kind (found_of m.found) (named_of m.found)
        (location m.first) (suggestion_of m.near)) };

    fn fmt<W: fmt::Write>(&self, f: &mut fmt::Formatter<W>) -> fmt::Result {
        let named = Named(self.found);
        let first = Location(self.first);
        match self.kind {
            FaultKind::Unexpected(expected) => {
                write!(f, "expected {}, found {}", phrase(expected), self.found)
            }
            FaultKind::UnknownWord(expected) => {
                write!(f, "unknown {}{named}", word_noun(expected))
            }
            FaultKind::UnknownName(space) => {
                write!(f, "unknown {}{named}{}", noun(space), self.near)
            }
            FaultKind::WrongLabel => write!(f, "mismatching label{named}{}", self.near),
            FaultKind::OutOfRange(range) => {
                let values = Values(range);
                write!(
                    f,
                    "number out of range: expected {values}, found {}",
                    self.found
                )
            }
            FaultKind::NotUtf8 => write!(f, "name is not UTF-8"),
            FaultKind::Duplicate(space, _) => {
                write!(
                    f,
                    "duplicate {}{named}, first defined at {first}",
                    noun(space)
                )
            }
            FaultKind::SecondStart(_) => {
                write!(f, "duplicate start function, first defined at {first}")
            }
            FaultKind::OtherType => {
                write!(f, "parameters or results differ from those of type{named}")
            }
            FaultKind::LateImport(_) => {
                write!(f, "import after the first definition, which is at {first}")
            }
        }
    }
}

impl fmt::Display for Found<'_> {
    ghost use Rattle.std.specs.Prelude.{Some};
    ghost use Rattle.wat_modules.specs.Views.{found_of};

    ghost output = { λ t. Some (found_of t) };

    fn fmt<W: fmt::Write>(&self, f: &mut fmt::Formatter<W>) -> fmt::Result {
        match self {
            Found::Lexeme(lexeme, keyword) => write!(f, "`{lexeme}{keyword}`"),
            Found::Kind(kind) => write!(f, "{}", kind_phrase(*kind)),
            Found::End => write!(f, "the end of the text"),
        }
    }
}

/// The token in error after a noun.
#[derive(Clone, Copy)]
struct Named<'t>(Found<'t>);

impl fmt::Display for Named<'_> {
    ghost use Rattle.std.specs.Prelude.{Some};
    ghost use Rattle.wat_modules.specs.Views.{named_of};

    ghost output = { λ n. Some (named_of n.0) };

    fn fmt<W: fmt::Write>(&self, f: &mut fmt::Formatter<W>) -> fmt::Result {
        match self.0 {
            Found::Lexeme(lexeme, _) => write!(f, " `{lexeme}`"),
            Found::Kind(_) | Found::End => Ok(()),
        }
    }
}

impl fmt::Display for Suggestion<'_> {
    ghost use Rattle.std.specs.Prelude.{Some};
    ghost use Rattle.wat_modules.specs.Views.{suggestion_of};

    ghost output = { λ s. Some (suggestion_of s) };

    fn fmt<W: fmt::Write>(&self, f: &mut fmt::Formatter<W>) -> fmt::Result {
        match self {
            Suggestion::Name(lexeme, at) => {
                let location = Location(*at);
                write!(f, "; did you mean `{lexeme}` at {location}?")
            }
            Suggestion::Absent => Ok(()),
        }
    }
}

/// A line and a column, both from 0. They are written from 1.
#[derive(Clone, Copy)]
struct Location((usize, usize));

impl fmt::Display for Location {
    ghost use Rattle.std.specs.Prelude.{Some};
    ghost use Rattle.wat_modules.specs.Messages.{location};

    ghost output = { λ l. Some (location l.0) };

    fn fmt<W: fmt::Write>(&self, f: &mut fmt::Formatter<W>) -> fmt::Result {
        let (line, column) = self.0;
        write!(
            f,
            "line {}, column {}",
            line as u128 + 1,
            column as u128 + 1
        )
    }
}

/// The values of a range.
#[derive(Clone, Copy)]
struct Values(Range);

impl fmt::Display for Values {
    ghost use Rattle.std.specs.Prelude.{Some};
    ghost use Rattle.wat_modules.specs.Messages.{range_phrase};

    ghost output = { λ v. Some (range_phrase v.0) };

    fn fmt<W: fmt::Write>(&self, f: &mut fmt::Formatter<W>) -> fmt::Result {
        match self.0 {
            Range::Unsigned(half) => {
                write!(f, "0 to {}", (u128::from(half) * 2).saturating_sub(1))
            }
            Range::Signed(half) => write!(f, "-{half} to {}", half.saturating_sub(1)),
            Range::Float32 => write!(f, "a 32-bit float"),
            Range::Float64 => write!(f, "a 64-bit float"),
        }
    }
}

/// Returns a token by its kind.
fn kind_phrase(kind: TokenKind) -> &'static str
    ensures { result.now ≡ messages.kind_phrase kind }
{
    match kind {
        TokenKind::String => "a string",
        TokenKind::Id => "an identifier",
        TokenKind::Keyword => "a keyword",
        TokenKind::Integer(_) => "an integer",
        TokenKind::Float(_) => "a float",
        TokenKind::Reserved => "a reserved token",
        TokenKind::Annotation => "an annotation",
        _ => "a token",
    }
}

/// Returns an item of an index space.
fn noun(space: Space) -> &'static str
    ensures { result.now ≡ messages.noun space }
{
    match space {
        Space::Type => "type",
        Space::Func => "function",
        Space::Table => "table",
        Space::Memory => "memory",
        Space::Global => "global",
        Space::Elem => "element segment",
        Space::Data => "data segment",
        Space::Local => "local",
        Space::Label => "label",
    }
}

/// Returns an index of an index space.
fn index_phrase(space: Space) -> &'static str
    ensures { result.now ≡ messages.index_phrase space }
{
    match space {
        Space::Type => "a type index",
        Space::Func => "a function index",
        Space::Table => "a table index",
        Space::Memory => "a memory index",
        Space::Global => "a global index",
        Space::Elem => "an element segment index",
        Space::Data => "a data segment index",
        Space::Local => "a local index",
        Space::Label => "a label index",
    }
}

/// Returns what the grammar accepts.
fn phrase(expected: Expected) -> &'static str
    ensures { result.now ≡ messages.phrase expected }
{
    match expected {
        Expected::Close => "`)`",
        Expected::OpenOrClose => "`(` or `)`",
        Expected::End => "the end of the text",
        Expected::Field => "a module field",
        Expected::FieldOrClose => "a module field or `)`",
        Expected::FieldOrEnd => "a module field or the end of the text",
        Expected::Instruction => "an instruction",
        Expected::InstructionOrClose => "an instruction or `)`",
        Expected::InstructionOrEnd => "an instruction or `end`",
        Expected::InstructionElseOrEnd => "an instruction, `else` or `end`",
        Expected::Then => "a folded instruction or `(then`",
        Expected::Else => "`else`",
        Expected::ElseOrClose => "`(else` or `)`",
        Expected::Expression => "an expression",
        Expected::ExpressionOrClose => "an expression or `)`",
        Expected::ValueType => "a value type",
        Expected::ValueTypeOrClose => "a value type or `)`",
        Expected::VariableOrClose => "an identifier, a value type or `)`",
        Expected::ReferenceType => "a reference type",
        Expected::HeapType => "a heap type",
        Expected::GlobalType => "a global type",
        Expected::GlobalDefinition => "a global type, `(export` or `(import`",
        Expected::Mut => "`mut`",
        Expected::FunctionType => "`(func`",
        Expected::TypeUseOrClose => "`(type`, `(param`, `(result` or `)`",
        Expected::ParamOrResultOrClose => "`(param`, `(result` or `)`",
        Expected::ResultOrClose => "`(result` or `)`",
        Expected::Limits => "limits",
        Expected::MemoryDefinition => "limits, `(data`, `(export` or `(import`",
        Expected::TableDefinition => "limits, a reference type, `(export` or `(import`",
        Expected::MaximumOrClose => "a maximum or `)`",
        Expected::MaximumOrReferenceType => "a maximum or a reference type",
        Expected::Index(space) => index_phrase(space),
        Expected::FunctionOrClose => "a function index or `)`",
        Expected::Unsigned => "an unsigned integer",
        Expected::Integer => "an integer of at most 64 bits",
        Expected::Number => "a number",
        Expected::LaneIndex => "a lane index",
        Expected::Shape => "a vector shape",
        Expected::Text => "a string",
        Expected::TextOrClose => "a string or `)`",
        Expected::DataSegment => "`(memory`, an offset, a string or `)`",
        Expected::ItemKind => "`func`, `table`, `memory` or `global`",
        Expected::ExportDescription => "an export description",
        Expected::ImportDescription => "an import description",
        Expected::Elem => "`(elem`",
        Expected::ElementList => "a reference type or `func`",
        Expected::ElementListOrFunction => "a reference type, `func`, a function index or `)`",
        Expected::ElementOrClose => "a function index, an expression or `)`",
        Expected::ElementSegment => "`(table`, an offset, `declare`, a reference type or `func`",
    }
}

/// Returns what an unknown keyword should be, without an article.
fn word_noun(expected: Expected) -> &'static str
    ensures { result.now ≡ messages.word_noun expected }
{
    match expected {
        Expected::Field => "module field",
        Expected::Instruction
        | Expected::InstructionOrClose
        | Expected::InstructionOrEnd
        | Expected::InstructionElseOrEnd => "instruction",
        Expected::ValueType
        | Expected::ValueTypeOrClose
        | Expected::VariableOrClose
        | Expected::GlobalType
        | Expected::GlobalDefinition => "value type",
        Expected::ReferenceType | Expected::TableDefinition | Expected::MaximumOrReferenceType =>
            "reference type",
        Expected::HeapType => "heap type",
        Expected::Shape => "vector shape",
        _ => "keyword",
    }
}
