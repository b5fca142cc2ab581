//! The errors of a module's parser.
ghost use Rattle.std.specs.Prelude.{◌≡◌};
ghost use Rattle.wat_module_ast.specs.declared.error.FaultKind.TheVariants.{Unexpected};

use std::alloc::{AllocError, AllocFailed};
use wat_module_tokens::stream::TokenCursor;

/// An index space: those of a module, the locals of a function, and the labels of open blocks.
#[derive(Clone, Copy)]
pub enum Space {
    /// Types.
    Type,
    /// Functions.
    Func,
    /// Tables.
    Table,
    /// Memories.
    Memory,
    /// Global variables.
    Global,
    /// Element segments.
    Elem,
    /// Data segments.
    Data,
    /// Parameters and local variables of a function.
    Local,
    /// Labels of open blocks, the innermost first.
    Label,
}

/// A token, or the beginning of a rule of the grammar, that is accepted at a token in error.
#[derive(Clone, Copy)]
pub enum Expected {
    /// `)`.
    Close,
    /// `(` or `)`.
    OpenOrClose,
    /// The end of the text.
    End,
    /// A field of a module, after its `(`.
    Field,
    /// A field of a module, or the `)` of the module.
    FieldOrClose,
    /// A field of a module, or the end of the text.
    FieldOrEnd,
    /// An instruction.
    Instruction,
    /// An instruction, or the `)` of its group.
    InstructionOrClose,
    /// An instruction, or the `end` of its block.
    InstructionOrEnd,
    /// An instruction, or the `else` or `end` of an `if`.
    InstructionElseOrEnd,
    /// `(then`.
    Then,
    /// `else`, after `(`.
    Else,
    /// `(else`, or the `)` of a folded `if`.
    ElseOrClose,
    /// An instruction in parentheses, or an expression with its keyword in parentheses.
    Expression,
    /// Another expression of a list, or the `)` of the list.
    ExpressionOrClose,
    /// A value type.
    ValueType,
    /// A value type, or the `)` of its group.
    ValueTypeOrClose,
    /// The identifier of a parameter or local, a value type, or the `)` of the group.
    VariableOrClose,
    /// A reference type.
    ReferenceType,
    /// A heap type.
    HeapType,
    /// A value type, or `(mut`.
    GlobalType,
    /// A value type, `(mut`, or an inline export or import of a global.
    GlobalDefinition,
    /// `mut`, after `(`.
    Mut,
    /// `(func`.
    FunctionType,
    /// A type index, parameters, results, or the `)` of an imported function.
    TypeUseOrClose,
    /// Parameters, results, or the `)` of a function type.
    ParamOrResultOrClose,
    /// Results, or the `)` of a function type.
    ResultOrClose,
    /// The minimum of limits.
    Limits,
    /// Limits, inline data, or an inline export or import of a memory.
    MemoryDefinition,
    /// Limits, a reference type, or an inline export or import of a table.
    TableDefinition,
    /// The maximum of limits, or the `)` of a memory.
    MaximumOrClose,
    /// The maximum of limits, or the reference type of a table.
    MaximumOrReferenceType,
    /// An index, or an identifier, of an item of an index space.
    Index(Space),
    /// A function index, or the `)` of a list of function indices.
    FunctionOrClose,
    /// An integer without a sign.
    Unsigned,
    /// An integer.
    Integer,
    /// An integer or a floating-point number.
    Number,
    /// The index of a lane.
    LaneIndex,
    /// The shape of a vector.
    Shape,
    /// A string.
    Text,
    /// A string, or the `)` of a list of strings.
    TextOrClose,
    /// The memory use or offset of a data segment, a string, or the `)` of the segment.
    DataSegment,
    /// The keyword of an index space whose items can be imported and exported.
    ItemKind,
    /// The description of an export.
    ExportDescription,
    /// The description of an import.
    ImportDescription,
    /// `(elem`.
    Elem,
    /// A reference type, or `func`.
    ElementList,
    /// A reference type, `func`, a function index, or the `)` of an element segment.
    ElementListOrFunction,
    /// A function index, an expression, or the `)` of a list of elements.
    ElementOrClose,
    /// The table use or offset of an element segment, `declare`, a reference type, or `func`.
    ElementSegment,
}

/// The values that a number may have.
#[derive(Clone, Copy)]
pub enum Range {
    /// Integers from 0 to twice this number, exclusive.
    Unsigned(u64),
    /// Integers from minus this number, inclusive, to this number, exclusive.
    Signed(u64),
    /// Floating-point numbers of 32 bits.
    Float32,
    /// Floating-point numbers of 64 bits.
    Float64,
}

/// Kind of a syntax error.
#[derive(Clone, Copy)]
pub enum FaultKind {
    /// A token that no rule of the grammar accepts here, or the end of the text.
    Unexpected(Expected),
    /// A keyword that is not one of those accepted here, such as an unknown instruction or type.
    UnknownWord(Expected),
    /// An identifier that no item of an index space has, or a type index that is out of range.
    UnknownName(Space),
    /// A label after `end` or `else` that is not the label of its block.
    WrongLabel,
    /// A number that its type cannot represent.
    OutOfRange(Range),
    /// A name that is not UTF-8.
    NotUtf8,
    /// An identifier that an earlier item of its index space has. The number is that of the tokens
    /// from the identifier of the earlier item on.
    Duplicate(Space, usize),
    /// A second start function. The number is that of the tokens from the keyword of the first on.
    SecondStart(usize),
    /// A type use that lists a type other than the one at its index.
    OtherType,
    /// An import after a definition. The number is that of the tokens from the keyword of the
    /// first definition on.
    LateImport(usize),
}

/// A syntax error.
#[derive(Clone, Copy)]
pub struct Fault<'p, 'a> {
    /// Kind of the error.
    pub kind: FaultKind,
    /// Remaining tokens, which begin with the one in error. None remain at the end of the text.
    pub left: TokenCursor<'p, 'a>,
}

/// Reason for a failed parse.
#[derive(Clone, Copy)]
pub enum ParseFailure<'p, 'a> {
    /// A syntax error in the text.
    Text(Fault<'p, 'a>),
    /// An allocation failure.
    Memory(AllocError),
}

impl<'p, 'a> From<AllocError> for ParseFailure<'p, 'a> {
    ghost use Rattle.std.specs.Prelude.{◌≡◌};
    ghost use Rattle.wat_module_ast.specs.declared.error.ParseFailure.TheVariants.{Memory};

    ghost from_gives = { λ e r. r ≡ Memory e };

    fn from(refused: AllocError) -> ParseFailure<'p, 'a> {
        ParseFailure::Memory(refused)
    }
}

impl<'p, 'a, T: Drop> From<AllocFailed<T>> for ParseFailure<'p, 'a> {
    ghost use Rattle.std.specs.Prelude.{◌≡◌, alloc_error};
    ghost use Rattle.wat_module_ast.specs.declared.error.ParseFailure.TheVariants.{Memory};

    ghost from_gives = { λ _ r. r ≡ Memory alloc_error };

    fn from(failed: AllocFailed<T>) -> ParseFailure<'p, 'a> {
        ParseFailure::Memory(AllocError::from(failed))
    }
}

impl<'p, 'a> From<Fault<'p, 'a>> for ParseFailure<'p, 'a> {
    ghost use Rattle.std.specs.Prelude.{◌≡◌};
    ghost use Rattle.wat_module_ast.specs.declared.error.ParseFailure.TheVariants.{Text};

    ghost from_gives = { λ f r. r ≡ Text f };

    fn from(fault: Fault<'p, 'a>) -> ParseFailure<'p, 'a> {
        ParseFailure::Text(fault)
    }
}
