//! Constructors of syntax errors.
ghost use Rattle.std.specs.Prelude.{◌≡◌};
ghost use Rattle.wat_module_ast.specs.Grammar as grammar;
ghost use Rattle.wat_module_ast.specs.declared.error.FaultKind.TheVariants.{Unexpected};

use wat_module_ast::error::{Expected, Fault, FaultKind, Range};
use wat_module_tokens::stream::TokenCursor;
use wat_module_tokens::token::Sign;

/// Returns a syntax error of this kind at the first of these tokens.
pub fn fault<'p, 'a>(kind: FaultKind, cursor: TokenCursor<'p, 'a>) -> Fault<'p, 'a>
    ensures { (result.kind ≡ kind) × (result.left ≡ cursor.entry) }
{
    Fault { kind, left: cursor }
}

/// Returns the syntax error for a token that no rule of the grammar accepts here, or for the end of
/// the text. `expected` is accepted here.
pub fn unexpected<'p, 'a>(expected: Expected, cursor: TokenCursor<'p, 'a>) -> Fault<'p, 'a>
    ensures { (result.kind ≡ Unexpected expected) × (result.left ≡ cursor.entry) }
{
    fault(FaultKind::Unexpected(expected), cursor)
}

/// Returns the range of an integer with this sign. `half` is the value of the highest bit.
pub(crate) fn integer_range(half: u64, sign: Sign) -> Range
    ensures { result ≡ grammar.integer_range half sign }
{
    match sign {
        Sign::Absent => Range::Unsigned(half),
        Sign::Plus | Sign::Minus => Range::Signed(half),
    }
}
