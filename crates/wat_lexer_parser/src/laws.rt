//! Theorems about the visible tokens of every UTF-8 text, and about the replies of a parser to
//! calls.
//!
//! Each function except `blanked` has no effect: its contract is the theorem, for the proofs of
//! dependent crates.
ghost use Rattle.std.specs.Prelude.{◌≡◌, ◌+◌, length, IfOk, string_bytes};
ghost use Rattle.std.specs.Str.{IsCharBoundary};
ghost use Rattle.wat_lex.specs.tokens.Blanking.{blanked};
ghost use Rattle.wat_lexer_parser.specs.laws.CallLaws.{PeeksAndRejectedCalls};
ghost use Rattle.wat_lexer_parser.specs.laws.Blanking.{BlankingShowsTheSame, IsCommentOf};
ghost use Rattle.wat_lexer_parser.specs.laws.Blanking.{ShowTheSameWhereRaw};
ghost use Rattle.wat_lexer_parser.specs.laws.BlankTexts.{BlankTextsShowTheSame};
ghost use Rattle.wat_lexer_parser.specs.laws.Counting.{CountingShowsTheSame, PlainTokensAreShown};
ghost use Rattle.wat_lexer_parser.specs.laws.ShownLaws.{TailsAreRaw, GroupIsOne};
ghost use Rattle.wat_lexer_parser.specs.shown.Showing.{SomethingShown, OneThingShown};
ghost use Rattle.wat_lexer_parser.specs.laws.ShownLaws.{SomethingIsAllShown, AllShownIsOne};
ghost use Rattle.wat_lexer_parser.specs.laws.ShownLaws.{LooksAreAllShown};
ghost use Rattle.wat_lexer_parser.specs.laws.ShownLaws.{ShownIsTaken, MarksEndInFaults};
ghost use Rattle.wat_lexer_parser.specs.words.Idchars.{WordsAreIdchars};
ghost use Rattle.wat_words.specs.Words.{annotation_word, standard_word};

use std::alloc::{AllocError, Global};
use wat_lex::lexer::Token;

/// Theorem: the raw tokens from a position on are a maximal tiling of the text from the position's
/// byte offset on.
pub fn tails()
    ensures { TailsAreRaw }
{}

/// Theorem: the end of a group is unique.
pub fn groups()
    ensures { GroupIsOne }
{}

/// Theorem: at each position of a text there is a visible token, the end, or an error, and it is
/// unique: the result of the function `shown` of the definitions.
pub fn shown()
    ensures some { SomethingShown }
    ensures one { OneThingShown }
{
    wat_lex::laws::names();
    wat_lex::laws::tokens();
}

/// Theorem: the token visible at a position is the raw token directly before the position after it,
/// which is greater.
pub fn taken()
    ensures { ShownIsTaken }
{}

/// Theorem: if the last raw token of a text is a `(` directly followed by `@`, the text has a
/// lexical error after it.
pub fn marks()
    ensures { MarksEndInFaults }
{}

/// Theorem: from each position of a text on there is a unique list of visible tokens, followed by
/// the end or an error. Successive peeks yield its tokens one by one.
pub fn all_shown()
    ensures all_some { SomethingIsAllShown }
    ensures all_one { AllShownIsOne }
    ensures looks { LooksAreAllShown }
{
    shown();
}

/// Theorem: removing whitespace and comments from the raw tokens does not change the visible
/// tokens, so that a caller may store the significant tokens only. A significant token, unless it
/// is a `(` directly followed by `@`, is visible at its own position under every set of registered
/// names.
pub fn counting()
    ensures same { CountingShowsTheSame }
    ensures plain { PlainTokensAreShown }
{
    wat_lex::laws::tokens();
}

/// Theorem: each standard keyword and annotation name consists of idchars only, so that a text has
/// it unquoted.
pub fn words_are_idchars()
    ensures keywords { WordsAreIdchars standard_word }
    ensures annotations { WordsAreIdchars annotation_word }
{}

/// Theorem: peeks and failed calls have no effect on the other replies or on the final state.
pub fn calls()
    ensures { PeeksAndRejectedCalls }
{}

/// Theorem: overwriting a comment with spaces, tabs and line ends does not change the visible
/// tokens.
pub fn blanking()
    ensures { BlankingShowsTheSame }
{
    shown();
    all_shown();
    wat_lex::laws::blanks();
    wat_lex::laws::one_tiling();
    wat_lex::laws::tokens();
}

/// Theorem: in a text without lexical errors, overwriting all comments with spaces, except for
/// their line ends, keeps the length, the line ends and the visible tokens, and leaves no comment.
pub fn blank_texts()
    ensures { BlankTextsShowTheSame }
{
    blanking();
    wat_lex::laws::blanks();
    wat_lex::laws::tokens();
}

/// Returns a copy of the text with a space for each byte of `token`, which must be one of its
/// comments. The copy has the same length and the same visible tokens, even if the text has a
/// lexical error after the comment.
///
/// # Errors
///
/// Fails only if an allocation fails.
pub fn blanked(alloc: Global, text: &str, token: &Token) -> Result<String, AllocError>
    requires { IsCommentOf text.now token.now }
    ensures text { IfOk result (λ other. string_bytes other ≡ blanked text.now token.now) }
    ensures length { IfOk result (λ other. length (string_bytes other) ≡ length text.now) }
    ensures same { IfOk result (λ other. ShowTheSameWhereRaw token.now text.now
        (string_bytes other)) }
{
    wat_lex::laws::blanks();
    wat_lex::laws::tokens();
    blanking();
    overwritten(alloc, text, token)
}

/// Returns a copy of the text with a space for each byte of a token.
fn overwritten(alloc: Global, text: &str, token: &Token) -> Result<String, AllocError>
    requires first { IsCharBoundary text.now token.now.offset }
    requires last { IsCharBoundary text.now (token.now.offset + token.now.len) }
    ensures { IfOk result (λ other. string_bytes other ≡ blanked text.now token.now) }
{
    let end = token.offset + token.len as usize;
    let mut other = String::with_capacity(alloc, text.len())?;
    other.push_str(&text[..token.offset])?;
    for _ in 0..token.len {
        other.push(' ')?;
    }
    other.push_str(&text[end..])?;
    Ok(other)
}
