//! Theorems about formatted texts, and about whitespace between tokens, for every UTF-8 text and
//! all settings. The functions have no effect; the contract of each is a theorem for the proofs of
//! dependent crates.
ghost use Rattle.wat_format.specs.Laws.{EachTextIsAnswered, LayoutsAreOne, LayoutsHaveNoFault};
ghost use Rattle.wat_format.specs.Laws.{LayoutsAreUtf8, LayoutsKeepTokens, LayoutsStay};
ghost use Rattle.wat_format.specs.Spaces.{GapsAreExact, MarksGoByGaps};

/// Theorem: each text has either one formatted text or a lexical error.
pub fn one_answer()
    ensures some { EachTextIsAnswered }
    ensures one { LayoutsAreOne }
    ensures no_fault { LayoutsHaveNoFault }
{
    wat_lex::laws::one_tiling();
}

/// Theorem: the raw tokens of a formatted text are those of the text, in order, with the same kinds
/// and bytes, except for whitespace. Its whitespace has no space directly before a line feed. A
/// formatted text is UTF-8.
pub fn kept_tokens()
    ensures tokens { LayoutsKeepTokens }
    ensures utf8 { LayoutsAreUtf8 }
{
    wat_lex::laws::one_tiling();
    wat_lex::laws::tokens();
}

/// Theorem: formatting is idempotent. A formatted text is its own formatted text.
pub fn formatted_again()
    ensures { LayoutsStay }
{
    wat_lex::laws::tokens();
}

/// Theorem: tokens with whitespace between them are lexed as these tokens if and only if each gap
/// is legal. The gaps also determine which parentheses are followed immediately by `@`.
pub fn gaps()
    ensures exact { GapsAreExact }
    ensures marked { MarksGoByGaps }
{
    wat_lex::laws::tokens();
}
