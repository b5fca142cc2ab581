//! Theorems about the lexical format, for every UTF-8 text and all settings. The functions have no
//! effect: the contract of each is its theorem, which proofs in other crates can use.
ghost use Rattle.wat_lex.specs.tokens.Blanking.{BlanksAreSpace, BlanksAreText, CommentsStay};
ghost use Rattle.wat_lex.specs.tokens.EverySetting.{ScanResultExists, ScanResultIsUnique};
ghost use Rattle.wat_lex.specs.tokens.EverySetting.{EachBoundaryHasTiling, TilingsAreUnique};
ghost use Rattle.wat_lex.specs.tokens.EverySetting.{TokensOfCuts};
ghost use Rattle.wat_lex.specs.tokens.EverySetting.{TokensOfMoves, TokensAreReadable};
ghost use Rattle.wat_lex.specs.tokens.EverySetting.{TokensEndAtBoundaries, WordsOfTokens};
ghost use Rattle.wat_lex.specs.tokens.EverySetting.{NamesExist};
ghost use Rattle.wat_lex.specs.tokens.EverySetting.{NamesAreUnique, NamesAreValues};
ghost use Rattle.wat_lex.specs.tokens.EverySetting.{StringsAreValues};
ghost use Rattle.wat_lex.specs.tokens.EverySetting.{CutsAreOne};

/// Theorem: at each character boundary there is exactly one of a token, the end of the text, and a
/// lexical error.
pub fn one_answer()
    ensures some { ScanResultExists }
    ensures one { ScanResultIsUnique }
{}

/// Theorem: at each character boundary begins exactly one maximal tiling.
pub fn one_tiling()
    ensures some { EachBoundaryHasTiling }
    ensures one { TilingsAreUnique }
{}

/// Theorem: the raw tokens of a prefix of a text are the first raw tokens of the text. The last
/// token of the prefix is excepted, unless the prefix ends in a lexical error.
pub fn cuts()
    ensures { TokensOfCuts }
{}

/// Theorem: raw tokens are independent of the start offset. Those from a character boundary on are
/// those of the text that begins there, with their offsets moved.
pub fn moves()
    ensures { TokensOfMoves }
{}

/// Theorem: if a comment is overwritten with whitespace bytes, one whitespace token replaces the
/// comment and the whitespace next to it. All other raw tokens keep their texts, the lexical error
/// or end of the text stays the same, and the new text is UTF-8 of the same length.
pub fn blanks()
    ensures tokens { BlanksAreSpace }
    ensures text { BlanksAreText }
    ensures looser { CommentsStay }
{}

/// Theorem: readers accept every token of a tiling, and see its lexeme. Each token ends at a
/// character boundary.
pub fn tokens()
    ensures readable { TokensAreReadable }
    ensures boundary { TokensEndAtBoundaries }
    ensures word { WordsOfTokens }
{}

/// Theorem: the lexeme of an identifier or an annotation has exactly one name, or exactly one error
/// about its name, and `name_value` returns it.
pub fn names()
    ensures some { NamesExist }
    ensures one { NamesAreUnique }
    ensures value { NamesAreValues }
{}

/// Theorem: the lexeme of a string has exactly one value, and `string_value` returns it.
pub fn strings()
    ensures { StringsAreValues }
{}

/// Theorem: the lexeme of a floating-point number splits into its parts in at most one way.
pub fn floats()
    ensures { CutsAreOne }
{}
