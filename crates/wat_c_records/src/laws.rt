//! Theorems about rows. The functions have no effect; the contract of each is a theorem.
ghost use Rattle.std.specs.Prelude.{ℕ};
ghost use Rattle.wat_lex.specs.tokens.Setting.{Setting};
ghost use Rattle.wat_c_records.specs.Counting.{OneFillCounting};
ghost use Rattle.wat_c_records.specs.Pieces.{
  PiecesAreRows,
  PiecesTellTokens,
  PlainRowsAreShown,
  RowsTellTokens,
};
ghost use Rattle.wat_c_records.specs.Rows.{OneFill};

/// Theorem: the rows of the tokens from an offset are unique, and so are their count, the offset at
/// which they stop, and the reason.
pub fn one_fill()
    ensures { (s : Setting) (from room : ℕ) → OneFill s from room }
{
    wat_lex::laws::one_answer();
}

/// Theorem: the rows of the significant tokens from an offset are unique, and so are their count,
/// the offset at which they stop, and the reason.
pub fn one_fill_counting()
    ensures { (s : Setting) (from room : ℕ) → OneFillCounting s from room }
{
    wat_lex::laws::one_answer();
}

/// Theorem: rows that several calls fill, each from the offset at which the call before it stopped,
/// are the rows of the whole text once they are linked. With other links, they still tell its
/// significant tokens, and each of these rows tells one.
pub fn rows_of_a_text()
    ensures rows { PiecesAreRows }
    ensures unlinked { PiecesTellTokens }
    ensures tokens { RowsTellTokens }
{
    wat_lex::laws::tokens();
}

/// Theorem: a row is visible to a peek at its index, under every set of names, unless it is a `(`
/// followed immediately by `@`.
pub fn plain_rows()
    ensures { PlainRowsAreShown }
{
    wat_lexer_parser::laws::shown();
    wat_lexer_parser::laws::counting();
}
