//! Theorems about the results of the readers. The functions have no effect; the contract of each is
//! a theorem.
ghost use Rattle.std.specs.Prelude.{ℕ, Bool, List};
ghost use Rattle.std.specs.Float.Ieee.{Format};
ghost use Rattle.wat_lex.specs.tokens.Setting.{Setting};
ghost use Rattle.wat_lex.specs.declared.lexer.kinds.Token.{Token};
ghost use Rattle.wat_c_records.specs.declared.counting.Row.{Row};
ghost use Rattle.wat_c.specs.Answers.{OneAnswer};
ghost use Rattle.wat_c.specs.ByRow.{FindsOf};
ghost use Rattle.wat_c.specs.CommentPlaces.{CommentsAreOne, CommentsAreParsers};
ghost use Rattle.wat_c.specs.Compiling.{Compiles, OneCheck};
ghost use Rattle.wat_c.specs.FaultMessages.{FaultsAreKnown};
ghost use Rattle.wat_c.specs.FloatBits.{FindsBits, OneBits, TellsBits};
ghost use Rattle.wat_c.specs.FloatSpans.{OneParts};
ghost use Rattle.wat_c.specs.Formatting.{Formats};
ghost use Rattle.wat_c.specs.Printing.{Prints};
ghost use Rattle.wat_c.specs.Readings.{
  Finds,
  FindsFault,
  IsString,
  IsNamed,
  IsInteger,
  IsFloat,
};
ghost use Rattle.wat_c.specs.Readings.{ReadsString, ReadsName, ReadsInteger, ReadsFloat};
ghost use Rattle.wat_c.specs.Readings.{ReadsNameFault};
ghost use Rattle.wat_c.specs.Words.{OneWord};

/// Theorem: the result of each reader at an offset is unique, unless an allocation fails: the
/// status, the length and the contents of the buffer.
pub fn one_answer()
    ensures strings { (s : Setting) (p : ℕ) (old : List ℕ) →
        OneAnswer (Finds IsString ReadsString s p) old }
    ensures names { (s : Setting) (p : ℕ) (old : List ℕ) →
        OneAnswer (Finds IsNamed ReadsName s p) old }
    ensures name_faults { (s : Setting) (p : ℕ) (old : List ℕ) →
        OneAnswer (Finds IsNamed ReadsNameFault s p) old }
    ensures integers { (s : Setting) (p : ℕ) (old : List ℕ) →
        OneAnswer (Finds IsInteger ReadsInteger s p) old }
    ensures floats { (s : Setting) (p part : ℕ) (old : List ℕ) →
        OneAnswer (Finds IsFloat (ReadsFloat part) s p) old }
    ensures faults { (s : Setting) (p : ℕ) (old : List ℕ) → OneAnswer (FindsFault s p) old }
{
    wat_lex::laws::one_answer();
    wat_lex::laws::strings();
    wat_lex::laws::names();
    wat_lex::laws::floats();
}

/// Theorem: the result of each reader of a row is unique, unless an allocation fails: the status,
/// the length and the contents of the buffer.
pub fn one_answer_of_row()
    ensures strings { (text : List ℕ) (row : Row) (old : List ℕ) →
        OneAnswer (FindsOf IsString ReadsString text row) old }
    ensures names { (text : List ℕ) (row : Row) (old : List ℕ) →
        OneAnswer (FindsOf IsNamed ReadsName text row) old }
    ensures integers { (text : List ℕ) (row : Row) (old : List ℕ) →
        OneAnswer (FindsOf IsInteger ReadsInteger text row) old }
    ensures floats { (text : List ℕ) (row : Row) (part : ℕ) (old : List ℕ) →
        OneAnswer (FindsOf IsFloat (ReadsFloat part) text row) old }
{
    wat_lex::laws::strings();
    wat_lex::laws::names();
    wat_lex::laws::floats();
}

/// Theorem: the range that `wat_word` returns for a token is unique.
pub fn one_word()
    ensures { (text : List ℕ) (t : Token) → OneWord text t }
{
    wat_lex::laws::strings();
    wat_lex::laws::names();
}

/// Theorem: the bits of a number token are unique, unless an allocation fails, and so are those of
/// the number at an offset.
pub fn one_bits()
    ensures of_row { (format : Format) (text : List ℕ) (t : Token) →
        OneBits (TellsBits format text t) }
    ensures at_offset { (format : Format) (s : Setting) (p : ℕ) → OneBits (FindsBits format s p) }
{
    wat_lex::laws::one_answer();
}

/// Theorem: the ranges that `wat_float_parts` returns for a token are unique.
pub fn one_parts()
    ensures { (text : List ℕ) (t : Token) → OneParts text t }
{
    wat_lex::laws::floats();
}

/// Theorem: each error whose characters are Unicode scalar values is determined by its code, the
/// character found and the character required.
pub fn faults_are_known()
    ensures { FaultsAreKnown }
{}

/// Theorem: the comment that `wat_comment` returns for an offset is unique, and a parser at this
/// offset finds the same comment.
pub fn comments_are_parsers()
    ensures one { CommentsAreOne }
    ensures parsers { CommentsAreParsers }
{
    wat_lex::laws::one_answer();
}

/// Theorem: the formatted text of an error is unique, unless an allocation fails.
pub fn one_print()
    ensures { (text message file : List ℕ) (offset : ℕ) (old : List ℕ) →
        OneAnswer (Prints text offset message file) old }
{}

/// Theorem: the binary of a text is unique, unless an allocation fails: the status, the length and
/// the contents of the buffer.
pub fn one_binary()
    ensures { (has_names : Bool) (text : List ℕ) (old : List ℕ) →
        OneAnswer (Compiles has_names text) old }
{
    wat_lex::laws::one_tiling();
    wat_lexer_parser::laws::all_shown();
    wat_modules::laws::sections_are_one();
}

/// Theorem: the error of a text is unique, unless an allocation fails: its offset, its length, its
/// message and the contents of the buffer.
pub fn one_check()
    ensures { (has_names : Bool) (text : List ℕ) (old : List ℕ) → OneCheck has_names text old }
{
    wat_lex::laws::one_answer();
    wat_lex::laws::one_tiling();
    wat_lexer_parser::laws::all_shown();
    wat_modules::laws::sections_are_one();
}

/// Theorem: the formatted text of a text is unique, unless an allocation fails: the status, the
/// length and the contents of the buffer.
pub fn one_formatted()
    ensures { (s : Setting) (old : List ℕ) → OneAnswer (Formats s) old }
{
    wat_format::laws::one_answer();
    wat_lex::laws::one_tiling();
}
