//! The settings of the lexer.

/// The settings of a lexer, which decide what it accepts in comments and strings.
#[derive(Clone, Copy, Debug, PartialEq, Eq)]
pub struct Settings {
    /// `true` if comments and strings may contain the 9 confusing characters, which can change how
    /// a text is displayed: U+202A, U+202B, U+202D, U+202E, U+2066 to U+2069, and U+206C.
    pub allow: bool,
    /// `true` if an underscore directly after another is a lexical error inside `\u{..}`.
    pub strict: bool,
}
