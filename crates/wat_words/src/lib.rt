//! The trait [`Word`] of words for keyword and annotation types, and the standard words.
#![tactic(auto)]

ghost use Rattle.std.specs.Prelude.{◌≡◌, ℕ, Bool, true, false, List};
ghost use Rattle.wat_words.specs.Words.{annotation_word, quoted, standard_word};

mod table;

/// A keyword, a reserved token or the name of an annotation, as a type.
pub trait Word {
    ghost AT: { Bool };

    /// `true` if the word is the name of an annotation, which follows `@` in a text.
    const AT: bool;

    /// The bytes of the word.
    ghost text: { List ℕ };

    /// Returns the word, without the `@` of an annotation.
    fn word() -> &'static str
        ensures { result.now ≡ text };

    /// Returns the word as messages print it: in backquotes, with the `@` of an annotation.
    fn display() -> &'static str
        ensures { result.now ≡ quoted AT text };
}

/// The standard keyword at index `I` of the table. The indices are 0 to 232. The word at a greater
/// index is empty, and no token matches it.
#[derive(Clone, Copy, Debug)]
pub struct Std<const I: usize>;

impl<const I: usize> Word for Std<I> {
    ghost AT = { false };

    const AT: bool = false;

    ghost text = { standard_word I };

    fn word() -> &'static str {
        table::standard(I)
    }

    fn display() -> &'static str {
        table::standard_display(I)
    }
}

/// The standard annotation name at index `I` of the table. The indices are 0 to 4. The word at a
/// greater index is empty, and no annotation matches it.
#[derive(Clone, Copy, Debug)]
pub struct StdAnnotation<const I: usize>;

impl<const I: usize> Word for StdAnnotation<I> {
    ghost AT = { true };

    const AT: bool = true;

    ghost text = { annotation_word I };

    fn word() -> &'static str {
        table::annotation(I)
    }

    fn display() -> &'static str {
        table::annotation_display(I)
    }
}
