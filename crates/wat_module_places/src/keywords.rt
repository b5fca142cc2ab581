//! What the keywords of instructions begin.
ghost use Rattle.std.specs.Prelude.{◌≡◌, None};
ghost use Rattle.wat_module_places.specs.Walk.{kind, kind_by};

use wat_module_ast::table;

/// What a keyword begins.
#[derive(Clone, Copy)]
pub enum Keyword {
    /// A `block` or a `loop`.
    Block,
    /// An `if`.
    If,
    /// The first branch of a folded `if`.
    Then,
    /// The second branch of an `if`.
    Else,
    /// The end of a block.
    End,
    /// A plain instruction.
    Plain,
    /// No instruction.
    Other,
}

/// Returns what a keyword begins.
#[tactic(auto, unfolding(crate::specs::Walk::kind))]
pub fn kind(word: &str) -> Keyword
    ensures { result ≡ kind word.now }
{
    if word == "block" || word == "loop" {
        Keyword::Block
    } else if word == "if" {
        Keyword::If
    } else {
        unstructured(word)
    }
}

/// Returns what a keyword begins that is none of `block`, `loop` and `if`.
fn unstructured(word: &str) -> Keyword
    ensures { result ≡ kind_by None word.now }
{
    if word == "then" {
        Keyword::Then
    } else if word == "else" {
        Keyword::Else
    } else if word == "end" {
        Keyword::End
    } else if table::find(word).is_some() {
        Keyword::Plain
    } else {
        Keyword::Other
    }
}
