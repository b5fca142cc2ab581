//! Collects the identifiers of the labels of a function by their indices, from the tokens of its
//! instructions.
ghost use Rattle.std.specs.Prelude.{◌≡◌, ◌≤◌, ◌<◌, ◌^◌, ◌∷◌, ◌++◌, [], suc, ℕ, List, OnOk, false};
ghost use Rattle.std.specs.Prelude.{drop, length, map, take, IfOk, IfSome, MatchOption};
ghost use Rattle.wat_module_ast.specs.Fields.{label_associations};
ghost use Rattle.wat_module_ast.specs.Names.{block_labels, inside};
ghost use Rattle.wat_module_ast.specs.Views.{association_of};
ghost use Rattle.wat_module_parser.specs.Labels.{begins_block, begins_word, found};
ghost use Rattle.wat_module_parser.specs.Labels.{is_identifier, is_labelled};
ghost use Rattle.wat_module_tokens.specs.TokenCursor.{terminals_of};
ghost use Rattle.wat_module_tokens.specs.Terminals.{Label, Open, Terminal, Word, label};
ghost use Rattle.wat_module_tokens.specs.Terminals.{terminal};

use std::alloc::{AllocError, Global};
use std::marker::Model;
use wat_module_ast::fields::NameAssociation;
use wat_module_instructions::reading;
use wat_module_tokens::stream::TokenCursor;
use wat_module_tokens::token::{DecodedToken, Name};

/// The labels of the folded `if`s whose `(then` is still to come.
#[derive(Drop)]
struct WaitingLabels<'a> {
    /// The label of the innermost `if` is last.
    labels: Vec<Name<'a>>,
}

impl<'a> Model for WaitingLabels<'a> {
    ghost use Rattle.std.specs.Prelude.{List, map, reverse};
    ghost use Rattle.wat_module_tokens.specs.Terminals.{Label, label};

    ghost Value = { List Label };

    ghost view = { λ w. reverse (map label w.labels.items) };
}

impl<'a> WaitingLabels<'a> {
    /// Returns no labels. Does not allocate.
    fn new(alloc: Global) -> WaitingLabels<'a>
        ensures { result ≡ [] }
    {
        WaitingLabels {
            labels: Vec::new(alloc),
        }
    }

    /// Adds the label of an `if` inside the others.
    fn push(&mut self, name: Name<'a>) -> Result<(), AllocError>
        ensures { OnOk result (self.new ≡ label name.entry ∷ self.old) }
    {
        self.labels.push(name)?;
        Ok(())
    }

    /// Removes and returns the label of the innermost `if`.
    fn pop(&mut self) -> Option<Name<'a>>
        ensures { MatchOption result
            ((self.old ≡ []) × (self.new ≡ []))
            (λ n. self.old ≡ label n ∷ self.new) }
    {
        self.labels.pop()
    }
}

/// The labels found so far.
#[derive(Drop)]
struct FoundLabels<'a> {
    /// Those that have an identifier.
    names: Vec<NameAssociation<'a>>,
    /// Number of labels, with and without an identifier.
    count: usize,
}

/// Appends a label.
fn push_label<'a>(labels: &mut FoundLabels<'a>, name: Name<'a>) -> Result<(), AllocError>
    requires { suc labels.old.count < 2 ^ 64 }
    ensures found { OnOk result ((ls : List Label) →
        found labels.new ls ≡ found labels.old (label name.entry ∷ ls)) }
    ensures count { OnOk result (labels.new.count ≡ suc labels.old.count) }
{
    if let Name::Given(name) = name {
        let index = labels.count;
        labels.names.push(NameAssociation { index, name })?;
    }
    labels.count += 1;
    Ok(())
}

/// Appends the label of a keyword that does not follow `(`, if the keyword is `block`, `loop` or
/// `if`. `rest` begins after the keyword. Returns the tokens after the keyword and its label.
fn word_label<'p, 'a>(
    labels: &mut FoundLabels<'a>,
    word: &str,
    rest: TokenCursor<'p, 'a>,
) -> Result<TokenCursor<'p, 'a>, AllocError>
    requires { suc labels.old.count < 2 ^ 64 }
    ensures found { IfOk result (λ left. (d : ℕ) (ls : List Label) →
        found labels.new (block_labels ls (inside d (terminals_of left))) ≡
        found labels.old (block_labels ls (Word word.now ∷ inside d (terminals_of rest.entry)))) }
    ensures count { IfOk result (λ _. labels.new.count ≤ suc labels.old.count) }
    ensures shorter { IfOk result (λ left. length (terminals_of left) ≤
        length (terminals_of rest.entry)) }
{
    match reading::structured(word) {
        Some(_) => {
            let (name, left) = reading::label(rest);
            push_label(labels, name)?;
            Ok(left)
        }
        None => Ok(rest),
    }
}

/// Appends the label of the innermost folded `if` whose `(then` is still to come, if there is one.
fn then_label<'a>(
    labels: &mut FoundLabels<'a>,
    waiting: &mut WaitingLabels<'a>,
) -> Result<(), AllocError>
    requires { suc labels.old.count < 2 ^ 64 }
    ensures found { OnOk result ((ls : List Label) →
        found labels.new ls ≡ found labels.old (take 1 waiting.old ++ ls)) }
    ensures waiting { OnOk result (waiting.new ≡ drop 1 waiting.old) }
    ensures count { OnOk result (labels.new.count ≤ suc labels.old.count) }
{
    match waiting.pop() {
        Some(name) => push_label(labels, name),
        None => Ok(()),
    }
}

/// Appends the label of a keyword after `(`: that of `block` or `loop`, and at `then` that of its
/// `if`. The label of `if` is added to `waiting`. `rest` begins after the keyword. Returns the
/// tokens after the keyword and its label.
fn folded_label<'p, 'a>(
    labels: &mut FoundLabels<'a>,
    waiting: &mut WaitingLabels<'a>,
    word: &str,
    rest: TokenCursor<'p, 'a>,
) -> Result<TokenCursor<'p, 'a>, AllocError>
    requires { suc labels.old.count < 2 ^ 64 }
    ensures found { IfOk result (λ left. (d : ℕ) →
        found labels.new (block_labels waiting.new (inside d (terminals_of left))) ≡
        found labels.old (block_labels waiting.old
        (Open ∷ Word word.now ∷ inside d (terminals_of rest.entry)))) }
    ensures count { IfOk result (λ _. labels.new.count ≤ suc labels.old.count) }
    ensures shorter { IfOk result (λ left. length (terminals_of left) ≤
        length (terminals_of rest.entry)) }
{
    if word == "if" {
        let (name, left) = reading::label(rest);
        waiting.push(name)?;
        return Ok(left);
    }
    if reading::is_then(word) {
        then_label(labels, waiting)?;
        return Ok(rest);
    }
    let left = word_label(labels, word, rest)?;
    Ok(left)
}

/// Returns the first token, if it is a keyword, and the tokens after it.
fn keyword<'p, 'a>(cursor: TokenCursor<'p, 'a>) -> Option<(&'a str, TokenCursor<'p, 'a>)>
    ensures { MatchOption result
        (begins_word (terminals_of cursor.entry) ≡ false)
        (λ r. terminals_of cursor.entry ≡ Word r.0.now ∷ terminals_of r.1) }
{
    match cursor.first() {
        Some((DecodedToken::Word(word), rest)) => Some((word, rest)),
        _ => None,
    }
}

/// Appends the label of the keyword after `(`, if a keyword is next. `rest` begins after the `(`.
/// Returns the tokens after the keyword and its label.
fn group_label<'p, 'a>(
    labels: &mut FoundLabels<'a>,
    waiting: &mut WaitingLabels<'a>,
    rest: TokenCursor<'p, 'a>,
) -> Result<TokenCursor<'p, 'a>, AllocError>
    requires { suc labels.old.count < 2 ^ 64 }
    ensures found { IfOk result (λ left. (d : ℕ) →
        found labels.new (block_labels waiting.new (inside d (terminals_of left))) ≡
        found labels.old
        (block_labels waiting.old (Open ∷ inside d (terminals_of rest.entry)))) }
    ensures count { IfOk result (λ _. labels.new.count ≤ suc labels.old.count) }
    ensures shorter { IfOk result (λ left. length (terminals_of left) ≤
        length (terminals_of rest.entry)) }
{
    match keyword(rest) {
        Some((word, inside)) => {
            let left = folded_label(labels, waiting, word, inside)?;
            Ok(left)
        }
        None => Ok(rest),
    }
}

/// Appends the label of a token, if it is a keyword with one or a `(` before one. `depth` is the
/// number of open groups, and `rest` begins after the token. Returns the number of open groups and
/// the remaining tokens, or `None` if the token is the closing parenthesis of the function.
#[tactic(auto, unfolding(wat_module_ast::specs::Names::block_labels))]
fn token_label<'p, 'a>(
    labels: &mut FoundLabels<'a>,
    waiting: &mut WaitingLabels<'a>,
    depth: usize,
    token: DecodedToken<'a>,
    rest: TokenCursor<'p, 'a>,
) -> Result<Option<(usize, TokenCursor<'p, 'a>)>, AllocError>
    requires count { suc labels.old.count < 2 ^ 64 }
    requires depth { suc depth < 2 ^ 64 }
    ensures found { IfOk result (λ o. MatchOption o
        (found labels.new [] ≡ found labels.old
        (block_labels waiting.old (inside depth (terminal token.entry ∷ terminals_of rest.entry))))
        (λ r. found labels.new (block_labels waiting.new (inside r.0 (terminals_of r.1))) ≡
        found labels.old (block_labels waiting.old
        (inside depth (terminal token.entry ∷ terminals_of rest.entry))))) }
    ensures count { IfOk result (λ _. labels.new.count ≤ suc labels.old.count) }
    ensures depth { IfOk result (λ o. IfSome o (λ r. r.0 ≤ suc depth)) }
    ensures shorter { IfOk result (λ o. IfSome o (λ r. length (terminals_of r.1) ≤
        length (terminals_of rest.entry))) }
{
    match token {
        DecodedToken::Open => {
            let left = group_label(labels, waiting, rest)?;
            Ok(Some((depth + 1, left)))
        }
        DecodedToken::Close => {
            if depth == 0 {
                return Ok(None);
            }
            Ok(Some((depth - 1, rest)))
        }
        DecodedToken::Word(word) => {
            let left = word_label(labels, word, rest)?;
            Ok(Some((depth, left)))
        }
        DecodedToken::Id(_)
        | DecodedToken::Integer(_, _)
        | DecodedToken::Float(_)
        | DecodedToken::Text(_)
        | DecodedToken::Other => Ok(Some((depth, rest))),
    }
}

/// Returns `true` if the first token is `block`, `loop` or `if`.
fn begins_block(cursor: TokenCursor<'_, '_>) -> bool
    ensures { result ≡ begins_block (terminals_of cursor.entry) }
{
    match cursor.first() {
        Some((DecodedToken::Word(word), _)) => reading::structured(word).is_some(),
        _ => false,
    }
}

/// Returns `true` if the token is an identifier.
fn is_identifier(token: DecodedToken<'_>) -> bool
    ensures { result ≡ is_identifier (terminal token.entry) }
{
    match token {
        DecodedToken::Id(_) => true,
        DecodedToken::Open
        | DecodedToken::Close
        | DecodedToken::Word(_)
        | DecodedToken::Integer(_, _)
        | DecodedToken::Float(_)
        | DecodedToken::Text(_)
        | DecodedToken::Other => false,
    }
}

/// Returns the number of open groups after a token, by that before it, or `None` if the token
/// closes the function.
fn depth_after(depth: usize, token: DecodedToken<'_>) -> Option<usize>
    requires { suc depth < 2 ^ 64 }
    ensures is { (ts : List Terminal) → MatchOption result
        (inside depth (terminal token.entry ∷ ts) ≡ [])
        (λ d. inside depth (terminal token.entry ∷ ts) ≡ terminal token.entry ∷ inside d ts) }
    ensures low { IfSome result (λ d. d ≤ suc depth) }
{
    match token {
        DecodedToken::Open => Some(depth + 1),
        DecodedToken::Close => {
            if depth == 0 {
                return None;
            }
            Some(depth - 1)
        }
        DecodedToken::Word(_)
        | DecodedToken::Id(_)
        | DecodedToken::Integer(_, _)
        | DecodedToken::Float(_)
        | DecodedToken::Text(_)
        | DecodedToken::Other => Some(depth),
    }
}

/// Returns `true` if a label of a function has an identifier, from the tokens of its instructions
/// up to its closing parenthesis.
#[tactic(auto, using(crate::proofs::NoLabels::starts_so, crate::proofs::NoLabels::follows, crate::proofs::NoLabels::passes, crate::proofs::NoLabels::stands))]
fn has_label(body: TokenCursor<'_, '_>) -> bool
    ensures { result ≡ is_labelled false (inside 0 (terminals_of body.entry)) }
{
    let mut depth = 0;
    let mut previous = body;
    let mut left = body;
    for step in 0..body.most() {
        let Some((token, rest)) = left.first() else {
            return false;
        };
        let Some(inner) = depth_after(depth, token) else {
            return false;
        };
        if is_identifier(token) && begins_block(previous) {
            return true;
        }
        depth = inner;
        previous = left;
        left = rest;
    }
    false
}

/// Returns the identifiers of the labels of a function by their indices, from the tokens of its
/// instructions up to its closing parenthesis. Does not allocate if no label has one.
#[tactic(auto, using(crate::proofs::NoLabels::none_named))]
pub(crate) fn label_names<'p, 'a>(
    alloc: Global,
    body: TokenCursor<'p, 'a>,
) -> Result<Vec<NameAssociation<'a>>, AllocError>
    ensures { IfOk result (λ names. map association_of names.items ≡
        label_associations (terminals_of body.entry)) }
{
    if has_label(body) {
        return all_labels(alloc, body);
    }
    Ok(Vec::new(alloc))
}

/// Returns the identifiers of the labels of a function by their indices, from the tokens of its
/// instructions up to its closing parenthesis.
fn all_labels<'p, 'a>(
    alloc: Global,
    body: TokenCursor<'p, 'a>,
) -> Result<Vec<NameAssociation<'a>>, AllocError>
    ensures { IfOk result (λ names. map association_of names.items ≡
        label_associations (terminals_of body.entry)) }
{
    let mut labels = FoundLabels {
        names: Vec::new(alloc),
        count: 0,
    };
    let mut waiting = WaitingLabels::new(alloc);
    let mut depth = 0;
    let mut left = body;
    for step in 0..body.most() {
        let Some((token, rest)) = left.first() else {
            return Ok(labels.names);
        };
        let Some((inner, after)) = token_label(&mut labels, &mut waiting, depth, token, rest)?
        else {
            return Ok(labels.names);
        };
        depth = inner;
        left = after;
    }
    Ok(labels.names)
}
