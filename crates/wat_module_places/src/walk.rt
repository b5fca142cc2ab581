//! Finds the positions of instructions by their keywords and parentheses.
ghost use Rattle.std.specs.Prelude.{◌≡◌, ◌<◌, ◌≤◌, ◌++◌, ◌∷◌, [], length, slice_get, IfOk, IfSome};
ghost use Rattle.std.specs.Prelude.{List, MatchOption, false};
ghost use Rattle.std.specs.Option.{option_map};
ghost use Rattle.wat_module_places.specs.Walk.{begins_word, closed, group_of, opened};
ghost use Rattle.wat_module_places.specs.Walk.{places_of, walk, worded};
ghost use Rattle.wat_module_tokens.specs.TokenCursor.{terminals_of};
ghost use Rattle.wat_module_tokens.specs.Terminals.{Open, Terminal, Word};
ghost use Rattle.wat_module_places.specs.declared.keywords.Keyword.TheVariants as keyword;

use crate::groups::{Group, Groups};
use crate::keywords::{Keyword, kind};
use std::alloc::{AllocError, Global};
use wat_module_tokens::stream::TokenCursor;
use wat_module_tokens::token::DecodedToken;

/// Opens the group of a keyword after its `(`. `place` starts at the keyword. Returns the position
/// of the instruction that comes next, if there is one.
fn open<'p, 'a>(
    groups: &mut Groups<'p, 'a>,
    keyword: Keyword,
    place: TokenCursor<'p, 'a>,
) -> Result<Option<TokenCursor<'p, 'a>>, AllocError>
    ensures { IfOk result (λ found.
        opened keyword (terminals_of place.entry) groups.old ≡ (places_of found, groups.new)) }
{
    match keyword {
        Keyword::Block => {
            groups.push(Group::Ended)?;
            Ok(Some(place))
        }
        Keyword::If => {
            groups.push(Group::Condition(place))?;
            Ok(None)
        }
        Keyword::Then => begin_branch(groups),
        Keyword::Else => {
            groups.push(Group::Unplaced)?;
            Ok(Some(place))
        }
        Keyword::Plain => {
            groups.push(Group::Operands(place))?;
            Ok(None)
        }
        Keyword::End | Keyword::Other => {
            groups.push(Group::Unplaced)?;
            Ok(None)
        }
    }
}

/// Opens the group of `(then`. Returns the position of its `if`, if the innermost group is one
/// before its `(then`.
fn begin_branch<'p, 'a>(
    groups: &mut Groups<'p, 'a>,
) -> Result<Option<TokenCursor<'p, 'a>>, AllocError>
    ensures { (p : List Terminal) → IfOk result (λ found.
        opened keyword.Then p groups.old ≡ (places_of found, groups.new)) }
{
    match groups.pop() {
        Some(Group::Condition(place)) => {
            groups.push(Group::Ended)?;
            groups.push(Group::Unplaced)?;
            Ok(Some(place))
        }
        Some(group) => {
            groups.push(group)?;
            groups.push(Group::Unplaced)?;
            Ok(None)
        }
        None => {
            groups.push(Group::Unplaced)?;
            Ok(None)
        }
    }
}

/// Returns the position of the instruction that the `)` of a group gives, if it gives one. `place`
/// starts at the `)`.
fn close<'p, 'a>(group: Group<'p, 'a>, place: TokenCursor<'p, 'a>) -> Option<TokenCursor<'p, 'a>>
    ensures { places_of result ≡ closed (group_of group.entry) (terminals_of place.entry) }
{
    match group {
        Group::Operands(keyword) => Some(keyword),
        Group::Ended => Some(place),
        Group::Condition(_) | Group::Unplaced => None,
    }
}

/// Returns the position of the instruction that a keyword without `(` begins, if it begins one.
/// `place` starts at the keyword.
fn word<'p, 'a>(keyword: Keyword, place: TokenCursor<'p, 'a>) -> Option<TokenCursor<'p, 'a>>
    ensures { places_of result ≡ worded keyword (terminals_of place.entry) }
{
    match keyword {
        Keyword::Then | Keyword::Other => None,
        Keyword::Block | Keyword::If | Keyword::Else | Keyword::End | Keyword::Plain => Some(place),
    }
}

/// The position of an instruction, if a token gives one, and the tokens after that token.
#[derive(Clone, Copy)]
struct Passed<'p, 'a> {
    place: Option<TokenCursor<'p, 'a>>,
    rest: TokenCursor<'p, 'a>,
}

/// Returns the first token, if it is a keyword, and the tokens after it.
fn first_word<'p, 'a>(cursor: TokenCursor<'p, 'a>) -> Option<(&'a str, TokenCursor<'p, 'a>)>
    ensures { MatchOption result
        (begins_word (terminals_of cursor.entry) ≡ false)
        (λ r. terminals_of cursor.entry ≡ Word r.0.now ∷ terminals_of r.1) }
{
    match cursor.first() {
        Some((DecodedToken::Word(word), rest)) => Some((word, rest)),
        _ => None,
    }
}

/// Opens a group after its `(`.
fn open_group<'p, 'a>(
    groups: &mut Groups<'p, 'a>,
    inside: TokenCursor<'p, 'a>,
) -> Result<Passed<'p, 'a>, AllocError>
    ensures found { IfOk result (λ s.
        walk groups.old (Open ∷ terminals_of inside.entry) ≡
        places_of s.place ++ walk groups.new (terminals_of s.rest)) }
    ensures shorter { IfOk result (λ s. length (terminals_of s.rest) ≤
        length (terminals_of inside.entry)) }
{
    match first_word(inside) {
        Some((word, rest)) => {
            let place = open(groups, kind(word), inside)?;
            Ok(Passed { place, rest })
        }
        None => {
            groups.push(Group::Unplaced)?;
            Ok(Passed {
                place: None,
                rest: inside,
            })
        }
    }
}

/// Passes a token, or two at `(`. Returns `None` at the end, or at a `)` that closes no group.
#[tactic(auto, unfolding(crate::specs::Walk::walk))]
fn step<'p, 'a>(
    groups: &mut Groups<'p, 'a>,
    left: TokenCursor<'p, 'a>,
) -> Result<Option<Passed<'p, 'a>>, AllocError>
    ensures found { IfOk result (λ o. MatchOption o
        (walk groups.old (terminals_of left.entry) ≡ [])
        (λ s. walk groups.old (terminals_of left.entry) ≡
        places_of s.place ++ walk groups.new (terminals_of s.rest))) }
    ensures shorter { IfOk result (λ o. IfSome o (λ s. length (terminals_of s.rest) <
        length (terminals_of left.entry))) }
{
    match left.first() {
        Some((DecodedToken::Open, inside)) => {
            let passed = open_group(groups, inside)?;
            Ok(Some(passed))
        }
        Some((DecodedToken::Close, rest)) => match groups.pop() {
            Some(group) => {
                let place = close(group, left);
                Ok(Some(Passed { place, rest }))
            }
            None => Ok(None),
        },
        Some((DecodedToken::Word(keyword), rest)) => {
            let place = word(kind(keyword), left);
            Ok(Some(Passed { place, rest }))
        }
        Some(
            (
                DecodedToken::Id(_)
                | DecodedToken::Integer(_, _)
                | DecodedToken::Float(_)
                | DecodedToken::Text(_)
                | DecodedToken::Other,
                rest,
            ),
        ) => Ok(Some(Passed { place: None, rest })),
        None => Ok(None),
    }
}

/// Returns the position of an instruction by its index among the instructions of these tokens, up
/// to a `)` that closes no group of them, or `None` if there are not that many.
pub(crate) fn place_at<'p, 'a>(
    alloc: Global,
    tokens: TokenCursor<'p, 'a>,
    index: usize,
) -> Result<Option<TokenCursor<'p, 'a>>, AllocError>
    ensures { IfOk result (λ found. option_map terminals_of found ≡
        slice_get (walk [] (terminals_of tokens.entry)) index) }
{
    let mut groups = Groups::new(alloc);
    let mut before = index;
    let mut left = tokens;
    'walk: loop {
        let Some(passed) = step(&mut groups, left)? else {
            return Ok(None);
        };
        if let Some(place) = passed.place {
            if before == 0 {
                return Ok(Some(place));
            }
            before -= 1;
        }
        left = passed.rest;
    }
}
