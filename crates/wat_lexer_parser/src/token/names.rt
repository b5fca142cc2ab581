//! The annotation `@name "..."`, which gives an item a name.

use crate::annotation;
use crate::parser::{Parse, Parser};
use std::alloc::{AllocError, Global};
use std::borrow::CowStr;
use wat_lex::error::Error;

/// The annotation `@name`, with the name that it gives.
#[derive(Debug, PartialEq, Eq, Drop)]
pub struct NameAnnotation<'a> {
    /// The name.
    pub name: CowStr<'a>,
}

impl<'a> NameAnnotation<'a> {
    ghost use Rattle.std.specs.Prelude.{◌≡◌, ◌≤◌, IfOk, Option};
    ghost use Rattle.std.specs.Cow.{cow_str_bytes, IsBorrowedStr};
    ghost use Rattle.std.specs.Prelude.{IsOk};
    ghost use Rattle.std.specs.Option.{option_map};
    ghost use Rattle.wat_lexer_parser.specs.readings.Reads.{IsKept, Reads};
    ghost use Rattle.wat_lexer_parser.specs.readings.Types.{optional_name};

    /// Parses `(@name "..")` if `@name` is the second visible token, which requires that `name` is
    /// registered. Otherwise returns `None` and consumes nothing.
    pub fn parse_option(parser: &mut Parser<'a>) -> Result<Option<NameAnnotation<'a>>, Error>
        ensures kept { IsKept parser.old parser.new }
        ensures on { parser.old.place ≤ parser.new.place }
        ensures reads { Reads (option_map (λ n. cow_str_bytes n.name))
            optional_name parser.old result parser.new.place }
    {
        if parser.peek2::<annotation::name>()? {
            Ok(Some(parser.parens_of::<NameAnnotation>()?))
        } else {
            Ok(None)
        }
    }

    /// Returns a copy. Allocates only if the name is owned.
    pub fn clone(&self, alloc: Global) -> Result<Self, AllocError>
        ensures copy { IfOk result (λ copy.
            cow_str_bytes copy.name ≡ cow_str_bytes self.now.name) }
        ensures free { IsBorrowedStr self.now.name → IsOk result }
        ensures borrowed { IsBorrowedStr self.now.name →
            IfOk result (λ copy. IsBorrowedStr copy.name) }
    {
        let name = match &self.name {
            CowStr::Borrowed(name) => CowStr::Borrowed(*name),
            CowStr::Owned(name) => CowStr::Owned(String::from_str(alloc, name.as_str())?),
        };
        Ok(NameAnnotation { name })
    }
}

impl<'a> Parse<'a> for NameAnnotation<'a> {
    ghost use Rattle.std.specs.Prelude.{List, ℕ};
    ghost use Rattle.std.specs.Cow.{cow_str_bytes};
    ghost use Rattle.wat_lexer_parser.specs.readings.Types.{name_annotation};

    ghost Value = { List ℕ };

    ghost value = { λ n. cow_str_bytes n.name };

    ghost meaning = { name_annotation };

    fn parse(parser: &mut Parser<'a>) -> Result<NameAnnotation<'a>, Error> {
        parser.parse::<annotation::name>()?;
        let name = parser.parse::<CowStr>()?;
        Ok(NameAnnotation { name })
    }
}
