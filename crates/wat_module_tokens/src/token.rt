//! A significant token with its value.
ghost use Rattle.std.specs.Prelude.{◌≡◌};
ghost use Rattle.wat_module_tokens.specs.Terminals.{is_name, label};

/// Sign before the digits of an integer.
#[derive(Clone, Copy)]
pub enum Sign {
    /// No sign.
    Absent,
    /// `+`.
    Plus,
    /// `-`.
    Minus,
}

/// A significant token with its value.
#[derive(Clone, Copy)]
pub enum DecodedToken<'a> {
    /// `(`.
    Open,
    /// `)`.
    Close,
    /// A keyword.
    Word(&'a str),
    /// An identifier, by its name without `$`.
    Id(&'a str),
    /// An integer: its sign, and its magnitude, which is below 2^64.
    Integer(Sign, u64),
    /// Any other number, by its source text.
    Float(&'a str),
    /// A string, by its value.
    Text(&'a [u8]),
    /// Any other token. No rule of the grammar accepts it.
    Other,
}

/// Identifier of a label, a local variable or another item, if it has one.
#[derive(Clone, Copy)]
pub enum Name<'p> {
    /// An identifier, without `$`.
    Given(&'p str),
    /// No identifier.
    Absent,
}

impl Name<'_> {
    /// Returns `true` if the item has this identifier.
    pub fn is(self, name: &str) -> bool
        ensures { result ≡ is_name name.now (label self.entry) }
    {
        match self {
            Name::Given(given) => given == name,
            Name::Absent => false,
        }
    }
}
