//! Searches a text for annotations by their first bytes.
ghost use Rattle.std.specs.Prelude.{◌≡◌};
ghost use Rattle.wat_module_custom.specs.Search.{begins_sought, may_begin, may_have};

use memchr::memchr;

/// The annotations of a search.
#[derive(Clone, Copy, Debug, PartialEq, Eq)]
pub enum Sought {
    /// Annotations of the name `custom`.
    Customs,
    /// Annotations of the name `name`.
    Names,
    /// Annotations of one of these names.
    Either,
}

/// Returns `true` if a text contains `(@` followed by a name that is sought, or by `"`. Only the
/// bytes around each `@` are compared with these.
pub fn may_have(text: &str, sought: Sought) -> bool
    ensures { result ≡ may_have sought text.now }
{
    let bytes = text.as_bytes();
    let mut at = 0;
    while let Some(ahead) = memchr(b'@', &bytes[at..]) {
        let sign = at + ahead;
        if sign > 0 && may_begin(&bytes[sign - 1..], sought) {
            return true;
        }
        at = sign + 1;
    }
    false
}

/// Returns `true` if a text begins with `(@` and a name that is sought, or with `(@"`.
fn may_begin(text: &[u8], sought: Sought) -> bool
    ensures { result ≡ may_begin sought text.now }
{
    begins_sought(text, sought) || text.starts_with(b"(@\"")
}

/// Returns `true` if a text begins with `(@` and a name that is sought.
fn begins_sought(text: &[u8], sought: Sought) -> bool
    ensures { result ≡ begins_sought sought text.now }
{
    match sought {
        Sought::Customs => text.starts_with(b"(@custom"),
        Sought::Names => text.starts_with(b"(@name"),
        Sought::Either => text.starts_with(b"(@custom") || text.starts_with(b"(@name"),
    }
}
