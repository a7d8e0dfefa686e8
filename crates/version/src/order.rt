// Which of two versions is the later one.
ghost use Rattle.std.specs.Prelude.{◌≡◌, true, map, codes};
ghost use Rattle.version.specs.Examples.{Examples};
ghost use Rattle.version.specs.Grammar.{every};
ghost use Rattle.version.specs.Law.{newness, compared, TellsNewness, TellsPrecedence, Orders};
ghost use Rattle.version.specs.Precedence.{by_identifiers, by_pre_release, by_precedence};
ghost use Rattle.version.specs.Reader.{released, identifier_of, fields, fields_in};
ghost use Rattle.version.specs.View.{seen, identifiers_in};

use crate::identifier::Ident;
use crate::number::Core;
use crate::reader::parse_version;
use crate::version::Version;
use std::cmp::Ordering;

// The release that newness is measured by.
const FOUR_NINE: Version<'static> = Version {
    core: Core {
        major: 4,
        minor: 9,
        patch: 0,
    },
    pre: None,
    build: None,
};

// The first identifiers that differ decide, and else a longer list comes later.
fn by_identifiers(a: &[u8], b: &[u8]) -> Ordering
    requires { (every released (fields a.now) ≡ true) × (every released (fields b.now) ≡ true) }
    ensures { result ≡ by_identifiers (map identifier_of (fields a.now)) (map identifier_of (fields b.now)) }
{
    let left = a.split(|x| *x == b'.').map(Ident::from);
    let right = b.split(|x| *x == b'.').map(Ident::from);
    left.cmp(right)
}

// A version without a pre-release comes after those with one.
fn by_pre_release(a: Option<&[u8]>, b: Option<&[u8]>) -> Ordering
    requires { (every released (fields_in a) ≡ true) × (every released (fields_in b) ≡ true) }
    ensures { result ≡ by_pre_release (identifiers_in a.entry) (identifiers_in b.entry) }
{
    match (a, b) {
        (None, None) => Ordering::Equal,
        (None, Some(_)) => Ordering::Greater,
        (Some(_), None) => Ordering::Less,
        (Some(x), Some(y)) => by_identifiers(x, y),
    }
}

impl<'a> Version<'a> {
    // Major, then minor, then patch, then the pre-release; build metadata is not looked at.
    fn precedence(self, other: Version<'_>) -> Ordering
        ensures { result ≡ by_precedence (seen self.entry) (seen other.entry) }
    {
        self.core
            .cmp(&other.core)
            .then(by_pre_release(self.pre, other.pre))
    }
}

// Which of the two versions comes first by the standard's precedence. None: one of the texts is no version within the limit.
pub fn precedence(a: &[u8], b: &[u8]) -> Option<Ordering>
    ensures told { result ≡ compared a.now b.now }
    ensures tells { TellsPrecedence a.now b.now result }
{
    let v = parse_version(a)?;
    let w = parse_version(b)?;
    Some(v.precedence(w))
}

// Whether the version is 4.9.0 or later. None: the text is no version within the limit.
pub fn is_new(text: &[u8]) -> Option<bool>
    ensures told { result ≡ newness text.now }
    ensures tells { TellsNewness text.now result }
{
    let v = parse_version(text)?;
    Some(v.precedence(FOUR_NINE).is_ge())
}

// Precedence is a total order up to build metadata, and the standard's worked examples come out as it says; so does the release that
// newness is measured by.
pub fn precedence_stands() -> Option<bool>
    ensures orders { Orders }
    ensures examples { Examples }
    ensures release { result ≡ newness (codes "4.9.0") }
{
    is_new(b"4.9.0")
}
