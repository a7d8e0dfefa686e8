// Numbers, written in decimal without leading zeros, and the three with which a version begins.
ghost use Rattle.std.specs.Prelude.{◌≡◌};
ghost use Rattle.std.specs.Option.{option_map};
ghost use Rattle.version.specs.Reader.{numeral, number_of, core_of};
ghost use Rattle.version.specs.View.{three};

use crate::bytes::Class;
use crate::cuts::cut;

pub(crate) fn is_numeral(text: &[u8]) -> bool
    ensures { result ≡ numeral text.now }
{
    matches!(text, [b'0'] | [b'1'..=b'9', ..]) && Class::Digits.holds_all(text)
}

// The number that the text writes, if it is below 2^64. The first digit that passes the limit ends the loop.
pub(crate) fn read_number(text: &[u8]) -> Option<u64>
    ensures { result ≡ number_of text.now }
{
    if !is_numeral(text) {
        return None;
    }
    let mut value: u64 = 0;
    for b in text {
        value = value.checked_mul(10)?.checked_add(u64::from(*b - b'0'))?;
    }
    Some(value)
}

// Major, minor and patch: the standard's version core.
#[derive(Clone, Copy, PartialEq, Eq, PartialOrd, Ord, Debug)]
pub struct Core {
    pub major: u64,
    pub minor: u64,
    pub patch: u64,
}

pub(crate) fn read_core(text: &[u8]) -> Option<Core>
    ensures { option_map three result ≡ core_of text.now }
{
    let (major, rest) = cut(text, b'.');
    let (minor, patch) = cut(rest?, b'.');
    let patch = patch?;
    Some(Core {
        major: read_number(major)?,
        minor: read_number(minor)?,
        patch: read_number(patch)?,
    })
}
