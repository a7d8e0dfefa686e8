// Identifiers: a namespace, `#`, and nothing or a small number.
ghost use Rattle.std.specs.Prelude.{◌≡◌, is_ok, Some};
ghost use Rattle.ids.specs.declared.id.IdFault.TheVariants.{Number};
ghost use Rattle.ids.specs.Ids.{cut_at_hash, id_answer, ident, is_id, order_of, parts_said};
ghost use Rattle.ids.specs.Messages.{id_message};

use super::number::{NumberFault, parse_small};
use std::error::Error;
use std::fmt;

// Why a word is no identifier.
#[derive(Clone, Copy, PartialEq, Eq, Debug)]
pub enum IdFault {
    NoHash,
    Number(NumberFault),
}

impl From<NumberFault> for IdFault {
    ghost from_gives = { λ f r. r ≡ Number f };

    fn from(f: NumberFault) -> IdFault {
        IdFault::Number(f)
    }
}

impl fmt::Display for IdFault {
    ghost output = { λ f. Some (id_message f) };

    fn fmt<W: fmt::Write>(&self, f: &mut fmt::Formatter<W>) -> fmt::Result {
        match self {
            IdFault::NoHash => write!(f, "has no `#`"),
            IdFault::Number(fault) => write!(f, "has a number after `#` that {fault}"),
        }
    }
}

impl Error for IdFault {}

// An identifier as it is written: the namespace is a part of the word.
#[derive(Clone, Copy)]
pub struct IdText<'a> {
    pub namespace: Option<&'a [u8]>,
    pub number: Option<u32>,
}

impl<'a> IdText<'a> {
    // The place in the namespace: 0 without a number, one more than the number with one.
    pub fn order(&self) -> u64
        ensures { result ≡ order_of self.now.number }
    {
        self.number.map_or(0, |n| u64::from(n) + 1)
    }
}

// What stands before the first `#`, and what after it.
fn cut_at_hash(w: &[u8]) -> Option<(&[u8], &[u8])>
    ensures { parts_said result ≡ cut_at_hash w.now }
{
    let i = w.iter().position(|b| *b == b'#')?;
    Some((&w[..i], &w[i + 1..]))
}

// The identifier that `w` writes.
pub fn parse_id(w: &[u8]) -> Result<IdText<'_>, IdFault>
    ensures { id_answer result ≡ ident w.now }
{
    let (space, rest) = cut_at_hash(w).ok_or(IdFault::NoHash)?;
    let number = if rest.is_empty() {
        None
    } else {
        Some(parse_small(rest)?)
    };
    Ok(IdText {
        namespace: Some(space).filter(|s| !s.is_empty()),
        number,
    })
}

// Whether `w` reads as an identifier.
pub fn is_id(w: &[u8]) -> bool
    ensures { result ≡ is_id w.now }
{
    parse_id(w).is_ok()
}
