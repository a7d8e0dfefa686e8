// Numbers: at most one plus sign, then one or more decimal digits, with a value up to a limit.
ghost use Rattle.std.specs.Prelude.{◌≡◌, ◌+◌, ◌^◌, ◌<◌, ◌≤◌, length, IfOk, Some};
ghost use Rattle.ids.specs.Messages.{number_message};
ghost use Rattle.ids.specs.Numbers.{number_up_to, numeral, small};

use std::error::Error;
use std::fmt;

// The largest small number: one less than the largest that 32 bits hold.
pub const LARGEST_SMALL: u32 = 4_294_967_294;

// Why a text is no number.
#[derive(Clone, Copy, PartialEq, Eq, Debug)]
pub enum NumberFault {
    // no digit at all, a plus sign alone too
    Empty,
    // the first byte that is no digit, by its place from 0, the plus sign included
    NotDigit(usize),
    // digits only, with a value over the limit
    TooLarge,
}

impl fmt::Display for NumberFault {
    ghost output = { λ f. Some (number_message f) };

    fn fmt<W: fmt::Write>(&self, f: &mut fmt::Formatter<W>) -> fmt::Result {
        match self {
            NumberFault::Empty => write!(f, "has no digit"),
            NumberFault::NotDigit(place) => {
                write!(f, "has a byte that is no digit at place {place}")
            }
            NumberFault::TooLarge => write!(f, "is over 4294967294"),
        }
    }
}

impl Error for NumberFault {}

// The number that `ds` writes; `from` is the place of its first byte. A value over the limit is left at that, so that digits of any
// number are read. The place of the first bad byte is told, so a `fold` of the digits would be no plainer.
fn read_digits(ds: &[u8], from: usize, limit: u64) -> Result<u64, NumberFault>
    requires { from + length ds.now < 2 ^ 64 }
    ensures { result ≡ numeral limit from ds.now }
{
    if ds.is_empty() {
        return Err(NumberFault::Empty);
    }
    let most = u128::from(limit);
    let mut value: u128 = 0;
    for (i, b) in ds.iter().enumerate() {
        if !b.is_ascii_digit() {
            return Err(NumberFault::NotDigit(from + i));
        }
        if value <= most {
            value = value * 10 + u128::from(*b - b'0');
        }
    }
    if value > most {
        return Err(NumberFault::TooLarge);
    }
    Ok(value as u64)
}

// The number that `w` writes, up to `limit`.
pub fn parse_number(w: &[u8], limit: u64) -> Result<u64, NumberFault>
    ensures { result ≡ number_up_to limit w.now }
{
    let digits = w.strip_prefix(b"+").unwrap_or(w);
    let from = w.len() - digits.len();
    read_digits(digits, from, limit)
}

// The small number that `w` writes.
pub fn parse_small(w: &[u8]) -> Result<u32, NumberFault>
    ensures value { result ≡ small w.now }
    ensures bound { IfOk result (λ n. n ≤ 4294967294) }
{
    let n = parse_number(w, u64::from(LARGEST_SMALL))?;
    Ok(n as u32)
}
