// Fractions in lowest terms, and their arithmetic.
#![tactic(auto)]

ghost use Rattle.std.specs.Prelude.{◌≡◌, ◌^◌, ◌<◌, ◌*ℤ◌, unsigned_abs};
ghost use Rattle.fraction.specs.Laws.{GreatestDivisor, LowestStands};
ghost use Rattle.fraction.specs.Bounds.{fits};
ghost use Rattle.fraction.specs.Divisors.{gcd};
ghost use Rattle.fraction.specs.Ratios.{negative, whole, with_sign};
ghost use Rattle.fraction.specs.Fractions.{add, divide, fault_number, multiply, ratio, reduced, lowest, subtract, told};

pub mod terms;

use std::ops::Neg;
use terms::Fraction;

// The largest numerator, of either sign, and the largest denominator.
const LARGEST: u128 = 2_147_483_647;

#[derive(Clone, Copy, PartialEq, Eq, Debug)]
pub enum FractionFault {
    ZeroDivisor = 11,
    TooLarge = 12,
}

// The number that a refusal goes by.
impl From<FractionFault> for u8 {
    ghost from_gives = { λ f n. n ≡ fault_number f };

    fn from(fault: FractionFault) -> u8 {
        fault as u8
    }
}

// The one test of the bounds: the size of a numerator, and a denominator.
fn within_bounds(size: u128, den: u128) -> bool
    ensures { result ≡ fits size den }
{
    size <= LARGEST && den <= LARGEST
}

fn gcd_of(x: u128, y: u128) -> u128
    ensures { result ≡ gcd x y }
{
    let (mut a, mut b) = (x, y);
    while b != 0 {
        (a, b) = (b, a % b);
    }
    a
}

// A number of the given size, with the sign of `like`.
fn with_sign(like: i128, size: u64) -> i64
    requires { size < 2 ^ 63 }
    ensures value { result ≡ with_sign like size }
    ensures size { unsigned_abs result ≡ size }
{
    let n = size as i64;
    if like < 0 { -n } else { n }
}

// `num` over `den` in lowest terms, if it fits.
fn reduce(num: i128, den: u128) -> Result<Fraction, FractionFault>
    requires { 0 < den }
    ensures { told result ≡ reduced num den }
{
    let size = num.unsigned_abs();
    let common = gcd_of(size, den);
    let above = size / common;
    let below = den / common;
    if !within_bounds(above, below) {
        return Err(FractionFault::TooLarge);
    }
    Ok(Fraction {
        num: with_sign(num, above as u64),
        den: below as u64,
    })
}

// A product of two numbers of fewer than 64 bits.
fn product(a: i128, b: i128) -> i128
    requires { (unsigned_abs a < 2 ^ 63) × (unsigned_abs b < 2 ^ 63) }
    ensures value { result ≡ a *ℤ b }
    ensures size { unsigned_abs result < 2 ^ 126 }
{
    a * b
}

// The whole number `n`.
impl TryFrom<u64> for Fraction {
    type Error = FractionFault;

    ghost try_from_gives = { λ n r. told r ≡ lowest (whole n) };

    fn try_from(n: u64) -> Result<Fraction, FractionFault> {
        reduce(i128::from(n), 1)
    }
}

impl Neg for Fraction {
    type Output = Fraction;

    ghost neg_gives = { λ x y. ratio y ≡ negative (ratio x) };

    fn neg(self) -> Fraction {
        Fraction {
            num: -self.num,
            den: self.den,
        }
    }
}

impl Fraction {
    pub fn plus(self, other: Fraction) -> Result<Fraction, FractionFault>
        ensures { told result ≡ add (ratio self) (ratio other) }
    {
        let left = product(i128::from(self.num), i128::from(other.den));
        let right = product(i128::from(other.num), i128::from(self.den));
        reduce(left + right, u128::from(self.den) * u128::from(other.den))
    }

    pub fn minus(self, other: Fraction) -> Result<Fraction, FractionFault>
        ensures { told result ≡ subtract (ratio self) (ratio other) }
    {
        self.plus(-other)
    }

    pub fn times(self, other: Fraction) -> Result<Fraction, FractionFault>
        ensures { told result ≡ multiply (ratio self) (ratio other) }
    {
        let num = product(i128::from(self.num), i128::from(other.num));
        reduce(num, u128::from(self.den) * u128::from(other.den))
    }

    pub fn over(self, other: Fraction) -> Result<Fraction, FractionFault>
        ensures { told result ≡ divide (ratio self) (ratio other) }
    {
        let size = other.num.unsigned_abs();
        if size == 0 {
            return Err(FractionFault::ZeroDivisor);
        }
        let turned = with_sign(i128::from(other.num), other.den);
        let num = product(i128::from(self.num), i128::from(turned));
        reduce(num, u128::from(self.den) * u128::from(size))
    }
}

// What `gcd` and `lowest` of the definitions are; the answer is the largest whole number within the bounds.
pub fn fractions_stand() -> Result<Fraction, FractionFault>
    ensures divisor { GreatestDivisor }
    ensures terms { LowestStands }
    ensures largest { told result ≡ lowest (whole 2147483647) }
{
    Fraction::try_from(2_147_483_647)
}

#[cfg(test)]
mod tests;
