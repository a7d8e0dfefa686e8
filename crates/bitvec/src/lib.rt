// Bit-vector values, as SMT-LIB 2.6 writes them.
#![tactic(auto)]

ghost use Rattle.std.specs.Prelude.{◌≡◌};
ghost use Rattle.words.specs.Joined.{spaces};
ghost use Rattle.bitvec.specs.BitVecs.{bit_vec, bits_of, digit_in, of_digits, radix, vec_fault_number};

// What the digits are: how many values one has.
#[derive(Clone, Copy, PartialEq, Eq, Debug)]
pub enum Base {
    Binary = 2,
    Hexadecimal = 16,
}

// A value and its width in bits, both part of equality. A text of any length may be read, so the width may pass 64 bits.
#[derive(Clone, Copy, PartialEq, Eq, Debug)]
pub struct BitVec {
    pub value: u64,
    pub bits: u128,
}

// Why a value is refused, by number.
#[derive(Clone, Copy, PartialEq, Eq, Debug)]
pub enum BitVecFault {
    Unreadable = 10,
    TooLarge = 12,
}

// The number that a refusal tells.
impl From<BitVecFault> for u8 {
    ghost from_gives = { λ f n. n ≡ vec_fault_number f };

    fn from(fault: BitVecFault) -> u8 {
        fault as u8
    }
}

impl Base {
    fn radix(self) -> u32
        ensures { result ≡ radix self }
    {
        self as u32
    }

    // How many bits a digit has.
    fn bits(self) -> u128
        ensures { result ≡ bits_of self }
    {
        match self {
            Base::Binary => 1,
            Base::Hexadecimal => 4,
        }
    }

    fn digit(self, b: u8) -> Option<u32>
        ensures { result ≡ digit_in self b }
    {
        char::from(b).to_digit(self.radix())
    }

    // One or more digits. A value that is too large still goes on, so that a bad digit behind it is found.
    fn read(self, digits: &[u8]) -> Result<BitVec, BitVecFault>
        ensures { result ≡ of_digits self digits.now }
    {
        if digits.is_empty() {
            return Err(BitVecFault::Unreadable);
        }
        let mut value: u128 = 0;
        for b in digits {
            let digit = self.digit(*b).ok_or(BitVecFault::Unreadable)?;
            value = value
                .saturating_mul(u128::from(self.radix()))
                .saturating_add(u128::from(digit));
        }
        let value = u64::try_from(value).map_err(|_| BitVecFault::TooLarge)?;
        let bits = digits.len() as u128 * self.bits();
        Ok(BitVec { value, bits })
    }
}

// A bit-vector value that is a whole span of a line, in which each separator stands for one space.
pub fn parse_bitvec(span: &[u8]) -> Result<BitVec, BitVecFault>
    ensures { result ≡ bit_vec (spaces span.now) }
{
    match span {
        [b'#', b'x', digits @ ..] => Base::Hexadecimal.read(digits),
        [b'#', b'b', digits @ ..] => Base::Binary.read(digits),
        _ => Err(BitVecFault::Unreadable),
    }
}

#[cfg(test)]
mod tests;
