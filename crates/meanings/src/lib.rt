// What a constant means, by the theory and the value that its line attaches.
#![tactic(auto)]

ghost use Rattle.std.specs.Prelude.{◌≡◌};
ghost use Rattle.std.specs.Option.{option_map};
ghost use Rattle.std.specs.Result.{result_map_both};
ghost use Rattle.words.specs.Joined.{as_space, spaces};
ghost use Rattle.words.specs.Words.{ahead};
ghost use Rattle.meanings.specs.declared.MeaningFault.TheVariants.{Arith, BitVec};
ghost use Rattle.std.specs.Cmp.{on_equiv, partial_equiv_from_equiv};
ghost use Rattle.std.specs.Ordering.{on};
ghost use Rattle.std.specs.Str.{bytes_eq};
ghost use Rattle.meanings.specs.Meanings.{fault_number, meaning_of, said, words_say};
ghost use Rattle.meanings.specs.Same.{SameStands, same, same_equiv};

use arith::{ValueFault, parse_arith};
use bitvec::{BitVec, BitVecFault, parse_bitvec};
use fraction::terms::Fraction;
use words::{Words, is_separator};

// A number of the theory `arith`, a bit-vector of `bv`, or theory and value as texts. The value is a span of the line, in which each
// separator stands for one space.
#[derive(Clone, Copy, Debug)]
pub enum Meaning<'a> {
    Arith(Fraction),
    BitVec(BitVec),
    Unknown { theory: &'a [u8], value: &'a [u8] },
}

// Why a value is refused.
#[derive(Clone, Copy, PartialEq, Eq, Debug)]
pub enum MeaningFault {
    Arith(ValueFault),
    BitVec(BitVecFault),
}

impl From<ValueFault> for MeaningFault {
    ghost from_gives = { λ f r. r ≡ Arith f };

    fn from(cause: ValueFault) -> MeaningFault {
        MeaningFault::Arith(cause)
    }
}

impl From<BitVecFault> for MeaningFault {
    ghost from_gives = { λ f r. r ≡ BitVec f };

    fn from(cause: BitVecFault) -> MeaningFault {
        MeaningFault::BitVec(cause)
    }
}

// The number that a refusal goes by.
impl From<MeaningFault> for u8 {
    ghost from_gives = { λ f n. n ≡ fault_number f };

    fn from(fault: MeaningFault) -> u8 {
        match fault {
            MeaningFault::Arith(fault) => u8::from(fault),
            MeaningFault::BitVec(fault) => u8::from(fault),
        }
    }
}

impl<'a> Meaning<'a> {
    // The meaning that a value of a theory has.
    pub fn read(theory: &'a [u8], value: &'a [u8]) -> Result<Meaning<'a>, MeaningFault>
        ensures { result_map_both said (λ e. e) result ≡ meaning_of theory.now (spaces value.now) }
    {
        if theory == b"arith".as_slice() {
            Ok(Meaning::Arith(parse_arith(value)?))
        } else if theory == b"bv".as_slice() {
            Ok(Meaning::BitVec(parse_bitvec(value)?))
        } else {
            Ok(Meaning::Unknown { theory, value })
        }
    }

    // The meaning that the words of a line say from the theory on, none where there is no theory. Without a word behind it the value is
    // the empty text. `alike` says of `==` that it holds exactly where two meanings say the same.
    pub fn of_words(mut words: Words<'a>) -> Option<Result<Meaning<'a>, MeaningFault>>
        ensures value { option_map (result_map_both said (λ e. e)) result ≡ words_say (ahead words.entry.left) }
        ensures alike { SameStands }
    {
        let theory = words.next()?;
        Some(Meaning::read(theory, words.rest_of_line().unwrap_or(b"")))
    }
}

fn spaced(b: u8) -> u8
    ensures { result ≡ as_space b }
{
    if is_separator(b) { b' ' } else { b }
}

// Whether two spans are one text.
#[tactic(auto, using(crate::proofs::Texts::all_same, crate::proofs::Texts::other_length))]
fn is_same_text(a: &[u8], b: &[u8]) -> bool
    ensures { result ≡ bytes_eq (spaces a.now) (spaces b.now) }
{
    a.len() == b.len() && a.iter().zip(b).all(|(x, y)| spaced(*x) == spaced(*y))
}

// Two meanings are equal exactly when they say the same.
impl<'a> PartialEq for Meaning<'a> {
    ghost eq = { on said same };

    ghost laws = { partial_equiv_from_equiv (on_equiv said same_equiv) };

    fn eq(&self, other: &Meaning<'a>) -> bool {
        match (self, other) {
            (Meaning::Arith(a), Meaning::Arith(b)) => a == b,
            (Meaning::BitVec(a), Meaning::BitVec(b)) => a == b,
            (
                Meaning::Unknown {
                    theory: t,
                    value: v,
                },
                Meaning::Unknown {
                    theory: u,
                    value: w,
                },
            ) => t == u && is_same_text(v, w),
            _ => false,
        }
    }
}

impl<'a> Eq for Meaning<'a> {
    ghost laws = { on_equiv said same_equiv };
}

#[cfg(test)]
mod tests;
