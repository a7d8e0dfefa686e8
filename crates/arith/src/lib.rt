// Values of the theory `arith`.
#![tactic(auto)]

ghost use Rattle.std.specs.Prelude.{◌≡◌, ◌+◌, ◌^◌, ◌<◌, ◌≤◌, length, IfSome, IfOk, Ok, codes};
ghost use Rattle.std.specs.Option.{option_map};
ghost use Rattle.fraction.specs.Fractions.{ratio};
ghost use Rattle.fraction.specs.Ratios.{Ratio};
ghost use Rattle.arith.specs.Examples.{Examples};
ghost use Rattle.arith.specs.Laws.{ArithStands, Denotes};
ghost use Rattle.words.specs.Joined.{spaces};
ghost use Rattle.arith.specs.Faults.{value_fault, value_fault_number};
ghost use Rattle.arith.specs.Values.{arith_value, at_close, cut_at_space, digits_after, fold_in, literal_of, operator_of, value_at};
ghost use Rattle.arith.specs.Answers.{answered, cut_in, folds, read_in};

use fraction::FractionFault;
use fraction::terms::Fraction;
use words::is_separator;

// How many brackets may be open at once.
const DEEPEST: u32 = 64;

// Why a value is refused.
#[derive(Clone, Copy, PartialEq, Eq, Debug)]
pub enum ValueFault {
    Unreadable = 10,
    ZeroDivisor = 11,
    TooLarge = 12,
    TooDeep = 13,
}

// The number that a refusal goes by.
impl From<ValueFault> for u8 {
    ghost from_gives = { λ f n. n ≡ value_fault_number f };

    fn from(fault: ValueFault) -> u8 {
        fault as u8
    }
}

impl From<FractionFault> for ValueFault {
    ghost from_gives = { λ x y. y ≡ value_fault x };

    fn from(fault: FractionFault) -> ValueFault {
        match fault {
            FractionFault::ZeroDivisor => ValueFault::ZeroDivisor,
            FractionFault::TooLarge => ValueFault::TooLarge,
        }
    }
}

// An enum and a match on signs, and no table of closures: a rule of the project.
#[derive(Clone, Copy)]
enum Operator {
    Sum,
    Difference,
    Product,
    Quotient,
    Other,
}

// The operator that goes by this name.
fn operator_of(name: &[u8]) -> Operator
    ensures { result ≡ operator_of name.now }
{
    let [sign] = name else {
        return Operator::Other;
    };
    match *sign as char {
        '+' => Operator::Sum,
        '-' => Operator::Difference,
        '*' => Operator::Product,
        '/' => Operator::Quotient,
        _ => Operator::Other,
    }
}

// The arguments so far: how many, and what they come to. Not an Option of both: each argument would open it and make it again.
#[derive(Clone, Copy)]
struct Folded {
    count: usize,
    value: Option<Fraction>,
}

impl Folded {
    // One more argument.
    fn take(self, op: Operator, next: Fraction) -> Result<Folded, ValueFault>
        requires { self.count + 1 < 2 ^ 64 }
        ensures fold { folds result ≡ fold_in op self.count (option_map ratio self.value) (ratio next) }
        ensures count { IfOk result (λ f. f.count ≡ self.count + 1) }
    {
        let value = match self.value {
            None => next,
            Some(x) => match (op, self.count) {
                (Operator::Sum, _) => x.plus(next)?,
                (Operator::Product, _) => x.times(next)?,
                (Operator::Difference, 1) => x.minus(next)?,
                (Operator::Quotient, 1) => x.over(next)?,
                _ => x,
            },
        };
        Ok(Folded {
            count: self.count + 1,
            value: Some(value),
        })
    }

    // The closing bracket.
    fn close(self, op: Operator) -> Result<Fraction, ValueFault>
        ensures { answered result ≡ at_close op self.count (option_map ratio self.value) }
    {
        let x = self.value.ok_or(ValueFault::Unreadable)?;
        match (op, self.count) {
            (Operator::Sum | Operator::Product, _) => Ok(x),
            (Operator::Difference, 1) => Ok(-x),
            (Operator::Difference | Operator::Quotient, 2) => Ok(x),
            _ => Err(ValueFault::Unreadable),
        }
    }
}

// A value, and the text after it.
#[derive(Clone, Copy)]
struct Reading<'a> {
    value: Fraction,
    rest: &'a [u8],
}

// The digits at the front as a number. Past 64 bits it stays at the largest, which does not fit either.
fn read_literal(text: &[u8]) -> Result<Reading<'_>, ValueFault>
    ensures value { read_in result ≡ literal_of (digits_after 0 (spaces text.now)) }
    ensures within { IfOk result (λ p. length p.rest.now ≤ length text.now) }
{
    let mut n: u64 = 0;
    let mut rest = text;
    while let [b @ b'0'..=b'9', after @ ..] = rest {
        n = n.saturating_mul(10).saturating_add(u64::from(*b - b'0'));
        rest = after;
    }
    let value = Fraction::try_from(n)?;
    Ok(Reading { value, rest })
}

// What stands before the first separator, and the text from it on.
fn cut_at_separator(text: &[u8]) -> Option<(&[u8], &[u8])>
    ensures cut { cut_in result ≡ cut_at_space (spaces text.now) }
    ensures within { IfSome result (λ p. length p.1.now ≤ length text.now) }
{
    let i = text.iter().position(|b| is_separator(*b))?;
    Some(text.split_at(i))
}

// A value at the front of the text, where `depth` more brackets may be opened.
fn read_value(text: &[u8], depth: u32) -> Result<Reading<'_>, ValueFault>
    ensures value { read_in result ≡ value_at depth (spaces text.now) }
    ensures within { IfOk result (λ p. length p.rest.now ≤ length text.now) }
{
    let inside = match text {
        [b'0'..=b'9', ..] => return read_literal(text),
        [b'(', inside @ ..] => inside,
        _ => return Err(ValueFault::Unreadable),
    };
    if depth == 0 {
        return Err(ValueFault::TooDeep);
    }
    let (name, mut rest) = cut_at_separator(inside).ok_or(ValueFault::Unreadable)?;
    let op = operator_of(name);
    let mut so_far = Folded {
        count: 0,
        value: None,
    };
    loop {
        match rest {
            [b, argument @ ..] if is_separator(*b) => {
                let argument = read_value(argument, depth - 1)?;
                so_far = so_far.take(op, argument.value)?;
                rest = argument.rest;
            },
            [b')', after @ ..] => {
                let value = so_far.close(op)?;
                return Ok(Reading { value, rest: after });
            },
            _ => return Err(ValueFault::Unreadable),
        }
    }
}

// A value at the front of a span of a line, in which each separator stands for one space; what follows the value is ignored.
// The answer is the number that the text denotes, and every text that denotes one within the bounds is taken.
pub fn parse_arith(span: &[u8]) -> Result<Fraction, ValueFault>
    ensures value { answered result ≡ arith_value (spaces span.now) }
    ensures sound { IfOk (answered result) (Denotes (spaces span.now)) }
    ensures complete { (f : Ratio) → Denotes (spaces span.now) f → answered result ≡ Ok f }
{
    Ok(read_value(span, DEEPEST)?.value)
}

// The same of the definition, for every text, and its worked examples; the answer is one of them.
pub fn arith_stands() -> Result<Fraction, ValueFault>
    ensures laws { ArithStands }
    ensures examples { Examples }
    ensures read { answered result ≡ arith_value (spaces (codes "(/ 6 (- 4))")) }
{
    parse_arith(b"(/ 6 (- 4))")
}

#[cfg(test)]
mod tests;
