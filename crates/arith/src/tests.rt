// Values at the limits.
use crate::{ValueFault, parse_arith};
use std::process::Abort;
use std::test::Fail;

fn gives(rt: &impl Abort, text: &[u8], num: i64, den: u64) -> Result<(), Fail> {
    let value = parse_arith(text)?;
    assert_eq!(rt; value.num, num);
    assert_eq!(rt; value.den, den);
    Ok(())
}

fn fails(rt: &impl Abort, text: &[u8], fault: ValueFault) -> Result<(), Fail> {
    match parse_arith(text) {
        Ok(_) => Err(Fail::new("a value was taken")),
        Err(met) => {
            assert_eq!(rt; met, fault);
            Ok(())
        },
    }
}

#[test]
fn worked_examples(rt: HostRuntime) -> Result<(), Fail> {
    gives(&rt, b"(/ 6 (- 4))", -3, 2)?;
    gives(&rt, b"007 and more", 7, 1)?;
    gives(&rt, b"(+\t(- (- 1))\r(*\n2\x0c3))", 7, 1)?;
    gives(&rt, b"(* 7)", 7, 1)?;
    fails(&rt, b"(/ 1 0 5)", ValueFault::ZeroDivisor)?;
    fails(&rt, b"(/ 1 2 0)", ValueFault::Unreadable)
}

#[test]
fn literals(rt: HostRuntime) -> Result<(), Fail> {
    gives(&rt, b"2147483647", 2147483647, 1)?;
    fails(&rt, b"2147483648", ValueFault::TooLarge)?;
    fails(&rt, b"18446744073709551615", ValueFault::TooLarge)?;
    fails(&rt, b"18446744073709551617", ValueFault::TooLarge)?;
    fails(&rt, &[b'9'; 60_000], ValueFault::TooLarge)?;
    gives(&rt, &[b'0'; 60_000], 0, 1)
}

#[test]
fn sums(rt: HostRuntime) -> Result<(), Fail> {
    gives(&rt, b"(+ 2147483646 1)", 2147483647, 1)?;
    fails(&rt, b"(+ 2147483647 1)", ValueFault::TooLarge)?;
    gives(&rt, b"(+ (- 2147483646) (- 1))", -2147483647, 1)?;
    fails(&rt, b"(+ (- 2147483647) (- 1))", ValueFault::TooLarge)?;
    gives(&rt, b"(+ (/ 1 2147483647) (/ 1 2147483647))", 2, 2147483647)?;
    fails(&rt, b"(+ (/ 1 46341) (/ 1 46342))", ValueFault::TooLarge)?;
    fails(&rt, b"(+ 2147483647 1 (- 1))", ValueFault::TooLarge)
}

#[test]
fn differences(rt: HostRuntime) -> Result<(), Fail> {
    gives(&rt, b"(- 2147483647)", -2147483647, 1)?;
    gives(&rt, b"(- 2147483646 (- 1))", 2147483647, 1)?;
    fails(&rt, b"(- 2147483647 (- 1))", ValueFault::TooLarge)?;
    gives(&rt, b"(- (- 2147483646) 1)", -2147483647, 1)?;
    fails(&rt, b"(- (- 2147483647) 1)", ValueFault::TooLarge)?;
    gives(&rt, b"(- (/ 1 2147483647) 0)", 1, 2147483647)?;
    fails(&rt, b"(- (/ 1 32768) (/ 1 65537))", ValueFault::TooLarge)
}

#[test]
fn products(rt: HostRuntime) -> Result<(), Fail> {
    gives(&rt, b"(* 2147483647 1)", 2147483647, 1)?;
    fails(&rt, b"(* 1073741824 2)", ValueFault::TooLarge)?;
    gives(&rt, b"(* 2147483647 (- 1))", -2147483647, 1)?;
    fails(&rt, b"(* 1073741824 (- 2))", ValueFault::TooLarge)?;
    gives(&rt, b"(* 2147483647 (/ 2 2147483647))", 2, 1)?;
    fails(&rt, b"(* (/ 1 1073741824) (/ 1 2))", ValueFault::TooLarge)
}

#[test]
fn quotients(rt: HostRuntime) -> Result<(), Fail> {
    gives(&rt, b"(/ 1 2147483647)", 1, 2147483647)?;
    gives(
        &rt,
        b"(/ 2147483647 (- 2147483646))",
        -2147483647,
        2147483646,
    )?;
    fails(&rt, b"(/ (/ 1 1073741824) 2)", ValueFault::TooLarge)?;
    fails(&rt, b"(/ 1073741824 (/ 1 2))", ValueFault::TooLarge)?;
    fails(&rt, b"(/ 1073741824 (/ (- 1) 2))", ValueFault::TooLarge)?;
    gives(&rt, b"(/ 0 5)", 0, 1)?;
    fails(&rt, b"(/ 0 0)", ValueFault::ZeroDivisor)
}

// The largest literal, and one more, as each argument of each operator.
#[test]
fn literals_under_operators(rt: HostRuntime) -> Result<(), Fail> {
    gives(&rt, b"(+ 2147483647)", 2147483647, 1)?;
    gives(&rt, b"(- 2147483647 0)", 2147483647, 1)?;
    gives(&rt, b"(- 0 2147483647)", -2147483647, 1)?;
    gives(&rt, b"(* 1 2147483647)", 2147483647, 1)?;
    gives(&rt, b"(/ 2147483647 1)", 2147483647, 1)?;
    fails(&rt, b"(+ 2147483648)", ValueFault::TooLarge)?;
    fails(&rt, b"(+ (- 1) 2147483648)", ValueFault::TooLarge)?;
    fails(&rt, b"(- 2147483648)", ValueFault::TooLarge)?;
    fails(&rt, b"(- 2147483648 1)", ValueFault::TooLarge)?;
    fails(&rt, b"(- 0 2147483648)", ValueFault::TooLarge)?;
    fails(&rt, b"(* 2147483648)", ValueFault::TooLarge)?;
    fails(&rt, b"(* 0 2147483648)", ValueFault::TooLarge)?;
    fails(&rt, b"(/ 2147483648 2)", ValueFault::TooLarge)?;
    fails(&rt, b"(/ 1 2147483648)", ValueFault::TooLarge)?;
    fails(&rt, b"(/ 0 2147483648)", ValueFault::TooLarge)?;
    fails(&rt, b"(max 2147483648)", ValueFault::TooLarge)?;
    fails(&rt, b"(- 1 2 2147483648)", ValueFault::TooLarge)
}

// Each operator at the largest numerator of either sign, and at one more.
#[test]
fn numerators(rt: HostRuntime) -> Result<(), Fail> {
    gives(&rt, b"(+ 2147483647 0)", 2147483647, 1)?;
    gives(&rt, b"(+ 1 2 2147483644)", 2147483647, 1)?;
    gives(&rt, b"(+ (- 2147483647) 0)", -2147483647, 1)?;
    gives(&rt, b"(- (- 2147483647))", 2147483647, 1)?;
    gives(&rt, b"(- 0 (- 2147483647))", 2147483647, 1)?;
    gives(&rt, b"(* (- 2147483647) (- 1))", 2147483647, 1)?;
    gives(&rt, b"(/ 2147483647 2147483646)", 2147483647, 2147483646)?;
    gives(&rt, b"(/ (- 2147483647) (- 1))", 2147483647, 1)?;
    gives(&rt, b"(/ (- 2147483647) 2)", -2147483647, 2)?;
    fails(&rt, b"(+ 1 2147483647)", ValueFault::TooLarge)?;
    fails(&rt, b"(+ 1073741824 1073741824)", ValueFault::TooLarge)?;
    fails(&rt, b"(+ (- 1) (- 2147483647))", ValueFault::TooLarge)?;
    fails(&rt, b"(- 2147483647 (- 1))", ValueFault::TooLarge)?;
    fails(&rt, b"(- 0 2147483647 1)", ValueFault::Unreadable)?;
    fails(&rt, b"(- (- 1) 2147483647)", ValueFault::TooLarge)?;
    fails(&rt, b"(* 2 1073741824)", ValueFault::TooLarge)?;
    fails(&rt, b"(* (- 2) 1073741824)", ValueFault::TooLarge)?;
    fails(&rt, b"(* (- 1073741824) (- 2))", ValueFault::TooLarge)?;
    fails(&rt, b"(/ (- 1073741824) (/ 1 2))", ValueFault::TooLarge)?;
    fails(&rt, b"(/ (- 1073741824) (/ (- 1) 2))", ValueFault::TooLarge)
}

// The largest denominator.
#[test]
fn denominators(rt: HostRuntime) -> Result<(), Fail> {
    gives(&rt, b"(+ (/ 1 2147483647) 0)", 1, 2147483647)?;
    gives(&rt, b"(+ (/ 2147483646 2147483647) (/ 1 2147483647))", 1, 1)?;
    gives(&rt, b"(- (/ 1 2147483647))", -1, 2147483647)?;
    gives(&rt, b"(- 0 (/ 1 2147483647))", -1, 2147483647)?;
    gives(&rt, b"(- (/ 1 2147483647) (/ 1 2147483647))", 0, 1)?;
    gives(&rt, b"(* (/ 1 2147483647) (- 1))", -1, 2147483647)?;
    gives(
        &rt,
        b"(* (/ 2147483646 2147483647) 1)",
        2147483646,
        2147483647,
    )?;
    gives(&rt, b"(/ 1 (- 2147483647))", -1, 2147483647)?;
    gives(&rt, b"(/ (- 1) (- 2147483647))", 1, 2147483647)?;
    gives(&rt, b"(/ (/ 1 2147483647) (/ 1 2147483647))", 1, 1)
}

// One more. Below 2^31 no two denominators have 2^31 as their least common multiple, so under `+` and `-` the next stands: 2^31 + 1, which
// is 3 times 715827883.
#[test]
fn denominators_too_large(rt: HostRuntime) -> Result<(), Fail> {
    fails(&rt, b"(+ (/ 1 3) (/ 1 715827883))", ValueFault::TooLarge)?;
    fails(
        &rt,
        b"(+ (/ (- 1) 3) (/ (- 1) 715827883))",
        ValueFault::TooLarge,
    )?;
    fails(&rt, b"(- (/ 1 3) (/ 1 715827883))", ValueFault::TooLarge)?;
    fails(
        &rt,
        b"(- (/ (- 1) 3) (/ 1 715827883))",
        ValueFault::TooLarge,
    )?;
    fails(
        &rt,
        b"(* (/ 1 2) (/ (- 1) 1073741824))",
        ValueFault::TooLarge,
    )?;
    fails(&rt, b"(/ (/ 1 2) (- 1073741824))", ValueFault::TooLarge)?;
    fails(
        &rt,
        b"(/ (/ 1 2147483647) 2147483647)",
        ValueFault::TooLarge,
    )?;
    fails(
        &rt,
        b"(* (/ 1 2147483647) (/ 1 2147483647))",
        ValueFault::TooLarge,
    )
}

// Partial results are tested in lowest terms, from the left; arguments past the allowed number are only read.
#[test]
fn partial_results(rt: HostRuntime) -> Result<(), Fail> {
    gives(&rt, b"(* 1073741824 (/ 1 2) 2)", 1073741824, 1)?;
    gives(&rt, b"(+ 2147483647 (- 1) 1)", 2147483647, 1)?;
    gives(&rt, b"(+ (/ 1 4) (/ 3 4) 2147483646)", 2147483647, 1)?;
    fails(&rt, b"(* 2147483647 2 0)", ValueFault::TooLarge)?;
    fails(&rt, b"(* 1073741824 2 (/ 1 2))", ValueFault::TooLarge)?;
    fails(&rt, b"(+ (- 2147483647) (- 1) 1)", ValueFault::TooLarge)?;
    fails(&rt, b"(- 2147483647 0 (- 1))", ValueFault::Unreadable)?;
    fails(&rt, b"(/ 1 2147483647 2)", ValueFault::Unreadable)?;
    fails(&rt, b"(/ 1 0 5)", ValueFault::ZeroDivisor)?;
    fails(&rt, b"(max 2147483647 2147483647)", ValueFault::Unreadable)?;
    fails(&rt, b"(max)", ValueFault::Unreadable)?;
    fails(&rt, b"(+ )", ValueFault::Unreadable)?;
    fails(&rt, b"(- )", ValueFault::Unreadable)?;
    fails(&rt, b"(+)", ValueFault::Unreadable)?;
    fails(&rt, b"(/ 1)", ValueFault::Unreadable)?;
    fails(&rt, b"(/ 1 0", ValueFault::ZeroDivisor)
}

// Brackets that are closed again do not count.
#[test]
fn brackets_beside_each_other(rt: HostRuntime) -> Result<(), Fail> {
    let text = "(+ (- 1) (- 1) (- 1) (- 1) (- 1) (- 1) (- 1) (- 1) (- 1) (- 1) (- 1) \
        (- 1) (- 1) (- 1) (- 1) (- 1) (- 1) (- 1) (- 1) (- 1) (- 1) (- 1) (- 1) (- 1) \
        (- 1) (- 1) (- 1) (- 1) (- 1) (- 1) (- 1) (- 1) (- 1) (- 1) (- 1) (- 1) (- 1) \
        (- 1) (- 1) (- 1) (- 1) (- 1) (- 1) (- 1) (- 1) (- 1) (- 1) (- 1) (- 1) (- 1) \
        (- 1) (- 1) (- 1) (- 1) (- 1) (- 1) (- 1) (- 1) (- 1) (- 1) (- 1) (- 1) (- 1) (- 1) (- 1))";
    gives(&rt, text.as_bytes(), -65, 1)
}

// The order in which refusals come.
#[test]
fn refusals(rt: HostRuntime) -> Result<(), Fail> {
    fails(&rt, b"", ValueFault::Unreadable)?;
    fails(&rt, b" 1", ValueFault::Unreadable)?;
    fails(&rt, b"(pi)", ValueFault::Unreadable)?;
    fails(&rt, b"( 1)", ValueFault::Unreadable)?;
    fails(&rt, b"(+1 2)", ValueFault::Unreadable)?;
    fails(&rt, b"(+ 1\r\n2)", ValueFault::Unreadable)?;
    fails(&rt, b"(+ 1 2", ValueFault::Unreadable)?;
    fails(&rt, b"(/ 5)", ValueFault::Unreadable)?;
    fails(&rt, b"(- 1 2 3)", ValueFault::Unreadable)?;
    fails(&rt, b"(- 1 2 (/ 3 0))", ValueFault::ZeroDivisor)?;
    fails(&rt, b"(max 1 2147483648)", ValueFault::TooLarge)?;
    assert_eq!(rt; u8::from(ValueFault::TooDeep), 13);
    Ok(())
}

#[test]
fn deep(rt: HostRuntime) -> Result<(), Fail> {
    let mut text = [b' '; 261];
    for i in 0..65 {
        text[3 * i] = b'(';
        text[3 * i + 1] = b'-';
        text[196 + i] = b')';
    }
    text[195] = b'1';
    fails(&rt, &text, ValueFault::TooDeep)?;
    fails(&rt, &text[0..195], ValueFault::TooDeep)?;
    fails(&rt, &text[0..193], ValueFault::TooDeep)?;
    fails(&rt, &text[0..192], ValueFault::Unreadable)?;
    fails(&rt, &text[3..195], ValueFault::Unreadable)?;
    gives(&rt, &text[3..260], 1, 1)?;
    fails(&rt, &text[3..259], ValueFault::Unreadable)
}
