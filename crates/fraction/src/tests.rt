// Fractions at the limits.
use crate::FractionFault;
use crate::terms::Fraction;
use std::process::Abort;
use std::test::Fail;

fn check_is(rt: &impl Abort, value: Fraction, num: i64, den: u64) {
    assert_eq!(rt; value.num, num);
    assert_eq!(rt; value.den, den);
}

fn check_fault(
    rt: &impl Abort,
    answer: Result<Fraction, FractionFault>,
    fault: FractionFault,
) -> Result<(), Fail> {
    match answer {
        Ok(_) => Err(Fail::new("a fraction was made")),
        Err(met) => {
            assert_eq!(rt; met, fault);
            Ok(())
        },
    }
}

#[test]
fn lowest_terms(rt: HostRuntime) -> Result<(), Fail> {
    let six = Fraction::try_from(6)?;
    let four = Fraction::try_from(4)?;
    check_is(&rt, six.over(-four)?, -3, 2);
    check_is(&rt, six.over(four)?.times(four)?, 6, 1);
    check_is(&rt, six.minus(six)?.over(four)?, 0, 1);
    check_is(&rt, six.over(four)?.plus(four.over(six)?)?, 13, 6);
    Ok(())
}

#[test]
fn limits(rt: HostRuntime) -> Result<(), Fail> {
    let one = Fraction::try_from(1)?;
    let most = Fraction::try_from(2147483647)?;
    check_fault(&rt, Fraction::try_from(2147483648), FractionFault::TooLarge)?;
    check_fault(&rt, Fraction::try_from(u64::MAX), FractionFault::TooLarge)?;
    check_fault(&rt, most.plus(one), FractionFault::TooLarge)?;
    check_fault(&rt, (-most).minus(one), FractionFault::TooLarge)?;
    check_fault(&rt, most.times(most), FractionFault::TooLarge)?;
    check_fault(&rt, one.over(most)?.over(most), FractionFault::TooLarge)?;
    check_is(&rt, (-most).over(most)?, -1, 1);
    Ok(())
}

#[test]
fn faults(rt: HostRuntime) -> Result<(), Fail> {
    let one = Fraction::try_from(1)?;
    let none = Fraction::try_from(0)?;
    check_fault(&rt, one.over(none), FractionFault::ZeroDivisor)?;
    assert_eq!(rt; u8::from(FractionFault::ZeroDivisor), 11);
    assert_eq!(rt; u8::from(FractionFault::TooLarge), 12);
    Ok(())
}
