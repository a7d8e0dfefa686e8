use super::*;
use std::test::Fail;

#[test]
fn small_numbers(rt: HostRuntime) {
    assert_eq!(rt; parse_small(b"0"), Ok(0));
    assert_eq!(rt; parse_small(b"+007"), Ok(7));
    assert_eq!(rt; parse_small(b"4294967294"), Ok(4_294_967_294));
    assert_eq!(rt;
        parse_small(b"0000000000000000000000000000004294967294"),
        Ok(4_294_967_294)
    );
    assert_eq!(rt; parse_small(b"4294967295"), Err(NumberFault::TooLarge));
    assert_eq!(rt;
        parse_small(b"99999999999999999999999999999999999999999"),
        Err(NumberFault::TooLarge)
    );
}

#[test]
fn causes_are_told_in_order(rt: HostRuntime) {
    assert_eq!(rt; parse_small(b""), Err(NumberFault::Empty));
    assert_eq!(rt; parse_small(b"+"), Err(NumberFault::Empty));
    assert_eq!(rt; parse_small(b"++7"), Err(NumberFault::NotDigit(1)));
    assert_eq!(rt; parse_small(b"-1"), Err(NumberFault::NotDigit(0)));
    assert_eq!(rt; parse_small(b"12a"), Err(NumberFault::NotDigit(2)));
    assert_eq!(rt;
        parse_small(b"99999999999x"),
        Err(NumberFault::NotDigit(11))
    );
}

#[test]
fn numbers_of_64_bits(rt: HostRuntime) {
    assert_eq!(rt;
        parse_number(b"18446744073709551615", u64::MAX),
        Ok(u64::MAX)
    );
    assert_eq!(rt;
        parse_number(b"18446744073709551616", u64::MAX),
        Err(NumberFault::TooLarge)
    );
    assert_eq!(rt; parse_number(b"1", 0), Err(NumberFault::TooLarge));
}

#[test]
fn identifiers(rt: HostRuntime) -> Result<(), Fail> {
    let plain = parse_id(b"#4294967294")?;
    assert!(rt; plain.namespace.is_none());
    assert_eq!(rt; plain.order(), 4_294_967_295);
    let theory = parse_id(b"arith#")?;
    assert!(rt; theory.namespace.ok_or("namespace")? == b"arith".as_slice());
    assert_eq!(rt; theory.number, None);
    assert_eq!(rt; theory.order(), 0);
    assert!(rt; parse_id(b"#").is_ok());
    assert!(rt; is_id(b"get-model-0#+12"));
    Ok(())
}

#[test]
fn no_identifiers(rt: HostRuntime) {
    assert!(rt; matches!(parse_id(b"foo"), Err(IdFault::NoHash)));
    assert!(rt;
        matches!(
            parse_id(b"#4294967295"),
            Err(IdFault::Number(NumberFault::TooLarge))
        )
    );
    assert!(rt;
        matches!(
            parse_id(b"a#b#1"),
            Err(IdFault::Number(NumberFault::NotDigit(0)))
        )
    );
    assert!(rt; matches!(parse_id(b"#+"), Err(IdFault::Number(NumberFault::Empty))));
    assert!(rt; !is_id(b"5"));
}

#[test]
fn printed(rt: HostRuntime) -> Result<(), Fail> {
    let alloc = rt.alloc();
    let bare = IdFault::NoHash.to_string(alloc)?;
    assert!(rt; bare.as_str() == "has no `#`");
    let empty = NumberFault::Empty.to_string(alloc)?;
    assert!(rt; empty.as_str() == "has no digit");
    let large = NumberFault::TooLarge.to_string(alloc)?;
    assert!(rt; large.as_str() == "is over 4294967294");
    let inner = IdFault::Number(NumberFault::NotDigit(10)).to_string(alloc)?;
    assert!(rt;
        inner.as_str() == "has a number after `#` that has a byte that is no digit at place 10"
    );
    Ok(())
}
