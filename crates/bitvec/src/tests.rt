use super::*;

fn read(value: u64, bits: u128) -> Result<BitVec, BitVecFault> {
    Ok(BitVec { value, bits })
}

#[test]
fn values(rt: HostRuntime) {
    assert_eq!(rt; parse_bitvec(b"#x0F"), read(15, 8));
    assert_eq!(rt; parse_bitvec(b"#xaAfF"), read(0xaaff, 16));
    assert_eq!(rt; parse_bitvec(b"#b0101"), read(5, 4));
    assert_eq!(rt; parse_bitvec(b"#xffffffffffffffff"), read(u64::MAX, 64));
    assert_eq!(rt; parse_bitvec(b"#x0000000000000000000f"), read(15, 80));
    assert_eq!(rt;
        parse_bitvec(b"#x10000000000000000"),
        Err(BitVecFault::TooLarge)
    );
}

#[test]
fn no_values(rt: HostRuntime) {
    assert_eq!(rt; parse_bitvec(b""), Err(BitVecFault::Unreadable));
    assert_eq!(rt; parse_bitvec(b"#"), Err(BitVecFault::Unreadable));
    assert_eq!(rt; parse_bitvec(b"#x"), Err(BitVecFault::Unreadable));
    assert_eq!(rt; parse_bitvec(b"#x0F "), Err(BitVecFault::Unreadable));
    assert_eq!(rt; parse_bitvec(b"#x+1"), Err(BitVecFault::Unreadable));
    assert_eq!(rt; parse_bitvec(b"#x1_0"), Err(BitVecFault::Unreadable));
    assert_eq!(rt; parse_bitvec(b"#b2"), Err(BitVecFault::Unreadable));
    assert_eq!(rt; parse_bitvec(b"#X1"), Err(BitVecFault::Unreadable));
    assert_eq!(rt; parse_bitvec(b"x1"), Err(BitVecFault::Unreadable));
    assert_eq!(rt; u8::from(BitVecFault::Unreadable), 10);
    assert_eq!(rt; u8::from(BitVecFault::TooLarge), 12);
    assert_eq!(rt;
        parse_bitvec(b"#x10000000000000000g"),
        Err(BitVecFault::Unreadable)
    );
}

// 2^64 - 1 and 2^64 in both bases, with zeros in front, and what follows a value that is too large.
#[test]
fn limits(rt: HostRuntime) {
    assert_eq!(rt; parse_bitvec(b"#xFFFFFFFFFFFFFFFF"), read(u64::MAX, 64));
    assert_eq!(rt; parse_bitvec(b"#x0fffffffffffffffF"), read(u64::MAX, 68));
    assert_eq!(rt; parse_bitvec(b"#x8000000000000000"), read(1 << 63, 64));
    assert_eq!(rt;
        parse_bitvec(b"#x010000000000000000"),
        Err(BitVecFault::TooLarge)
    );
    assert_eq!(rt;
        parse_bitvec(b"#x10000000000000001"),
        Err(BitVecFault::TooLarge)
    );
    assert_eq!(rt;
        parse_bitvec(b"#b1111111111111111111111111111111111111111111111111111111111111111"),
        read(u64::MAX, 64)
    );
    assert_eq!(rt;
        parse_bitvec(b"#b01111111111111111111111111111111111111111111111111111111111111111"),
        read(u64::MAX, 65)
    );
    assert_eq!(rt;
        parse_bitvec(b"#b10000000000000000000000000000000000000000000000000000000000000000"),
        Err(BitVecFault::TooLarge)
    );
    assert_eq!(rt;
        parse_bitvec(b"#b010000000000000000000000000000000000000000000000000000000000000000"),
        Err(BitVecFault::TooLarge)
    );
    assert_eq!(rt;
        parse_bitvec(b"#b100000000000000000000000000000000000000000000000000000000000000002"),
        Err(BitVecFault::Unreadable)
    );
    assert_eq!(rt;
        parse_bitvec(b"#x10000000000000000 "),
        Err(BitVecFault::Unreadable)
    );
}

#[test]
fn long_values(rt: HostRuntime) {
    let mut text = [b'0'; 60_002];
    text[0] = b'#';
    text[1] = b'x';
    assert_eq!(rt; parse_bitvec(&text), read(0, 240_000));
    text[1] = b'b';
    text[60_001] = b'1';
    assert_eq!(rt; parse_bitvec(&text), read(1, 60_000));
    text[2] = b'1';
    assert_eq!(rt; parse_bitvec(&text), Err(BitVecFault::TooLarge));
    text[60_001] = b' ';
    assert_eq!(rt; parse_bitvec(&text), Err(BitVecFault::Unreadable));
}

// The bytes next to the digits, signs, and other letters behind `#`.
#[test]
fn no_digits(rt: HostRuntime) {
    assert_eq!(rt; parse_bitvec(b"#b"), Err(BitVecFault::Unreadable));
    assert_eq!(rt; parse_bitvec(b"#B1"), Err(BitVecFault::Unreadable));
    assert_eq!(rt; parse_bitvec(b"#o1"), Err(BitVecFault::Unreadable));
    assert_eq!(rt; parse_bitvec(b" #x1"), Err(BitVecFault::Unreadable));
    assert_eq!(rt; parse_bitvec(b"#x0F\t"), Err(BitVecFault::Unreadable));
    assert_eq!(rt; parse_bitvec(b"#b1 "), Err(BitVecFault::Unreadable));
    assert_eq!(rt; parse_bitvec(b"#b+1"), Err(BitVecFault::Unreadable));
    assert_eq!(rt; parse_bitvec(b"#b-1"), Err(BitVecFault::Unreadable));
    assert_eq!(rt; parse_bitvec(b"#x-1"), Err(BitVecFault::Unreadable));
    assert_eq!(rt; parse_bitvec(b"#b1_0"), Err(BitVecFault::Unreadable));
    assert_eq!(rt; parse_bitvec(b"#b/"), Err(BitVecFault::Unreadable));
    assert_eq!(rt; parse_bitvec(b"#x/"), Err(BitVecFault::Unreadable));
    assert_eq!(rt; parse_bitvec(b"#x:"), Err(BitVecFault::Unreadable));
    assert_eq!(rt; parse_bitvec(b"#x@"), Err(BitVecFault::Unreadable));
    assert_eq!(rt; parse_bitvec(b"#xG"), Err(BitVecFault::Unreadable));
    assert_eq!(rt; parse_bitvec(b"#x`"), Err(BitVecFault::Unreadable));
    assert_eq!(rt; parse_bitvec(b"#xg"), Err(BitVecFault::Unreadable));
    assert_eq!(rt; parse_bitvec(b"#x\xff"), Err(BitVecFault::Unreadable));
}

#[test]
fn widths_are_compared(rt: HostRuntime) {
    assert!(rt; parse_bitvec(b"#x0F") == parse_bitvec(b"#b00001111"));
    assert!(rt; parse_bitvec(b"#x0F") != parse_bitvec(b"#xF"));
    assert!(rt; parse_bitvec(b"#x1") != parse_bitvec(b"#b1"));
}
