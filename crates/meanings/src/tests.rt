use super::*;

// Whether two values of theories have one meaning.
fn alike(theory: &[u8], value: &[u8], other: &[u8], text: &[u8]) -> Result<bool, MeaningFault> {
    Ok(Meaning::read(theory, value)? == Meaning::read(other, text)?)
}

// The number that a value is refused by, if it is.
fn number(theory: &[u8], value: &[u8]) -> Option<u8> {
    Meaning::read(theory, value)
        .err()
        .map(|fault| u8::from(fault))
}

#[test]
fn meanings_are_compared(rt: HostRuntime) {
    assert!(rt;
        matches!(
            alike(b"arith", b"(/ 6 4)", b"arith", b"(/ 3 2) and more"),
            Ok(true)
        )
    );
    assert!(rt; matches!(alike(b"arith", b"1", b"arith", b"2"), Ok(false)));
    assert!(rt; matches!(alike(b"bv", b"#x0F", b"bv", b"#b00001111"), Ok(true)));
    assert!(rt; matches!(alike(b"bv", b"#x0F", b"bv", b"#b1111"), Ok(false)));
    assert!(rt; matches!(alike(b"seq", b"a\tb", b"seq", b"a b"), Ok(true)));
    assert!(rt; matches!(alike(b"seq", b"a b", b"seq", b"a  b"), Ok(false)));
    assert!(rt; matches!(alike(b"seq", b"", b"fp", b""), Ok(false)));
    assert!(rt; matches!(alike(b"arith", b"15", b"bv", b"#x0f"), Ok(false)));
}

#[test]
fn refusals_have_numbers(rt: HostRuntime) {
    assert_eq!(rt; number(b"arith", b""), Some(10));
    assert_eq!(rt; number(b"arith", b"(/ 1 0)"), Some(11));
    assert_eq!(rt; number(b"arith", b"2147483648"), Some(12));
    assert_eq!(rt; number(b"bv", b""), Some(10));
    assert_eq!(rt; number(b"bv", b"#x0F "), Some(10));
    assert_eq!(rt; number(b"bv", b"#x10000000000000000"), Some(12));
    assert_eq!(rt; number(b"seq", b""), None);
}

// The number that the words of a line from word 2 on are refused by, none where they are read or where there is no theory.
fn number_of_words(line: &[u8]) -> Option<u8> {
    let mut words = Words::of(line);
    let _id = words.nth(1);
    let read = Meaning::of_words(words)?;
    read.err().map(|fault| u8::from(fault))
}

#[test]
fn words_have_meanings(rt: HostRuntime) {
    let number = Words::of(b"arith (/ 6\t4)");
    assert!(rt; matches!(Meaning::of_words(number), Some(Ok(Meaning::Arith(_)))));
    let line = Words::of(b"fp +zero 8  24");
    let text = Meaning::Unknown {
        theory: b"fp",
        value: b"+zero 8  24",
    };
    assert!(rt; Meaning::of_words(line) == Some(Ok(text)));
    assert_eq!(rt; number_of_words(b"[attach-meaning] #1 bv"), Some(10));
    assert_eq!(rt; number_of_words(b"[attach-meaning] #1 fp"), None);
    assert!(rt; Meaning::of_words(Words::of(b"fp")).is_some());
}
