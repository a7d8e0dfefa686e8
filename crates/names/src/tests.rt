use super::*;
use ids::NumberFault;
use std::test::Fail;
use words::{Bars, Joined, Words};

// A cursor before word 2.
fn at_name(line: &[u8]) -> Words<'_> {
    let mut words = Words::of(line);
    let _kind = words.next();
    let _id = words.next();
    words
}

fn has_text(name: AppName<'_>, scratch: &[u8], expected: &[u8]) -> bool {
    name.text(scratch).is_some_and(|text| text == expected)
}

// Whether the application on the line is so named, with so many child words.
fn app(line: &[u8], expected: &[u8], children: usize) -> bool {
    let mut words = at_name(line);
    let mut scratch = [0u8; 16];
    let Some(name) = parse_app_name(&mut words, &mut scratch) else {
        return false;
    };
    let named = has_text(name, &scratch, expected);
    named && words.total() == words.number().saturating_add(children)
}

#[test]
fn applications(rt: HostRuntime) {
    assert!(rt; app(b"[mk-app] #5 foo", b"foo", 0));
    assert!(rt; app(b"[mk-app] #5 foo ", b"|foo |", 0));
    assert!(rt; app(b"[mk-app] #5 #6 #7", b"#6", 1));
    assert!(rt; app(b"[mk-app] #5 a\tb  c #1 d", b"|a b  c|", 2));
    assert!(rt; app(b"[mk-app] #5 ", b"", 0));
    assert!(rt; !app(b"[mk-app] #5", b"", 0));
}

// What is told of a joined name, where scratch is too short for it.
fn cut_short(scratch: &mut [u8]) -> Option<usize> {
    let mut words = at_name(b"[mk-app] #5 foo bar #1");
    parse_app_name(&mut words, scratch)?.joined
}

#[test]
fn short_scratch(rt: HostRuntime) {
    let mut scratch = [b'-'; 6];
    let told = cut_short(&mut scratch);
    assert_eq!(rt; told, Some(9));
    assert!(rt; scratch == *b"|foo b");
    let name = AppName {
        first: b"foo",
        joined: told,
    };
    assert!(rt; !has_text(name, &scratch, b"|foo b"));
}

// Whether the line has this name and count, in this style.
fn quant(line: &[u8], new_style: bool, span: &[u8], bars: Bars, count: u32) -> bool {
    let mut words = at_name(line);
    parse_qid(&mut words, new_style).is_ok_and(|qid| qid.name.span == span
        && qid.name.bars == bars
        && qid.num_vars == count)
}

fn quant_fault(line: &[u8], new_style: bool) -> Option<QidFault> {
    let mut words = at_name(line);
    parse_qid(&mut words, new_style).err()
}

#[test]
fn quantifiers(rt: HostRuntime) {
    assert!(rt; quant(b"[mk-quant] #9 a b 1 #8", false, b"a b", Bars::Both, 1));
    assert!(rt; quant(b"[mk-quant] #9 a 1 #8", false, b"a", Bars::Bare, 1));
    assert!(rt; quant(b"[mk-quant] #9 |a b| 2 #8", true, b"|a b|", Bars::Bare, 2));
    assert!(rt; quant(b"[mk-quant] #9 | 2", true, b"|", Bars::Bare, 2));
    let bad = quant_fault(b"[mk-quant] #9 a b 1", true);
    assert_eq!(rt; bad, Some(QidFault::Count(3, NumberFault::NotDigit(0))));
    assert_eq!(rt;
        quant_fault(b"[mk-quant] #9 |a b", true),
        Some(QidFault::Missing)
    );
    assert_eq!(rt;
        quant_fault(b"[mk-quant] #9 a b", false),
        Some(QidFault::Missing)
    );
}

#[test]
fn faults_are_told(rt: HostRuntime) -> Result<(), Fail> {
    let fault = QidFault::Count(3, NumberFault::NotDigit(0));
    let text = format!(in rt.alloc(); "{fault}")?;
    assert_eq!(rt;
        text.as_str(),
        "word 3 is no count: it has a byte that is no digit at place 0"
    );
    let missing = QidFault::Missing;
    let text = format!(in rt.alloc(); "{missing}")?;
    assert_eq!(rt; text.as_str(), "no name with a count");
    Ok(())
}

// Whether the name has this first piece and number.
fn numbered(span: &[u8], bars: Bars, piece: &[u8], number: u64) -> bool {
    match QuantKindParse::parse(Joined { span, bars }) {
        QuantKindParse::Named(_) => false,
        QuantKindParse::Unnamed { name, id } => name.span == piece && id == number,
    }
}

#[test]
fn numbered_names(rt: HostRuntime) {
    assert!(rt; numbered(b"k!12", Bars::Bare, b"k", 12));
    assert!(rt; numbered(b"k!+012!x", Bars::Bare, b"k", 12));
    assert!(rt; numbered(b"a b!7!c", Bars::Both, b"a b", 7));
    assert!(rt; numbered(b"!18446744073709551615", Bars::Bare, b"", u64::MAX));
    assert!(rt; !numbered(b"k!18446744073709551616", Bars::Bare, b"k", 0));
    assert!(rt; !numbered(b"a b!7", Bars::Both, b"a b", 7));
    assert!(rt; !numbered(b"k!", Bars::Bare, b"k", 0));
    assert!(rt; !numbered(b"k", Bars::Bare, b"k", 0));
}
