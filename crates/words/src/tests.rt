use super::*;
use std::test::Fail;

#[test]
fn words_may_be_empty(rt: HostRuntime) -> Result<(), Fail> {
    let mut words = Words::of(b"[mk-app]  #5\tfoo ");
    assert_eq!(rt; words.total(), 5);
    assert!(rt; words.next().ok_or("word 0")? == b"[mk-app]".as_slice());
    assert!(rt; words.next().ok_or("word 1")?.is_empty());
    assert_eq!(rt; words.number(), 2);
    assert!(rt; words.next().ok_or("word 2")? == b"#5".as_slice());
    assert!(rt; words.next().ok_or("word 3")? == b"foo".as_slice());
    assert!(rt; words.next().ok_or("word 4")?.is_empty());
    assert!(rt; words.next().is_none());
    assert_eq!(rt; words.number(), 5);
    assert_eq!(rt; words.total(), 5);
    Ok(())
}

#[test]
fn an_empty_line_has_one_word(rt: HostRuntime) -> Result<(), Fail> {
    let mut words = Words::of(b"");
    assert_eq!(rt; words.total(), 1);
    assert!(rt; words.next().ok_or("word 0")?.is_empty());
    assert!(rt; words.next().is_none());
    Ok(())
}

#[test]
fn spans_run_over_separators(rt: HostRuntime) -> Result<(), Fail> {
    let mut words = Words::of(b"a b\rc d");
    assert!(rt; words.span(0).is_none());
    assert!(rt; words.span(5).is_none());
    assert!(rt; words.span(3).ok_or("three words")? == b"a b\rc".as_slice());
    assert_eq!(rt; words.number(), 3);
    assert!(rt; words.rest_of_line().ok_or("a word")? == b"d".as_slice());
    assert!(rt; words.span(1).ok_or("one word")? == b"d".as_slice());
    assert!(rt; words.rest_of_line().is_none());
    Ok(())
}

#[test]
fn joined_texts_have_spaces_and_bars(rt: HostRuntime) {
    let text = Joined {
        span: b"a\tb",
        bars: Bars::Both,
    };
    assert_eq!(rt; text.len(), 5);
    assert_eq!(rt; text.byte(0), Some(b'|'));
    assert_eq!(rt; text.byte(2), Some(b' '));
    assert_eq!(rt; text.byte(4), Some(b'|'));
    assert_eq!(rt; text.byte(5), None);
    let front = Joined {
        span: b"ab",
        bars: Bars::Front,
    };
    assert_eq!(rt; front.byte(2), Some(b'b'));
    assert_eq!(rt; front.byte(3), None);
}

#[test]
fn kinds_are_exact(rt: HostRuntime) {
    assert_eq!(rt; LineKind::of(b"[mk-app]"), Some(LineKind::MkApp));
    assert_eq!(rt; LineKind::of(b"[eof]"), Some(LineKind::Eof));
    assert!(rt; LineKind::of(b"[mk-app] ").is_none());
    assert!(rt; LineKind::of(b"[mk-ap]").is_none());
    assert!(rt; LineKind::of(b"").is_none());
    for kind in KINDS {
        assert!(rt; LineKind::of(kind.text().as_bytes()).is_some());
    }
}

#[test]
fn kinds_print_their_text(rt: HostRuntime) -> Result<(), Fail> {
    let kind = LineKind::AttachVarNames;
    let text = format!(in rt.alloc(); "{kind}")?;
    assert_eq!(rt; text.as_str(), "[attach-var-names]");
    assert_eq!(rt; usize::from(kind), 5);
    Ok(())
}

#[test]
fn the_bound_is_the_last_length_read(rt: HostRuntime) {
    let line = [b'x'; 65_537];
    assert!(rt; !too_long(&line[0..65_536]));
    assert!(rt; too_long(&line));
}
