use super::*;
use ids::IdFault;
use lines::LineMode;
use std::test::Fail;
use words::LineKind;

const TRACE: &[u8] =
    b"[tool-version] Z3 4.8.12\n[mk-app] #1 a\nb\n[mk-var]\n\n[mk-app] x y\n[attach-enode] #1 0\n[eof]\n[mk-app";

#[test]
fn lines_are_counted(rt: HostRuntime) {
    let none = BadId {
        line: 7,
        cause: IdCause::Missing,
    };
    let mut bad = [none; 3];
    let found = count_lines(TRACE, LineMode::Joined, &mut bad);
    assert_eq!(rt; found.lines, 7);
    assert_eq!(rt; found.of_kind(LineKind::MkApp), 2);
    assert_eq!(rt; found.of_kind(LineKind::MkVar), 1);
    assert_eq!(rt; found.unknown, 1);
    assert_eq!(rt; found.too_long, 0);
    assert_eq!(rt; found.good_ids, 2);
    assert_eq!(rt; found.bad_ids, 2);
    assert!(rt; bad[0].line == 2 && bad[0].cause == IdCause::Missing);
    assert!(rt; bad[1].line == 4 && bad[1].cause == IdCause::Fault(IdFault::NoHash));
    assert!(rt; bad[2].line == 7);
}

#[test]
fn causes_print(rt: HostRuntime) -> Result<(), Fail> {
    let missing = IdCause::Missing.to_string(rt.alloc())?;
    assert!(rt; missing.as_str() == "is missing");
    let fault = IdCause::from(IdFault::NoHash).to_string(rt.alloc())?;
    assert!(rt; fault.as_str() == "has no `#`");
    Ok(())
}

#[test]
fn each_line_counts(rt: HostRuntime) {
    let found = count_lines(TRACE, LineMode::EachLine, &mut []);
    assert_eq!(rt; found.lines, 9);
    assert_eq!(rt; found.unknown, 3);
}

#[test]
fn the_bound_comes_first(rt: HostRuntime) {
    let mut line = [b' '; 65_537];
    line[0] = b'[';
    assert!(rt; matches!(classify(&line), LineClass::TooLong));
    assert!(rt; matches!(classify(&line[0..65_536]), LineClass::Unknown));
    assert!(rt; matches!(classify(b"[pop] 1 2"), LineClass::Known(LineKind::Pop)));
}
