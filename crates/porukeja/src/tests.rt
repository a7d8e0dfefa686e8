use crate::options::{Command, Misuse, read};
use crate::values::{Fault, read_meaning, read_var_names, read_version};
use lines::LineMode;

#[test]
fn options_are_read(rt: HostRuntime) {
    let wanted = read(&["kinds", "--each-line", "a.log", "--names"]);
    assert!(rt; matches!(wanted, Ok(Command::Kinds(_))));
    if let Ok(Command::Kinds(wanted)) = wanted {
        assert!(rt; wanted.names && !wanted.trace.progress);
        assert!(rt; wanted.trace.mode == LineMode::EachLine);
        assert!(rt; wanted.trace.path == "a.log");
    }
}

#[test]
fn wrong_arguments_are_refused(rt: HostRuntime) {
    assert!(rt; matches!(read(&[]), Err(Misuse::NoCommand)));
    assert!(rt;
        matches!(
            read(&["kind", "a.log"]),
            Err(Misuse::UnknownCommand("kind"))
        )
    );
    assert!(rt; matches!(read(&["kinds"]), Err(Misuse::NoTrace)));
    assert!(rt;
        matches!(
            read(&["kinds", "--name", "a"]),
            Err(Misuse::UnknownOption("--name"))
        )
    );
    assert!(rt; matches!(read(&["kinds", "a", "b"]), Err(Misuse::SecondTrace("b"))));
    assert!(rt; matches!(read(&["help"]), Ok(Command::Help)));
}

#[test]
fn lines_are_told(rt: HostRuntime) {
    let told = |read: Result<(), Fault>| read.err().map(|fault| fault.told());
    assert_eq!(rt; told(read_version(b"[tool-version] Z3 4.8.7")), None);
    assert_eq!(rt; told(read_version(b"[tool-version] Z3")), Some((2, 2)));
    assert_eq!(rt;
        told(read_version(b"[tool-version] Z3 4.8 x")),
        Some((3, 3))
    );
    assert_eq!(rt; told(read_version(b"[tool-version] Z3 4.8")), Some((4, 2)));
    assert_eq!(rt; told(read_meaning(b"[attach-meaning] #1 arith 5")), None);
    assert_eq!(rt; told(read_meaning(b"[attach-meaning] #1")), Some((2, 2)));
    assert_eq!(rt;
        told(read_meaning(b"[attach-meaning] 1 arith x")),
        Some((10, 3))
    );
    assert_eq!(rt;
        told(read_meaning(b"[attach-meaning] 1 fp x")),
        Some((5, 1))
    );
    assert_eq!(rt; told(read_meaning(b"[attach-meaning] #x fp")), Some((6, 1)));
    assert_eq!(rt;
        told(read_var_names(b"[attach-var-names] #1 (|x|;|Int|)")),
        None
    );
    assert_eq!(rt; told(read_var_names(b"[attach-var-names]")), Some((2, 1)));
    assert_eq!(rt;
        told(read_var_names(b"[attach-var-names] #1")),
        Some((14, 2))
    );
    assert_eq!(rt;
        told(read_var_names(b"[attach-var-names] #1 (x;|Int|)")),
        Some((18, 2))
    );
}
