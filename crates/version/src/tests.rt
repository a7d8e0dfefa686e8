use crate::{is_new, parse_version, precedence};
use std::cmp::Ordering;
use std::test::Fail;

// The standard's own list of versions, but for the one whose numbers pass the limit, and two at the limit.
const VERSIONS: &str =
    "0.0.4 1.2.3 10.20.30 1.1.2-prerelease+meta 1.1.2+meta 1.1.2+meta-valid 1.0.0-alpha 1.0.0-beta \
    1.0.0-alpha.beta 1.0.0-alpha.beta.1 1.0.0-alpha.1 1.0.0-alpha0.valid 1.0.0-alpha.0valid \
    1.0.0-alpha-a.b-c-somethinglong+build.1-aef.1-its-okay 1.0.0-rc.1+build.1 2.0.0-rc.1+build.123 1.2.3-beta \
    10.2.3-DEV-SNAPSHOT 1.2.3-SNAPSHOT-123 1.0.0 2.0.0 1.1.7 2.0.0+build.1848 2.0.1-alpha.1227 1.0.0-alpha+beta \
    1.2.3----RC-SNAPSHOT.12.9.1--.12+788 1.2.3----R-S.12.9.1--.12+meta 1.2.3----RC-SNAPSHOT.12.9.1--.12 \
    1.0.0+0.build.1-rc.10000aaa-kk-0.1 1.0.0-0A.is.legal \
    0.0.0-99999999999999999999999 18446744073709551615.18446744073709551615.18446744073709551615";

// The examples of the clauses on numbers (2), pre-releases (9) and build metadata (10), and of the questions at the end.
const CLAUSES: &str =
    "1.9.0 1.10.0 1.11.0 1.0.0-alpha 1.0.0-alpha.1 1.0.0-0.3.7 1.0.0-x.7.z.92 1.0.0-x-y-z.-- 1.0.0-alpha+001 \
    1.0.0+20130313144700 1.0.0-beta+exp.sha.5114f85 1.0.0+21AF26D3----117B344092BD 0.1.0 1.2.3";

// Its list of texts that are no versions, a few more, and versions past the limit.
const OTHERS: &str =
    "1 1.2 1.2.3-0123 1.2.3-0123.0123 1.1.2+.123 +invalid -invalid -invalid+invalid -invalid.01 alpha \
    alpha.beta alpha.beta.1 alpha.1 alpha+beta alpha_beta alpha. alpha.. beta 1.0.0-alpha_beta -alpha. 1.0.0-alpha.. \
    1.0.0-alpha..1 1.0.0-alpha...1 1.0.0-alpha....1 01.1.1 1.01.1 1.1.01 1.2 1.2.3.DEV 1.2-SNAPSHOT \
    1.2.31.2.3----RC-SNAPSHOT.12.09.1--..12+788 1.2-RC-SNAPSHOT -1.0.3-gamma+b7718 +justmeta 9.8.7+meta+meta \
    9.8.7-whatever+meta+meta 1.0.0- 1.0.0+ 1.0.0. v1.0.0 1.0.0-a/b 1.0.0-a:b 1.0.0-a@b 1.0.0-a[b 1.0.0-a`b 1.0.0-a{b 1.0.0-a,b \
    18446744073709551616.0.0 0.18446744073709551616.0 0.0.18446744073709551616 99999999999999999999999.999999999999999999.9";

// The chains of the clause on precedence.
const CHAIN: &str =
    "1.0.0-alpha 1.0.0-alpha.1 1.0.0-alpha.beta 1.0.0-beta 1.0.0-beta.2 1.0.0-beta.11 1.0.0-rc.1 1.0.0 \
    2.0.0 2.1.0 2.1.1";

// What its list has besides, and the text that its questions at the end name as none.
const MORE_OTHERS: &str = "1.0.0-alpha.....1 1.0.0-alpha......1 1.0.0-alpha.......1 v1.2.3 \
    99999999999999999999999.999999999999999999.99999999999999999 \
    99999999999999999999999.999999999999999999.99999999999999999----RC-SNAPSHOT.12.09.1--------------------------------..12";

#[test]
fn takes_versions(rt: HostRuntime) {
    for text in VERSIONS.split(' ') {
        assert!(rt; parse_version(text.as_bytes()).is_some(), "{}", text);
    }
}

#[test]
fn takes_the_examples_of_the_clauses(rt: HostRuntime) {
    for text in CLAUSES.split(' ') {
        assert!(rt; parse_version(text.as_bytes()).is_some(), "{}", text);
    }
}

#[test]
fn refuses_the_rest_of_the_list(rt: HostRuntime) {
    for text in MORE_OTHERS.split(' ') {
        assert!(rt; parse_version(text.as_bytes()).is_none(), "{}", text);
    }
}

// Each number at 2^64 - 1 and at 2^64, also before a pre-release and build metadata; numbers of a pre-release have no limit.
#[test]
fn limits(rt: HostRuntime) {
    assert!(rt;
        precedence(b"18446744073709551615.0.0", b"18446744073709551614.9.9")
            == Some(Ordering::Greater)
    );
    assert!(rt;
        precedence(b"0.18446744073709551615.0", b"0.18446744073709551614.9")
            == Some(Ordering::Greater)
    );
    assert!(rt;
        precedence(b"0.0.18446744073709551615", b"0.0.18446744073709551614")
            == Some(Ordering::Greater)
    );
    assert!(rt; parse_version(b"18446744073709551616.0.0-a+b").is_none());
    assert!(rt; parse_version(b"0.18446744073709551616.0-a+b").is_none());
    assert!(rt; parse_version(b"0.0.18446744073709551616-a+b").is_none());
    assert!(rt; parse_version(b"0.0.018446744073709551615").is_none());
    assert!(rt;
        precedence(b"1.0.0-18446744073709551615", b"1.0.0-18446744073709551616")
            == Some(Ordering::Less)
    );
    assert!(rt;
        precedence(b"1.0.0-18446744073709551617", b"1.0.0-18446744073709551616")
            == Some(Ordering::Greater)
    );
    assert!(rt; is_new(b"18446744073709551615.0.0") == Some(true));
    assert!(rt; is_new(b"18446744073709551616.0.0") == None);
}

#[test]
fn refuses_others(rt: HostRuntime) {
    for text in OTHERS.split(' ') {
        assert!(rt; parse_version(text.as_bytes()).is_none(), "{}", text);
    }
    assert!(rt; parse_version(b"").is_none());
    assert!(rt; parse_version(b"1.0.0 ").is_none());
}

#[test]
fn keeps_the_parts(rt: HostRuntime) -> Result<(), Fail> {
    let v = parse_version(b"18446744073709551615.22.333-rc.1+x-y").ok_or("no version")?;
    let n = v.core;
    assert_eq!(rt; (n.major, n.minor, n.patch), (u64::MAX, 22, 333));
    assert!(rt; v.pre.ok_or("no pre-release")? == b"rc.1".as_slice());
    assert!(rt; v.build.ok_or("no build")? == b"x-y".as_slice());
    Ok(())
}

#[test]
fn long_texts(rt: HostRuntime) {
    let mut text = [b'9'; 60_004];
    text[60_000] = b'.';
    text[60_002] = b'.';
    assert!(rt; parse_version(&text).is_none());
    text[1] = b'.';
    text[3] = b'.';
    text[5] = b'-';
    assert!(rt; precedence(&text, b"9.9.9-99") == Some(Ordering::Greater));
}

#[test]
fn chains(rt: HostRuntime) {
    for (i, a) in CHAIN.split(' ').enumerate() {
        for (j, b) in CHAIN.split(' ').enumerate() {
            let order = precedence(a.as_bytes(), b.as_bytes());
            assert!(rt; order == Some(i.cmp(&j)), "{}", b);
        }
    }
    assert!(rt; precedence(b"1.9.0", b"1.10.0") == Some(Ordering::Less));
    assert!(rt; precedence(b"1.10.0", b"1.11.0") == Some(Ordering::Less));
    assert!(rt; precedence(b"1.0.0-alpha", b"1.0.0") == Some(Ordering::Less));
    assert!(rt; precedence(b"1.0.0-alpha+001", b"1.0.0-alpha") == Some(Ordering::Equal));
    assert!(rt; precedence(b"1.0.0+a", b"1.0.0+b") == Some(Ordering::Equal));
    assert!(rt; precedence(b"1.0.0-0", b"1.0.0--") == Some(Ordering::Less));
    assert!(rt; precedence(b"1.0.0", b"1.0") == None);
}

#[test]
fn newness(rt: HostRuntime) {
    for text in "4.9.0 4.9.0+x 4.9.1-a 4.10.0-a 4.12.2 10.0.0".split(' ') {
        assert!(rt; is_new(text.as_bytes()) == Some(true), "{}", text);
    }
    for text in "4.9.0-rc.1 4.9.0-99 4.8.17 3.99.99 0.0.0".split(' ') {
        assert!(rt; is_new(text.as_bytes()) == Some(false), "{}", text);
    }
    assert!(rt; is_new(b"4.9") == None);
}
