use super::*;
use std::test::Fail;
use words::Words;

// A cursor behind the identifier.
fn behind_id(line: &[u8]) -> Words<'_> {
    let mut words = Words::of(line);
    let _kind = words.next();
    let _id = words.next();
    words
}

fn taken(line: &[u8], form: NameForm, pairs: usize) -> bool {
    match check_var_names(behind_id(line)) {
        Ok(names) => names == NamesText { form, pairs },
        Err(_) => false,
    }
}

fn refused(line: &[u8], fault: PairFault, word: usize) -> bool {
    match check_var_names(behind_id(line)) {
        Ok(_) => false,
        Err(refusal) => refusal == PairRefusal { fault, word },
    }
}

// The number and the word of a refusal.
fn told(line: &[u8]) -> Option<(u8, usize)> {
    check_var_names(behind_id(line))
        .err()
        .map(|refusal| (u8::from(refusal.fault), refusal.word))
}

#[test]
fn lists_in_every_form(rt: HostRuntime) {
    assert!(rt; taken(b"x #5 (|a|;|Int|) (|b|;|Bool|)", NameForm::NameAndType, 2));
    assert!(rt; taken(b"x #5 (|a| |Int|) (|b| |Bool|)", NameForm::NameAndType, 2));
    assert!(rt; taken(b"x #5 (|a| ; |Int|)", NameForm::NameAndType, 1));
    assert!(rt; taken(b"x #5 (;Int) (;List(Int))", NameForm::TypeOnly, 2));
    assert!(rt; taken(b"x #5 ( Int)", NameForm::TypeOnly, 1));
    assert!(rt; taken(b"x #5 ( ; Int) ( ; ;)", NameForm::TypeOnly, 2));
}

#[test]
fn words_and_pieces_are_missing(rt: HostRuntime) {
    assert!(rt; refused(b"x #5", PairFault::NoPair, 2));
    assert!(rt; refused(b"x #5 (|a|", PairFault::Missing, 3));
    assert!(rt; refused(b"x #5 (|a| ;", PairFault::Missing, 4));
    assert!(rt; refused(b"x #5 (|a|;|T|) (|b|)", PairFault::Missing, 3));
    assert!(rt; refused(b"x #5 (|a|;|T|) (|b|", PairFault::Missing, 4));
}

#[test]
fn brackets_are_missing(rt: HostRuntime) {
    assert!(rt; refused(b"x #5 ", PairFault::Missing, 3));
    assert!(rt; refused(b"x #5 |a|;|T|)", PairFault::Bracket, 2));
    assert!(rt; refused(b"x #5 (|a|;|T|;u)", PairFault::Bracket, 2));
    assert!(rt; refused(b"x #5 (|a| |T|) (|b| |T|", PairFault::Bracket, 4));
}

#[test]
fn forms_come_before_what_is_missing(rt: HostRuntime) {
    assert!(rt; refused(b"x #5 (|a|;|T|) b |T|", PairFault::TwoForms, 3));
    assert!(rt; refused(b"x #5 (|a| |T|) (|b|)", PairFault::TwoForms, 4));
    assert!(rt; refused(b"x #5 (|a| |T|) (|b| ;", PairFault::TwoForms, 4));
}

#[test]
fn types_and_names_are_kept_apart(rt: HostRuntime) {
    assert!(rt; refused(b"x #5 (;T) (|a|;T)", PairFault::TypesThenName, 3));
    assert!(rt; refused(b"x #5 (|a|;|T|) (;T)", PairFault::BarMissing, 3));
    assert!(rt; refused(b"x #5 (|;|T|)", PairFault::BarMissing, 2));
    assert_eq!(rt; u8::from(PairFault::BarMissing), 18);
}

#[test]
fn pairs_one_by_one(rt: HostRuntime) -> Result<(), Fail> {
    let mut words = behind_id(b"x #5 (a;b) (c ; d) (e f)");
    let first = read_pair(&mut words, None, true).ok().ok_or("a pair")?;
    assert_eq!(rt; first.form, Form::OneWord);
    assert!(rt; first.parts.0 == b"a".as_slice());
    assert!(rt; first.parts.1 == b"b".as_slice());
    assert!(rt; read_pair(&mut words, Some(first.form), true).is_err());
    assert_eq!(rt; words.number(), 3);
    let second = read_pair(&mut words, Some(first.form), false)
        .ok()
        .ok_or("a pair")?;
    assert_eq!(rt; second.form, Form::Apart);
    assert!(rt; second.parts.1 == b"d".as_slice());
    assert_eq!(rt; words.number(), 6);
    Ok(())
}

#[test]
fn parts_are_sorted(rt: HostRuntime) -> Result<(), Fail> {
    let (name, sort) = sort_pair(NameForm::NameAndType, (b"|a|", b"||"))
        .ok()
        .ok_or("a name")?;
    assert!(rt; name == b"a".as_slice());
    assert!(rt; sort.is_empty());
    let (none, kept) = sort_pair(NameForm::TypeOnly, (b"", b"|T|"))
        .ok()
        .ok_or("a type")?;
    assert!(rt; none.is_empty());
    assert!(rt; kept == b"|T|".as_slice());
    assert!(rt; sort_pair(NameForm::TypeOnly, (b"a", b"T")).is_err());
    Ok(())
}

#[test]
fn good_pairs_of_every_form(rt: HostRuntime) {
    assert!(rt; taken(b"x #5 (;T)", NameForm::TypeOnly, 1));
    assert!(rt; taken(b"x #5 (;)", NameForm::TypeOnly, 1));
    assert!(rt; taken(b"x #5 (;|T|)", NameForm::TypeOnly, 1));
    assert!(rt; taken(b"x #5 (;T);x)", NameForm::TypeOnly, 1));
    assert!(rt; taken(b"x #5 (||;||)", NameForm::NameAndType, 1));
    assert!(rt; taken(b"x #5 (|a|;|T|);)", NameForm::NameAndType, 1));
    assert!(rt;
        taken(
            b"x #5 (|a|;|T|) (|b|;|T|) (|c|;||)",
            NameForm::NameAndType,
            3
        )
    );
    assert!(rt; taken(b"x #5 ( T) ( T)", NameForm::TypeOnly, 2));
    assert!(rt; taken(b"x #5 ( )", NameForm::TypeOnly, 1));
    assert!(rt; taken(b"x #5 ( ;)", NameForm::TypeOnly, 1));
    assert!(rt; taken(b"x #5 (|| ||)", NameForm::NameAndType, 1));
    assert!(rt; taken(b"x #5 (|a;b| |T;U|)", NameForm::NameAndType, 1));
    assert!(rt; taken(b"x #5 (|a|\t|T|)\x0c(|b|\r|U|)", NameForm::NameAndType, 2));
    assert!(rt; taken(b"x #5 ( ; )", NameForm::TypeOnly, 1));
    assert!(rt; taken(b"x #5 ( ; ))", NameForm::TypeOnly, 1));
    assert!(rt; taken(b"x #5 (|| ; ||)", NameForm::NameAndType, 1));
    assert!(rt;
        taken(
            b"x #5 (|a| ; |T|) (|b;c| ; |(U)|) (|d| ; |V|)",
            NameForm::NameAndType,
            3
        )
    );
}

// The refusals by number and word. 2: a pair of one word tells its own word, others the number of words on the line.
#[test]
fn refusals_2(rt: HostRuntime) {
    assert_eq!(rt; told(b"x #5 (|a|)"), Some((2, 2)));
    assert_eq!(rt; told(b"x #5 )"), Some((2, 2)));
    assert_eq!(rt; told(b"x #5 |a|)"), Some((2, 2)));
    assert_eq!(rt; told(b"x #5 (|f() |T|)"), Some((2, 2)));
    assert_eq!(rt; told(b"x #5 (|a|;|T|) (|b|) (|c|;|U|)"), Some((2, 3)));
    assert_eq!(rt; told(b"x #5 (;T) (U)"), Some((2, 3)));
    assert_eq!(rt; told(b"x #5 (|a| |T|) (|b|"), Some((2, 5)));
    assert_eq!(rt; told(b"x #5 (|a| |T|) |b|"), Some((2, 5)));
    assert_eq!(rt; told(b"x #5 (|a|;|T|) "), Some((2, 4)));
    assert_eq!(rt; told(b"x #5 (|a|"), Some((2, 3)));
    assert_eq!(rt; told(b"x #5 (|a| |T|) "), Some((2, 5)));
    assert_eq!(rt; told(b"x #5 (|a| ;"), Some((2, 4)));
    assert_eq!(rt; told(b"x #5 |a| ;"), Some((2, 4)));
    assert_eq!(rt; told(b"x #5 (|a| ; |T|) (|b| ;"), Some((2, 7)));
    assert_eq!(rt; told(b"x #5 ( ; T) ( ;"), Some((2, 7)));
    assert_eq!(rt; told(b"x #5 (|a| ; |T|) "), Some((2, 6)));
}

#[test]
fn refusals_14(rt: HostRuntime) {
    assert_eq!(rt; told(b"x #5"), Some((14, 2)));
    let mut words = behind_id(b"x #5 (;T)");
    assert!(rt; read_pair(&mut words, None, true).is_ok());
    assert!(rt;
        read_pair(&mut words, None, true).err()
            == Some(PairRefusal {
                fault: PairFault::NoPair,
                word: 3,
            })
    );
}

#[test]
fn refusals_15(rt: HostRuntime) {
    assert_eq!(rt; told(b"x #5 |a|;|T|)"), Some((15, 2)));
    assert_eq!(rt; told(b"x #5 (|a|;|T|;)"), Some((15, 2)));
    assert_eq!(rt; told(b"x #5 (|a|;|T|) |b|;|U|)"), Some((15, 3)));
    assert_eq!(rt; told(b"x #5 (|a|;|T|) (|b|;|U|;u)"), Some((15, 3)));
    assert_eq!(rt; told(b"x #5 (;T) ;U)"), Some((15, 3)));
    assert_eq!(rt; told(b"x #5 (;T) a;U)"), Some((15, 3)));
    assert_eq!(rt; told(b"x #5 |a| |T|)"), Some((15, 2)));
    assert_eq!(rt; told(b"x #5 (|a| |T|"), Some((15, 2)));
    assert_eq!(rt; told(b"x #5 (|a|  |T|)"), Some((15, 2)));
    assert_eq!(rt; told(b"x #5  (|a|;|T|)"), Some((15, 2)));
    assert_eq!(rt; told(b"x #5 (|a| ;|T|"), Some((15, 2)));
    assert_eq!(rt; told(b"x #5 (|a| |T|) |b| |U|)"), Some((15, 4)));
    assert_eq!(rt; told(b"x #5 ( T) a U"), Some((15, 4)));
    assert_eq!(rt; told(b"x #5 |a| ; |T|)"), Some((15, 2)));
    assert_eq!(rt; told(b"x #5 (|a| ; |T|"), Some((15, 2)));
    assert_eq!(rt; told(b"x #5 (|a| ; ;"), Some((15, 2)));
    assert_eq!(rt; told(b"x #5 (|a| ; |T|) |b| ; |U|)"), Some((15, 5)));
    assert_eq!(rt; told(b"x #5 (|a| ; |T|) (|b| ; |U|"), Some((15, 5)));
    assert_eq!(rt; told(b"x #5 |a|;|T|) (|b| |U|)"), Some((15, 2)));
}

// A form is told before pieces, a third word, brackets, and what is said of types and bars.
#[test]
fn refusals_16(rt: HostRuntime) {
    assert_eq!(rt; told(b"x #5 (|a|;|T|) (|b| |U|)"), Some((16, 3)));
    assert_eq!(rt; told(b"x #5 (|a|;|T|) (|b| ; |U|)"), Some((16, 3)));
    assert_eq!(rt; told(b"x #5 (|a| |T|) (|b|;|U|)"), Some((16, 4)));
    assert_eq!(rt; told(b"x #5 (|a| |T|) (|b| ; |U|)"), Some((16, 4)));
    assert_eq!(rt; told(b"x #5 (|a| ; |T|) (|b|;|U|)"), Some((16, 5)));
    assert_eq!(rt; told(b"x #5 (|a| ; |T|) (|b| |U|)"), Some((16, 5)));
    assert_eq!(rt; told(b"x #5 (|a|;|T|) (|b|;|U|) (|c| |V|)"), Some((16, 4)));
    assert_eq!(rt; told(b"x #5 (;T) ( U)"), Some((16, 3)));
    assert_eq!(rt; told(b"x #5 ( T) (;U)"), Some((16, 4)));
    assert_eq!(rt; told(b"x #5 ( ; T) ( U)"), Some((16, 5)));
    assert_eq!(rt; told(b"x #5 (;T) (|a| |U|)"), Some((16, 3)));
    assert_eq!(rt; told(b"x #5 (|a|;|T|) (b ;"), Some((16, 3)));
    assert_eq!(rt; told(b"x #5 (|a| ; |T|) )"), Some((16, 5)));
    assert_eq!(rt; told(b"x #5 (|a| |T|) |b| ;"), Some((16, 4)));
}

#[test]
fn refusals_17(rt: HostRuntime) {
    assert_eq!(rt; told(b"x #5 (;T) (|a|;|U|)"), Some((17, 3)));
    assert_eq!(rt; told(b"x #5 (;T) (a;U) (;V)"), Some((17, 3)));
    assert_eq!(rt; told(b"x #5 (;T) (;U) (|a|;|V|)"), Some((17, 4)));
    assert_eq!(rt; told(b"x #5 ( T) (|a| |U|)"), Some((17, 4)));
    assert_eq!(rt; told(b"x #5 ( T) ( U) (a V)"), Some((17, 6)));
    assert_eq!(rt; told(b"x #5 ( ; T) (|a| ; |U|)"), Some((17, 5)));
    assert_eq!(rt; told(b"x #5 (;T) (a;U) (|b| |V|)"), Some((17, 3)));
}

#[test]
fn refusals_18(rt: HostRuntime) {
    assert_eq!(rt; told(b"x #5 (a;T)"), Some((18, 2)));
    assert_eq!(rt; told(b"x #5 (a|;|T|)"), Some((18, 2)));
    assert_eq!(rt; told(b"x #5 (|a;|T|)"), Some((18, 2)));
    assert_eq!(rt; told(b"x #5 (|a|;T|)"), Some((18, 2)));
    assert_eq!(rt; told(b"x #5 (|a|;|T)"), Some((18, 2)));
    assert_eq!(rt; told(b"x #5 (|;|T|)"), Some((18, 2)));
    assert_eq!(rt; told(b"x #5 (|a|;|)"), Some((18, 2)));
    assert_eq!(rt; told(b"x #5 (|a|;)"), Some((18, 2)));
    assert_eq!(rt; told(b"x #5 (|a|;|T|) (;U)"), Some((18, 3)));
    assert_eq!(rt; told(b"x #5 (|a|;|T|) (b;|U|)"), Some((18, 3)));
    assert_eq!(rt; told(b"x #5 (|a|;|T|) (|b|;|U|) (|c|;V)"), Some((18, 4)));
    assert_eq!(rt; told(b"x #5 (a |T|)"), Some((18, 2)));
    assert_eq!(rt; told(b"x #5 (|a| T)"), Some((18, 2)));
    assert_eq!(rt; told(b"x #5 (|a| |T|) ( |U|)"), Some((18, 4)));
    assert_eq!(rt; told(b"x #5 (|a| |T|) (|b| U)"), Some((18, 4)));
    assert_eq!(rt; told(b"x #5 (a ; |T|)"), Some((18, 2)));
    assert_eq!(rt; told(b"x #5 (|a| ; T)"), Some((18, 2)));
    assert_eq!(rt; told(b"x #5 (|a| ; )"), Some((18, 2)));
    assert_eq!(rt; told(b"x #5 (|a| ; |T|) ( ; |U|)"), Some((18, 5)));
    assert_eq!(rt; told(b"x #5 (|a| ; |T|) (|b| ; U)"), Some((18, 5)));
    assert_eq!(rt; told(b"x #5 (a;|T|) (|b| |U|)"), Some((18, 2)));
    assert_eq!(rt; told(b"x #5 (a;|T|) |b|;|U|)"), Some((18, 2)));
}

// The number and the word of a refusal of one pair, after a first pair of the form `first`.
fn pair_told(line: &[u8], first: Form, forms_equal: bool) -> Option<(u8, usize)> {
    let mut words = behind_id(line);
    read_pair(&mut words, Some(first), forms_equal)
        .err()
        .map(|refusal| (u8::from(refusal.fault), refusal.word))
}

#[test]
fn forms_may_differ(rt: HostRuntime) {
    assert_eq!(rt; pair_told(b"x #5 (a;b)", Form::OneWord, true), None);
    assert_eq!(rt;
        pair_told(b"x #5 (a;b)", Form::TwoWords, true),
        Some((16, 2))
    );
    assert_eq!(rt; pair_told(b"x #5 (a;b)", Form::Apart, true), Some((16, 2)));
    assert_eq!(rt; pair_told(b"x #5 (a;b)", Form::Apart, false), None);
    assert_eq!(rt;
        pair_told(b"x #5 (a b)", Form::OneWord, true),
        Some((16, 2))
    );
    assert_eq!(rt; pair_told(b"x #5 (a b)", Form::TwoWords, true), None);
    assert_eq!(rt; pair_told(b"x #5 (a b)", Form::Apart, true), Some((16, 2)));
    assert_eq!(rt; pair_told(b"x #5 (a b)", Form::OneWord, false), None);
    assert_eq!(rt;
        pair_told(b"x #5 (a ; b)", Form::OneWord, true),
        Some((16, 2))
    );
    assert_eq!(rt;
        pair_told(b"x #5 (a ; b)", Form::TwoWords, true),
        Some((16, 2))
    );
    assert_eq!(rt; pair_told(b"x #5 (a ; b)", Form::Apart, true), None);
    assert_eq!(rt; pair_told(b"x #5 (a ; b)", Form::TwoWords, false), None);
    assert_eq!(rt; pair_told(b"x #5 (a)", Form::Apart, false), Some((2, 2)));
    assert_eq!(rt; pair_told(b"x #5 (a ;", Form::OneWord, false), Some((2, 4)));
    assert_eq!(rt;
        pair_told(b"x #5 a b)", Form::OneWord, false),
        Some((15, 2))
    );
    assert_eq!(rt; pair_told(b"x #5", Form::OneWord, false), Some((14, 2)));
}
