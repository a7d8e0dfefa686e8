// The command `index`: identifiers are entered and found by commands from standard input, over a front over a table.
use crate::failure::Failure;
use crate::input;
use crate::options::IndexOptions;
use crate::output::Output;
use front::front::{Front, LOW};
use idents::ident::Ident;
use ids::{IdText, parse_id, parse_number};
use index::map::TermIdToIdxMap;
use index::table::term_table;
use lines::{LineMode, Lines};
use std::alloc::{AllocError, Global};
use std::collections::BTreeMap;
use std::io::Write;
use std::time::{SystemTime, UNIX_EPOCH};
use std::{fmt, io};
use words::Words;

// What a line of standard input asks for.
#[derive(Clone, Copy)]
enum Asked {
    Enter(u32),
    Find,
    Room,
}

// Why a line of standard input was not read.
#[derive(Clone, Copy, PartialEq, Eq, Debug)]
enum CommandFault {
    NoCommand,
    UnknownCommand,
    TooManyWords,
    NoNumber,
    BadNumber,
    NoId,
    BadId,
}

impl fmt::Display for CommandFault {
    fn fmt<W: fmt::Write>(&self, f: &mut fmt::Formatter<W>) -> fmt::Result {
        f.write_str(match self {
            CommandFault::NoCommand => "no command",
            CommandFault::UnknownCommand => "unknown command",
            CommandFault::TooManyWords => "too many words",
            CommandFault::NoNumber => "no record number",
            CommandFault::BadNumber => "the record number can't be read",
            CommandFault::NoId => "no identifier",
            CommandFault::BadId => "the identifier can't be read",
        })
    }
}

// What came of a command.
#[derive(Clone, Copy)]
enum Answer {
    // a number was found, or nothing
    Found(Option<u32>),
    HasRoom(bool),
    // in place of an earlier number, where there was one
    Taken(Option<u32>),
    NoRoom,
    TooManyNamespaces,
}

impl fmt::Display for Answer {
    fn fmt<W: fmt::Write>(&self, f: &mut fmt::Formatter<W>) -> fmt::Result {
        match self {
            Answer::Found(None) => f.write_str("none"),
            Answer::Found(Some(number)) => write!(f, "{number}"),
            Answer::HasRoom(true) => f.write_str("yes"),
            Answer::HasRoom(false) => f.write_str("no"),
            Answer::Taken(None) => f.write_str("taken"),
            Answer::Taken(Some(old)) => write!(f, "taken in place of {old}"),
            Answer::NoRoom => f.write_str("refused: no room"),
            Answer::TooManyNamespaces => f.write_str("refused: too many namespaces"),
        }
    }
}

fn enter_number(word: Option<&[u8]>) -> Result<u32, CommandFault> {
    let word = word.ok_or(CommandFault::NoNumber)?;
    let number = parse_number(word, u64::from(u32::MAX)).map_err(|_| CommandFault::BadNumber)?;
    u32::try_from(number).map_err(|_| CommandFault::BadNumber)
}

// What a command asks for, by its first word and the one behind the identifier.
fn read_asked(command: &[u8], number: Option<&[u8]>) -> Result<Asked, CommandFault> {
    match (command, number) {
        (b"enter", number) => Ok(Asked::Enter(enter_number(number)?)),
        (_, Some(_)) => Err(CommandFault::TooManyWords),
        (b"find", None) => Ok(Asked::Find),
        (b"room", None) => Ok(Asked::Room),
        _ => Err(CommandFault::UnknownCommand),
    }
}

fn read_command(line: &[u8]) -> Result<(Asked, IdText<'_>), CommandFault> {
    let mut words = Words::of(line);
    let command = words.next().ok_or(CommandFault::NoCommand)?;
    let id = words.next();
    let number = words.next();
    if words.next().is_some() {
        return Err(CommandFault::TooManyWords);
    }
    let asked = read_asked(command, number)?;
    let id = parse_id(id.ok_or(CommandFault::NoId)?).map_err(|_| CommandFault::BadId)?;
    Ok((asked, id))
}

// An index, and the numbers of the namespaces of the identifiers in it.
#[derive(Drop)]
struct Session<I> {
    index: I,
    namespaces: BTreeMap<Vec<u8>, usize>,
    heap: Global,
}

impl<I: TermIdToIdxMap> Session<I> {
    // The identifier by numbers, a new namespace by the number that it would get; none where a number does not fit.
    fn ident(&self, id: IdText<'_>) -> Option<Ident> {
        let order = u32::try_from(id.order()).ok()?;
        let Some(text) = id.namespace else {
            return Some(Ident {
                namespace: None,
                order,
            });
        };
        let next = self.namespaces.len();
        let number = self.namespaces.get(text).copied().unwrap_or(next);
        Some(Ident {
            namespace: Some(u32::try_from(number).ok()?),
            order,
        })
    }

    // Only an entry that is taken keeps its namespace. Memory is taken for a new one alone.
    fn keep(&mut self, namespace: Option<&[u8]>) -> Result<(), AllocError> {
        let Some(text) = namespace else {
            return Ok(());
        };
        if !self.namespaces.contains_key(text) {
            let next = self.namespaces.len();
            let text = Vec::from_slice(self.heap, text)?;
            self.namespaces.insert(text, next)?;
        }
        Ok(())
    }

    fn enter(&mut self, id: IdText<'_>, ident: Ident, number: u32) -> io::Result<Answer> {
        match self.index.register_term(ident, number) {
            Err(_) => Ok(Answer::NoRoom),
            Ok(displaced) => {
                self.keep(id.namespace)?;
                Ok(Answer::Taken(displaced))
            }
        }
    }

    fn answer(&mut self, asked: Asked, id: IdText<'_>) -> io::Result<Answer> {
        let Some(ident) = self.ident(id) else {
            return Ok(Answer::TooManyNamespaces);
        };
        match asked {
            Asked::Find => Ok(Answer::Found(self.index.get_term(ident))),
            Asked::Room => Ok(Answer::HasRoom(self.index.room(ident))),
            Asked::Enter(number) => self.enter(id, ident, number),
        }
    }
}

// All commands, and how many identifiers are held in the end. A blank line asks nothing.
fn commands<I: TermIdToIdxMap>(
    out: &mut Output<'_>,
    session: &mut Session<I>,
    lines: Lines<'_>,
) -> io::Result<()> {
    for (line, number) in lines.zip(0u64..) {
        if line.is_empty() {
            continue;
        }
        match read_command(line) {
            Err(fault) => writeln!(out, "{number}: not read: {fault}")?,
            Ok((asked, id)) => {
                let answer = session.answer(asked, id)?;
                writeln!(out, "{number}: {answer}")?;
            }
        }
        out.pass_on()?;
    }
    writeln!(out, "held: {}", session.index.held())
}

// A seed that differs from run to run, so that no list of identifiers can be made to collide; 0 where the clock tells no time since its
// start.
fn seed_of_now(rt: &HostRuntime) -> u64 {
    let Ok(now) = SystemTime::now(rt) else {
        return 0;
    };
    let nanos = now
        .duration_since(UNIX_EPOCH)
        .map_or(0, |time| time.as_nanos());
    (nanos & u128::from(u64::MAX)) as u64
}

fn over_front(rt: &HostRuntime, wanted: IndexOptions, bytes: &[u8]) -> io::Result<()> {
    let heap = rt.alloc();
    let mut slots = vec![in heap; None; wanted.slots]?;
    let mut orders = [None; LOW];
    let seed = wanted.seed.unwrap_or_else(|| seed_of_now(rt));
    let mut table = term_table(&mut slots, seed);
    let mut session = Session {
        index: Front::new(&mut orders, &mut table),
        namespaces: BTreeMap::new(heap),
        heap,
    };
    let mut out = Output::new(rt);
    commands(&mut out, &mut session, Lines::of(bytes, LineMode::EachLine))?;
    out.flush()
}

// The command `index`.
pub(crate) fn run<'a>(rt: &HostRuntime, wanted: IndexOptions) -> Result<(), Failure<'a>> {
    // matched: a `map_err` to an error whose lifetime neither argument nor capture names is not covered yet
    match input::read_stdin(rt) {
        Err(why) => Err(Failure::StandardInput(why)),
        Ok(bytes) => match over_front(rt, wanted, &bytes) {
            Err(why) => Err(Failure::Commands(why)),
            Ok(()) => Ok(()),
        },
    }
}
