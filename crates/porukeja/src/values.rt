// The command `values`: each line that has a version, a value or variable names is read by itself, without a store.
use crate::failure::Failure;
use crate::input;
use crate::options::TraceOptions;
use census::{LineClass, classify};
use ids::{IdFault, parse_id};
use lines::{Lines, cut_off};
use meanings::{Meaning, MeaningFault};
use pairs::{PairRefusal, check_var_names};
use std::alloc::{AllocError, Global};
use std::collections::BTreeMap;
use std::io;
use std::io::{BufWriter, Write};
use version::is_new;
use words::{LineKind, Words};

// How many refused lines are shown for each number.
const SHOWN: usize = 3;

// Why a line is refused.
#[derive(Clone, Copy, PartialEq, Eq, Debug)]
pub(crate) enum Fault {
    // the line ends too early, after so many words
    Missing(usize),
    // the word that is one too many
    TooMany(usize),
    Version,
    Value(MeaningFault),
    Pair(PairRefusal),
    Id(IdFault),
}

impl Fault {
    // The number that the refusal goes by, and the number of the word that it is told of.
    pub(crate) fn told(self) -> (u8, usize) {
        match self {
            Fault::Missing(words) => (2, words),
            Fault::TooMany(word) => (3, word),
            Fault::Version => (4, 2),
            Fault::Value(fault) => (u8::from(fault), 3),
            Fault::Pair(refusal) => (u8::from(refusal.fault), refusal.word),
            Fault::Id(IdFault::NoHash) => (5, 1),
            Fault::Id(IdFault::Number(_)) => (6, 1),
        }
    }
}

impl From<MeaningFault> for Fault {
    fn from(fault: MeaningFault) -> Fault {
        Fault::Value(fault)
    }
}

impl From<PairRefusal> for Fault {
    fn from(refusal: PairRefusal) -> Fault {
        Fault::Pair(refusal)
    }
}

impl From<IdFault> for Fault {
    fn from(fault: IdFault) -> Fault {
        Fault::Id(fault)
    }
}

// A solver, a version and no more.
pub(crate) fn read_version(line: &[u8]) -> Result<(), Fault> {
    let mut words = Words::of(line);
    let total = words.total();
    let version = words.nth(2).ok_or(Fault::Missing(total))?;
    if words.next().is_some() {
        return Err(Fault::TooMany(3));
    }
    is_new(version).ok_or(Fault::Version)?;
    Ok(())
}

// An identifier, a theory and a value, which may be empty. The value is read before the identifier.
pub(crate) fn read_meaning(line: &[u8]) -> Result<(), Fault> {
    let mut words = Words::of(line);
    let total = words.total();
    let id = words.nth(1).ok_or(Fault::Missing(total))?;
    Meaning::of_words(words).ok_or(Fault::Missing(total))??;
    parse_id(id)?;
    Ok(())
}

// An identifier and pairs of names. The pairs are read before the identifier.
pub(crate) fn read_var_names(line: &[u8]) -> Result<(), Fault> {
    let mut words = Words::of(line);
    let total = words.total();
    let id = words.nth(1).ok_or(Fault::Missing(total))?;
    check_var_names(words)?;
    parse_id(id)?;
    Ok(())
}

// The lines of one kind that are refused by one number: how many, and the first of them with the word told.
#[derive(Drop)]
struct Refused {
    many: u64,
    first: Vec<(u64, usize)>,
}

// What became of the lines of one kind.
#[derive(Drop)]
struct Tally {
    kind: LineKind,
    read: u64,
    refused: BTreeMap<u8, Refused>,
}

impl Tally {
    fn new(heap: Global, kind: LineKind) -> Tally {
        Tally {
            kind,
            read: 0,
            refused: BTreeMap::new(heap),
        }
    }

    fn note(&mut self, heap: Global, line: u64, read: Result<(), Fault>) -> Result<(), AllocError> {
        let Err(fault) = read else {
            self.read = self.read.saturating_add(1);
            return Ok(());
        };
        let (number, word) = fault.told();
        let none = Refused {
            many: 0,
            first: Vec::new(heap),
        };
        let refused = self.refused.entry(number)?.or_insert(none);
        refused.many = refused.many.saturating_add(1);
        if refused.first.len() < SHOWN {
            refused.first.push((line, word))?;
        }
        Ok(())
    }

    fn print<W: Write>(&self, out: &mut W) -> io::Result<()> {
        let kind = self.kind;
        writeln!(out, "{:>10}  {kind} read", self.read)?;
        for (number, refused) in self.refused.iter() {
            writeln!(out, "{:>10}  {kind} refused by {number}", refused.many)?;
            refused.print(out)?;
        }
        Ok(())
    }
}

impl Refused {
    fn print<W: Write>(&self, out: &mut W) -> io::Result<()> {
        for (line, word) in self.first.iter() {
            writeln!(out, "            line {line}: word {word}")?;
        }
        Ok(())
    }
}

fn tallies<W: Write>(out: &mut W, heap: Global, lines: Lines<'_>) -> io::Result<()> {
    let mut too_long: u64 = 0;
    let mut versions = Tally::new(heap, LineKind::ToolVersion);
    let mut meanings = Tally::new(heap, LineKind::AttachMeaning);
    let mut names = Tally::new(heap, LineKind::AttachVarNames);
    for (line, number) in lines.zip(0u64..) {
        match classify(line) {
            LineClass::TooLong => too_long = too_long.saturating_add(1),
            LineClass::Known(LineKind::ToolVersion) => {
                versions.note(heap, number, read_version(line))?;
            }
            LineClass::Known(LineKind::AttachMeaning) => {
                meanings.note(heap, number, read_meaning(line))?;
            }
            LineClass::Known(LineKind::AttachVarNames) => {
                names.note(heap, number, read_var_names(line))?;
            }
            _ => {}
        }
    }
    versions.print(out)?;
    meanings.print(out)?;
    names.print(out)?;
    writeln!(
        out,
        "{too_long:>10}  lines longer than 65536 bytes, not read"
    )
}

fn print(rt: &HostRuntime, wanted: TraceOptions<'_>, bytes: &[u8]) -> io::Result<()> {
    let heap = rt.alloc();
    let mut out = BufWriter::new(heap, rt.stdout())?;
    tallies(&mut out, heap, Lines::of(bytes, wanted.mode))?;
    if cut_off(bytes, wanted.mode) {
        out.write_all(b"the last line has no LF: it is cut off and was left out\n")?;
    }
    out.flush()
}

// The command `values`.
pub(crate) fn run<'a>(rt: &HostRuntime, wanted: TraceOptions<'a>) -> Result<(), Failure<'a>> {
    let bytes = input::read_file(rt, wanted.path, wanted.progress).map_err(|why| Failure::Trace(
        wanted.path,
        why,
    ))?;
    // matched: a `map_err` to an error whose lifetime neither argument nor capture names is not covered yet
    match print(rt, wanted, &bytes) {
        Err(why) => Err(Failure::Output(why)),
        Ok(()) => Ok(()),
    }
}
