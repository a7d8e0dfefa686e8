// What a trace holds, line by line.
use crate::failure::Failure;
use crate::input;
use crate::names_line::{AppLine, QuantLine};
use crate::options::KindsOptions;
use crate::output::Output;
use census::{BadId, Census, IdCause, LineClass, classify, count_lines};
use lines::{Lines, cut_off};
use std::alloc::Global;
use std::io::Write;
use std::{fmt, io};
use version::is_new;
use words::{KINDS, LineKind, Words};

// How many bad identifiers are shown.
const SHOWN: usize = 3;

// How many lines there are of each kind, and what else was counted.
fn summary<W: Write>(out: &mut W, found: &Census) -> io::Result<()> {
    writeln!(out, "{:>10}  lines", found.lines)?;
    for kind in KINDS {
        writeln!(out, "{:>10}  {kind}", found.of_kind(kind))?;
    }
    writeln!(out, "{:>10}  of no known kind", found.unknown)?;
    writeln!(out, "{:>10}  longer than 65536 bytes", found.too_long)?;
    writeln!(
        out,
        "{:>10}  identifiers read in word 1 of [mk-..] and [attach-..] lines",
        found.good_ids
    )?;
    writeln!(out, "{:>10}  not read there", found.bad_ids)
}

// The first bad identifiers, with the cause of each.
fn bad_ids<W: Write>(out: &mut W, bad: &[BadId]) -> io::Result<()> {
    for BadId { line, cause } in bad {
        writeln!(out, "  line {line}: word 1 {cause}")?;
    }
    Ok(())
}

// Whether a `[tool-version]` line has a version of 4.9.0 or later; none where it can't be read.
fn is_new_style(line: &[u8]) -> Option<bool> {
    let mut words = Words::of(line);
    let version = words.nth(2)?;
    if words.next().is_some() {
        return None;
    }
    is_new(version)
}

// The line by its number, and what was read in it, or why nothing was.
fn told<W: Write, T: fmt::Display + Drop, E: fmt::Display + Drop>(
    out: &mut W,
    letter: char,
    number: u64,
    read: Result<T, E>,
) -> io::Result<()> {
    match read {
        Ok(line) => writeln!(out, "{letter} {number} {line}"),
        Err(why) => writeln!(out, "{letter} {number} {why}"),
    }
}

// Identifier, name and child words of each `[mk-app]` and `[mk-quant]` line.
fn all_names(out: &mut Output<'_>, heap: Global, lines: Lines<'_>) -> io::Result<()> {
    let mut scratch = vec![in heap; 0u8; 65_538]?;
    let mut new_style = false;
    for (line, number) in lines.zip(0u64..) {
        match classify(line) {
            LineClass::Known(LineKind::ToolVersion) => {
                new_style = is_new_style(line).unwrap_or(new_style);
            }
            LineClass::Known(LineKind::MkApp) => {
                told(out, 'A', number, AppLine::read(line, &mut scratch))?;
            }
            LineClass::Known(LineKind::MkQuant) => {
                told(out, 'Q', number, QuantLine::read(line, new_style))?;
            }
            _ => {}
        }
        out.pass_on()?;
    }
    Ok(())
}

fn print(rt: &HostRuntime, wanted: KindsOptions<'_>, bytes: &[u8]) -> io::Result<()> {
    let heap = rt.alloc();
    let mut out = Output::new(rt);
    let mut bad = [BadId {
        line: 0,
        cause: IdCause::Missing,
    }; SHOWN];
    let found = count_lines(bytes, wanted.trace.mode, &mut bad);
    summary(&mut out, &found)?;
    bad_ids(&mut out, &bad[..found.bad_ids.min(SHOWN)])?;
    if cut_off(bytes, wanted.trace.mode) {
        out.write_all(b"the last line has no LF: it is cut off and was left out\n")?;
    }
    if wanted.names {
        all_names(&mut out, heap, Lines::of(bytes, wanted.trace.mode))?;
    }
    out.flush()
}

// The command `kinds`.
pub(crate) fn run<'a>(rt: &HostRuntime, wanted: KindsOptions<'a>) -> Result<(), Failure<'a>> {
    let bytes = input::read_file(rt, wanted.trace.path, wanted.trace.progress).map_err(
        |why| Failure::Trace(wanted.trace.path, why),
    )?;
    // matched: a `map_err` to an error whose lifetime neither argument nor capture names is not covered yet
    match print(rt, wanted, &bytes) {
        Err(why) => Err(Failure::Output(why)),
        Ok(()) => Ok(()),
    }
}
