// The command line.
use ids::parse_number;
use lines::LineMode;
use std::fmt;

pub(crate) const USAGE: &str = "\
usage: porukeja COMMAND

  porukeja kinds [OPTION..] TRACE   count the lines of a Z3 trace by kind, and say which
                                    identifiers can't be read
      --names       also print the identifier, name and child words of each [mk-app] and
                    [mk-quant] line
      --each-line   take every LF as the end of a line; without it a line goes on until an
                    LF before `[`, a blank line or the end, since names may hold LF
      --progress    say on stderr how much is read
  porukeja values [OPTION..] TRACE  read the versions, values and variable names of a trace, each
                                    line by itself, and say how many are refused by which number
      --each-line, --progress   as above
  porukeja index [OPTION..]         enter and find identifiers, by commands on standard input,
                                    one a line: enter ID N, find ID, room ID
      --slots N     how many slots the table has (default 65536)
      --seed N      what the table's hash is mixed with (default: the time); no answer
                    depends on it
  porukeja help                     print this text

Lines are counted from 0. In texts that are printed, a space, a backslash and every byte
outside printable ASCII stand as \\xNN, and an empty text as \"\".
";

// Which trace is read, and how.
#[derive(Clone, Copy)]
pub(crate) struct TraceOptions<'a> {
    pub path: &'a str,
    pub mode: LineMode,
    pub progress: bool,
}

// What `kinds` is asked for.
#[derive(Clone, Copy)]
pub(crate) struct KindsOptions<'a> {
    pub trace: TraceOptions<'a>,
    pub names: bool,
}

// What `index` is asked for.
#[derive(Clone, Copy)]
pub(crate) struct IndexOptions {
    pub slots: usize,
    // none: one that differs from run to run is taken
    pub seed: Option<u64>,
}

#[derive(Clone, Copy)]
pub(crate) enum Command<'a> {
    Help,
    Kinds(KindsOptions<'a>),
    Values(TraceOptions<'a>),
    Index(IndexOptions),
}

// What is wrong with the arguments.
#[derive(Clone, Copy, PartialEq, Eq, Debug)]
pub(crate) enum Misuse<'a> {
    NoCommand,
    UnknownCommand(&'a str),
    UnknownOption(&'a str),
    SecondTrace(&'a str),
    NoTrace,
    UnknownArgument(&'a str),
    NoNumber(&'a str),
    NotNumber(&'a str),
}

impl<'a> fmt::Display for Misuse<'a> {
    fn fmt<W: fmt::Write>(&self, f: &mut fmt::Formatter<W>) -> fmt::Result {
        match self {
            Misuse::NoCommand => f.write_str("no command is named"),
            Misuse::UnknownCommand(word) => write!(f, "unknown command {word}"),
            Misuse::UnknownOption(word) => write!(f, "unknown option {word}"),
            Misuse::SecondTrace(word) => write!(f, "more than one trace: {word}"),
            Misuse::NoTrace => f.write_str("no trace is named"),
            Misuse::UnknownArgument(word) => write!(f, "unknown argument {word}"),
            Misuse::NoNumber(option) => write!(f, "no number after {option}"),
            Misuse::NotNumber(word) => write!(f, "not a number: {word}"),
        }
    }
}

// The options of a command that reads a trace; only `kinds` has `--names`.
fn read_kinds<'a>(words: &[&'a str], has_names: bool) -> Result<KindsOptions<'a>, Misuse<'a>> {
    let mut path = None;
    let mut names = false;
    let mut mode = LineMode::Joined;
    let mut progress = false;
    for word in words {
        match *word {
            "--names" if has_names => names = true,
            "--each-line" => mode = LineMode::EachLine,
            "--progress" => progress = true,
            option if option.starts_with("-") => return Err(Misuse::UnknownOption(option)),
            second if path.is_some() => return Err(Misuse::SecondTrace(second)),
            first => path = Some(first),
        }
    }
    let path = path.ok_or(Misuse::NoTrace)?;
    Ok(KindsOptions {
        trace: TraceOptions {
            path,
            mode,
            progress,
        },
        names,
    })
}

// The number behind an option.
fn read_number<'a>(option: &'a str, value: Option<&&'a str>) -> Result<u64, Misuse<'a>> {
    let value = *value.ok_or(Misuse::NoNumber(option))?;
    parse_number(value.as_bytes(), u64::MAX).map_err(|_| Misuse::NotNumber(value))
}

fn read_index<'a>(words: &[&'a str]) -> Result<IndexOptions, Misuse<'a>> {
    let mut slots = 65_536;
    let mut seed = None;
    for argument in words.chunks(2) {
        match argument[0] {
            "--slots" => slots = read_number("--slots", argument.get(1))?,
            "--seed" => seed = Some(read_number("--seed", argument.get(1))?),
            other => return Err(Misuse::UnknownArgument(other)),
        }
    }
    Ok(IndexOptions {
        slots: slots as usize,
        seed,
    })
}

// What the words of the command line ask for.
pub(crate) fn read<'a>(words: &[&'a str]) -> Result<Command<'a>, Misuse<'a>> {
    let (command, rest) = words.split_first().ok_or(Misuse::NoCommand)?;
    match *command {
        "help" | "--help" | "-h" => Ok(Command::Help),
        "kinds" => Ok(Command::Kinds(read_kinds(rest, true)?)),
        "values" => Ok(Command::Values(read_kinds(rest, false)?.trace)),
        "index" => Ok(Command::Index(read_index(rest)?)),
        other => Err(Misuse::UnknownCommand(other)),
    }
}
